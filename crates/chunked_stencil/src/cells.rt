//! The cells: the first row, the pieces that it is split into, and what a step makes of a piece.
ghost use Rattle.std.specs.Prelude.{◌≡◌, ◌≤◌, ◌<◌, length, map, vec_len, IfOk, IfErr};
ghost use Rattle.std.specs.List.{concat};
ghost use Rattle.job_kernels.specs.Stencil.{weighed, AtMost};
ghost use Rattle.chunked_stencil.specs.Pieces.{first_or, last_or, piece_step};

use phase_modes::Refusal;
use std::alloc::Global;

/// The most that a cell holds.
pub const GREATEST: u32 = 1_000_000;

/// A piece of a row: some cells in a list of its own.
#[derive(Drop)]
pub struct Piece {
    pub cells: Vec<u32>,
    ghost some: { 0 < vec_len cells },
    ghost low: { AtMost 1000000 cells.items },
}

/// The first row: as many cells, with numbers that look mixed.
pub fn first_row(alloc: Global, cells: usize) -> Result<Vec<u32>, Refusal>
    ensures number { IfOk result (λ v. vec_len v ≡ cells) }
    ensures low { IfOk result (λ v. AtMost 1000000 v.items) }
    ensures memory { IfErr result (λ e. e ≡ Refusal.Memory) }
{
    let mut row = Vec::new(alloc);
    for place in 0..cells {
        row.push((place as u64 % 1_000 * 7_919 % 1_000_001) as u32)?;
    }
    Ok(row)
}

/// The row in pieces of so many cells; the last one may have fewer.
pub fn split(alloc: Global, row: &[u32], size: usize) -> Result<Vec<Piece>, Refusal>
    requires size { 0 < size }
    requires low { AtMost 1000000 row.now }
    ensures row { IfOk result (λ v. concat (map (λ piece. piece.cells.items) v.items) ≡ row.now) }
    ensures memory { IfErr result (λ e. e ≡ Refusal.Memory) }
{
    let mut pieces = Vec::new(alloc);
    let mut rest = row;
    for _piece in 0..row.len() {
        if rest.is_empty() {
            break;
        }
        let (piece, behind) = rest.split_at(size.min(rest.len()));
        let cells = Vec::from_slice(alloc, piece)?;
        pieces.push(Piece { cells })?;
        rest = behind;
    }
    Ok(pieces)
}

/// A cell and its neighbours, the cell with twice their weight.
fn weighed(left: u32, own: u32, right: u32) -> u32
    requires left { left ≤ 1000000 }
    requires own { own ≤ 1000000 }
    requires right { right ≤ 1000000 }
    ensures cell { result ≡ weighed left own right }
    ensures most { result ≤ 1000000 }
{
    (left + 2 * own + right) / 4
}

/// The piece after a step, between the cell on its left and the cell on its right.
fn step_piece(left: u32, piece: &mut [u32], right: u32)
    requires some { 0 < length piece.old }
    requires left { left ≤ 1000000 }
    requires right { right ≤ 1000000 }
    requires low { AtMost 1000000 piece.old }
    ensures cells { piece.new ≡ piece_step left piece.old right }
    ensures low { AtMost 1000000 piece.new }
{
    let last = piece.len() - 1;
    let mut before = left;
    for place in 0..last {
        let own = piece[place];
        piece[place] = weighed(before, own, piece[place + 1]);
        before = own;
    }
    piece[last] = weighed(before, piece[last], right);
}

impl Piece {
    /// Its first cell.
    pub fn first(&self) -> u32
        ensures cell { result ≡ first_or 0 self.now.cells.items }
        ensures low { result ≤ 1000000 }
    {
        self.cells[0]
    }

    /// Its last cell.
    pub fn last(&self) -> u32
        ensures cell { result ≡ last_or 0 self.now.cells.items }
        ensures low { result ≤ 1000000 }
    {
        self.cells[self.cells.len() - 1]
    }

    /// It goes a step, between the cell on its left and the cell on its right.
    pub fn step(&mut self, left: u32, right: u32)
        requires left { left ≤ 1000000 }
        requires right { right ≤ 1000000 }
        ensures { self.new.cells.items ≡ piece_step left self.old.cells.items right }
    {
        step_piece(left, &mut self.cells, right);
    }
}
