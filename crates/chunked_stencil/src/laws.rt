//! What holds of a row in pieces, for all rows and all splits. The function does nothing: its
//! contract is the law and an example, and the check proves it.
ghost use Rattle.chunked_stencil.specs.Pieces.{PiecesComeToStencil, ThreePiecesGoTwoSteps};

/// Whatever pieces a row is split into, put together they are the stencil of the row after as many
/// steps.
pub fn pieces_come_to_stencil()
    ensures law { PiecesComeToStencil }
    ensures example { ThreePiecesGoTwoSteps }
{}
