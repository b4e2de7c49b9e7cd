//! Lines that come and go in any order stand by rising task number, and are found.
ghost use Rattle.std.specs.Prelude.{◌≡◌, ◌≤◌};
ghost use Rattle.reg_table.specs.Lines.{HasNext};

use crate::asserted::equal;
use phase_modes::{LongReg, Mode, Refusal};
use reg_table::{Comparisons, Entry, Table, TaskNumber};
use std::alloc::Global;
use std::test::Fail;

fn line(task: u64) -> Entry
    ensures task { result.task ≡ task }
    ensures next { HasNext result.reg }
{
    Entry {
        task: TaskNumber::of(task),
        reg: LongReg {
            mode: Mode::SigWait,
            phase: task % 1_000,
            ahead: false,
        },
        proposed: false,
    }
}

/// Puts the task's line into the table, if it has none yet and there is room.
fn put(table: &mut Table, task: u64) {
    let mut comparisons = Comparisons::none();
    if table.len() >= 256 {
        return;
    }
    match table.find(task, &mut comparisons) {
        Some(_) => {}
        None => {
            let place = table.place_for(task, &mut comparisons);
            table.insert(place, line(task));
        }
    }
}

/// A table with the lines of task 0 and of 255 tasks behind so many that have none, put in in no order.
fn filled(alloc: Global, gap: u64) -> Result<Table, Refusal>
    requires { gap ≤ 1 }
{
    let mut table = Table::new(alloc)?;
    for i in 0..256 {
        let number = i * 37 % 256;
        put(&mut table, if number == 0 { 0 } else { number + gap });
    }
    Ok(table)
}

/// Where the task's line stands and its phase, and how many comparisons it took to find it.
fn found(table: &Table, task: u64) -> (Option<(usize, u64)>, u32) {
    let mut comparisons = Comparisons::none();
    let found = table
        .find(task, &mut comparisons)
        .map(|(place, entry)| (place, entry.reg.phase));
    (found, comparisons.made())
}

/// The tasks 0 to 255 each stand at the place of their number, so that the guess finds them.
#[test]
fn each_line_is_found(rt: HostRuntime) -> Result<(), Fail> {
    let table = filled(rt.alloc(), 0)?;
    equal(&rt, table.len(), 256);
    for task in 0..256 {
        equal(&rt, found(&table, task), (Some((task as usize, task)), 1));
    }
    equal(&rt, found(&table, 256).0, None);
    Ok(())
}

/// Task 0, and the tasks 2 to 256 a place before their number. Task 255 is looked for at place 255, and
/// then among 255 lines, at 127, 191, 223, 239, 247, 251, 253 and 254.
#[test]
fn the_dearest_line_takes_nine_comparisons(rt: HostRuntime) -> Result<(), Fail> {
    let table = filled(rt.alloc(), 1)?;
    for task in 2..257 {
        let (place, made) = found(&table, task);
        equal(&rt, place, Some((task as usize - 1, task)));
        assert!(rt; made <= 9);
    }
    equal(&rt, found(&table, 255).1, 9);
    equal(&rt, found(&table, 1).0, None);
    Ok(())
}

/// A line is written where its task signals and passes, and goes where it is taken out.
#[test]
fn a_line_is_written_in_place(rt: HostRuntime) -> Result<(), Fail> {
    let mut table = Table::new(rt.alloc())?;
    put(&mut table, 7);
    if table.len() == 1 {
        table.signal(0, true);
    }
    let written = table
        .lines()
        .first()
        .is_some_and(|line| line.reg.ahead && line.proposed);
    assert!(rt; written);
    Ok(())
}

/// Puts the task's line behind all others, if it comes last. Returns how many comparisons that
/// took.
fn put_last(table: &mut Table, task: u64) -> u32 {
    let mut comparisons = Comparisons::none();
    if table.len() < 256 && table.comes_last(task, &mut comparisons) {
        table.push(line(task));
    }
    comparisons.made()
}

/// Lines that come and go at the end, each looked for first as far behind the first as its number
/// lies.
#[test]
fn lines_come_and_go_at_the_end(rt: HostRuntime) -> Result<(), Fail> {
    let mut table = Table::new(rt.alloc())?;
    equal(&rt, put_last(&mut table, 5), 0);
    equal(&rt, put_last(&mut table, 9), 1);
    equal(&rt, put_last(&mut table, 7), 1);
    equal(&rt, table.len(), 2);
    let mut comparisons = Comparisons::none();
    let guessed = table.guess(9, &mut comparisons).map(|(place, _)| place);
    equal(&rt, guessed, Some(1));
    let first = table.guess(5, &mut comparisons).map(|(place, _)| place);
    equal(&rt, first, Some(0));
    assert!(rt; table.guess(7, &mut comparisons).is_none());
    assert!(rt; table.last_of(9, &mut comparisons).is_some());
    assert!(rt; table.last_of(5, &mut comparisons).is_none());
    equal(&rt, comparisons.made(), 5);
    // The last of two lines has a number above 0.
    assert!(rt; table.last_of(0, &mut comparisons).is_none());
    equal(&rt, comparisons.made(), 5);
    let halved = table.find_by_halving(5, &mut comparisons);
    equal(&rt, halved.map(|(place, _)| place), Some(0));
    equal(&rt, comparisons.made(), 7);
    if table.len() > 0 {
        table.pop();
    }
    equal(&rt, table.len(), 1);
    Ok(())
}
