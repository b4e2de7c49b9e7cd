//! Each public function once, against the table of modes, refusals and limits.
use crate::asserted::equal;
use phase_modes::{Limits, Mode, Refusal, Reg};
use std::alloc::{AllocError, AllocFailed, Global};
use std::process::Abort;
use std::test::Fail;

#[test]
fn capabilities_of_modes(rt: HostRuntime) -> Result<(), Fail> {
    const ROWS: [(Mode, bool, bool, bool); 4] = [
        (Mode::Sig, true, false, false),
        (Mode::Wait, false, true, false),
        (Mode::SigWait, true, true, false),
        (Mode::Single, true, true, true),
    ];
    for (mode, signal, wait, single) in ROWS {
        equal(&rt, mode.can_signal(), signal);
        equal(&rt, mode.can_wait(), wait);
        equal(&rt, mode.can_single(), single);
    }
    Ok(())
}

/// Whether a child in this mode may have a parent in the modes SIG, WAIT, SIG_WAIT and SINGLE.
fn is_within(rt: &impl Abort, child: Mode, parents: [bool; 4]) {
    let [sig, wait, sig_wait, single] = parents;
    equal(rt, Mode::within(child, Mode::Sig), sig);
    equal(rt, Mode::within(child, Mode::Wait), wait);
    equal(rt, Mode::within(child, Mode::SigWait), sig_wait);
    equal(rt, Mode::within(child, Mode::Single), single);
}

#[test]
fn modes_within_modes(rt: HostRuntime) -> Result<(), Fail> {
    is_within(&rt, Mode::Sig, [true, false, true, true]);
    is_within(&rt, Mode::Wait, [false, true, true, true]);
    is_within(&rt, Mode::SigWait, [false, false, true, true]);
    is_within(&rt, Mode::Single, [false, false, false, true]);
    Ok(())
}

#[test]
fn names_of_modes(rt: HostRuntime) -> Result<(), Fail> {
    const NAMES: [(Mode, &str); 4] = [
        (Mode::Sig, "SIG"),
        (Mode::Wait, "WAIT"),
        (Mode::SigWait, "SIG_WAIT"),
        (Mode::Single, "SINGLE"),
    ];
    for (mode, name) in NAMES {
        assert!(rt; mode.name() == name);
        equal(&rt, Mode::of_name(name), Some(mode));
    }
    equal(&rt, Mode::of_name("sig"), None);
    Ok(())
}

/// How many phases the registration has signalled, and how many it has passed.
fn stands(rt: &impl Abort, reg: Reg, signals: u64, waits: u32) {
    equal(rt, reg.signals(), signals);
    equal(rt, reg.waits(), waits);
}

/// A task that has signalled phase 7, in which it still is.
const PARENT: Reg = Reg {
    mode: Mode::SigWait,
    phase: 7,
    ahead: true,
};

#[test]
fn child_begins_where_its_parent_stands(rt: HostRuntime) -> Result<(), Fail> {
    stands(&rt, PARENT, 8, 7);
    let signaller = PARENT.child_of(Mode::Sig).ok().ok_or("refused")?;
    equal(&rt, signaller.signals(), 8);
    Ok(())
}

#[test]
fn waiting_child_has_not_signalled(rt: HostRuntime) -> Result<(), Fail> {
    let waiter = PARENT.child_of(Mode::Wait).ok().ok_or("refused")?;
    equal(&rt, waiter.waits(), 7);
    assert!(rt; !waiter.ahead);
    equal(
        &rt,
        waiter.child_of(Mode::Sig),
        Err(Refusal::MoreThanParent),
    );
    Ok(())
}

#[test]
fn registration_goes_step_by_step(rt: HostRuntime) -> Result<(), Fail> {
    let maker = Reg::<u32>::maker(Mode::SigWait);
    stands(&rt, maker, 0, 0);
    let ahead = maker.signalled();
    stands(&rt, ahead, 1, 0);
    let next = ahead.passed();
    stands(&rt, next, 1, 1);
    equal(&rt, next.mode, Mode::SigWait);
    Ok(())
}

/// A list of one number, `Memory` if it can't grow.
fn one_number(alloc: Global) -> Result<Vec<u32>, Refusal> {
    let mut numbers = Vec::with_capacity(alloc, 1)?;
    numbers.push(7)?;
    Ok(numbers)
}

#[test]
fn refused_memory_is_a_refusal(rt: HostRuntime) -> Result<(), Fail> {
    equal(&rt, Refusal::from(AllocError), Refusal::Memory);
    equal(
        &rt,
        Refusal::from(AllocFailed { value: 7 }),
        Refusal::Memory,
    );
    equal(&rt, one_number(rt.alloc())?.len(), 1);
    Ok(())
}

#[test]
fn refusals_are_printed(rt: HostRuntime) -> Result<(), Fail> {
    const LINES: [(Refusal, &str); 4] = [
        (Refusal::NotRegistered, "refused 1 NotRegistered"),
        (Refusal::SharesDiffer, "refused 26 SharesDiffer"),
        (Refusal::BadText(2), "refused 24 BadText at 2"),
        (Refusal::NotExplained(7), "refused 25 NotExplained at 7"),
    ];
    for (refusal, line) in LINES {
        let printed = format!(in rt.alloc(); "{refusal}")?;
        assert!(rt; printed.as_str() == line);
    }
    Ok(())
}

#[test]
fn refusals_have_numbers_and_names(rt: HostRuntime) -> Result<(), Fail> {
    const NUMBERS: [(Refusal, u8); 4] = [
        (Refusal::NotRegistered, 1),
        (Refusal::SharesDiffer, 26),
        (Refusal::BadText(2), 24),
        (Refusal::NotExplained(7), 25),
    ];
    for (refusal, number) in NUMBERS {
        equal(&rt, refusal.number(), number);
    }
    assert!(rt; Refusal::of_number(1) == Some(Refusal::NotRegistered));
    assert!(rt; Refusal::of_number(25) == Some(Refusal::NotExplained(0)));
    assert!(rt; Refusal::of_number(0).is_none() && Refusal::of_number(27).is_none());
    equal(&rt, Refusal::BadText(2).place(), Some(2));
    equal(&rt, Refusal::Memory.place(), None);
    assert!(rt; Refusal::Memory.name() == "Memory");
    Ok(())
}

#[test]
fn limits_have_ranges(rt: HostRuntime) -> Result<(), Fail> {
    let limits = Limits::default();
    assert!(rt; limits.fits());
    let greatest = Limits {
        acts: 65_536,
        finishes: 1_024,
        history: 65_536,
        phasers: 64,
        regs: 256,
        tasks: 4_096,
    };
    assert!(rt; greatest.fits());
    let short = Limits {
        history: 3,
        ..greatest
    };
    assert!(rt; !short.fits());
    Ok(())
}
