//! Runs that were worked out by hand, judged event by event.
use phase_model::{Bound, LongLook, Look, Op, Ops};
use phase_modes::{Mode, Refusal};
use phaser_judge::{Judge, Named, NamedEvent, Owing, Refused, Totals, judge_all};
use std::alloc::Global;
use std::process::Abort;
use std::test::Fail;

/// An event of this phaser.
fn of(phaser: u64, event: Named) -> NamedEvent {
    NamedEvent { phaser, event }
}

/// Hands the judge an event, and once more if there was no memory for it.
fn hand(judge: &mut Judge, event: &NamedEvent) -> Result<(), Refused> {
    match judge.event(event) {
        Err(Refused::Memory) => judge.event(event),
        answer => answer,
    }
}

/// Hands the judge an event of phaser 7.
fn say(judge: &mut Judge, event: Named) -> Result<(), Refused> {
    hand(judge, &of(7, event))
}

/// Judges a whole list, and once more if there was no memory for it.
fn judged(alloc: Global, events: &[NamedEvent]) -> Result<(), Refused> {
    match judge_all(alloc, events) {
        Err(Refused::Memory) => judge_all(alloc, events),
        answer => answer,
    }
}

/// The judge accepts these events of phaser 7.
fn accepts(rt: &impl Abort, judge: &mut Judge, events: &[Named]) {
    for event in events {
        assert_eq!(rt; say(judge, *event), Ok(()));
    }
}

/// Task 100 makes phaser 7 without accumulators, and registers task 200. Both have this mode.
fn two(rt: &impl Abort, judge: &mut Judge, mode: Mode) {
    accepts(
        rt,
        judge,
        &[
            Named::Make(100, mode, Ops::none(), None),
            Named::Reg(100, 200, mode),
        ],
    );
}

/// Task 100 makes a phaser.
fn made() -> Named {
    Named::Make(100, Mode::SigWait, Ops::none(), None)
}

fn summing() -> Ops {
    let mut ops = Ops::none();
    ops.push(Op::Sum);
    ops
}

fn saw(sum: i128) -> LongLook {
    Look::Value(sum)
}

#[test]
fn a_barrier_and_an_early_pass(rt: HostRuntime) {
    let mut judge = Judge::new(rt.alloc());
    two(&rt, &mut judge, Mode::SigWait);
    accepts(
        &rt,
        &mut judge,
        &[
            Named::Sig(100, None),
            Named::Sig(200, None),
            Named::Pass(100),
            Named::Pass(200),
            Named::Sig(200, None),
        ],
    );
    assert_eq!(rt; judge.phasers(), 1);
    assert_eq!(rt; judge.phase(7), Some(1));
    assert_eq!(rt; judge.phase(8), None);
    // Task 100 has not signalled phase 1.
    assert_eq!(rt; say(&mut judge, Named::Pass(200)), Err(Refused::HadToWait));
    assert!(rt; judge.is_over());
    assert_eq!(rt; say(&mut judge, Named::Sig(100, None)), Err(Refused::Over));
    let totals = Totals {
        events: 7,
        made: 1,
        registrations: 2,
        signals: 3,
        passes: 2,
        drops: 0,
        sends: 0,
    };
    assert_eq!(rt; judge.totals(), totals);
}

#[test]
fn rules(rt: HostRuntime) {
    let mut judge = Judge::new(rt.alloc());
    two(&rt, &mut judge, Mode::SigWait);
    let refused = Err(Refused::Rule(Refusal::NotSignalled));
    assert_eq!(rt; say(&mut judge, Named::Pass(200)), refused);

    let mut judge = Judge::new(rt.alloc());
    two(&rt, &mut judge, Mode::Sig);
    let refused = Err(Refused::Rule(Refusal::MoreThanParent));
    assert_eq!(rt;
        say(&mut judge, Named::Reg(100, 300, Mode::SigWait)),
        refused
    );
}

#[test]
fn a_sum(rt: HostRuntime) {
    let mut judge = Judge::new(rt.alloc());
    accepts(
        &rt,
        &mut judge,
        &[
            Named::Make(1, Mode::SigWait, summing(), None),
            Named::Reg(1, 2, Mode::SigWait),
            Named::Send(1, 0, 5),
            Named::Send(2, 0, -8),
            Named::Sig(1, None),
            Named::Sig(2, None),
            Named::Pass(1),
            Named::Look(1, 0, saw(-3)),
            Named::Pass(2),
        ],
    );
    let refused = Err(Refused::SawOther(saw(-3)));
    assert_eq!(rt; say(&mut judge, Named::Look(2, 0, saw(13))), refused);
}

#[test]
fn a_single(rt: HostRuntime) {
    let mut judge = Judge::new(rt.alloc());
    two(&rt, &mut judge, Mode::Single);
    accepts(
        &rt,
        &mut judge,
        &[
            Named::Sig(100, Some(9)),
            Named::Sig(200, Some(9)),
            Named::Claim(200),
            Named::Did(200),
            Named::Pass(100),
            Named::Pass(200),
            Named::Sig(100, None),
            Named::Sig(200, None),
        ],
    );
    assert_eq!(rt;
        say(&mut judge, Named::Claim(100)),
        Err(Refused::PassesInstead)
    );

    let mut judge = Judge::new(rt.alloc());
    two(&rt, &mut judge, Mode::Single);
    accepts(
        &rt,
        &mut judge,
        &[Named::Sig(100, Some(9)), Named::Sig(200, Some(9))],
    );
    assert_eq!(rt;
        say(&mut judge, Named::Pass(100)),
        Err(Refused::ClaimsInstead)
    );

    let mut judge = Judge::new(rt.alloc());
    two(&rt, &mut judge, Mode::Single);
    accepts(
        &rt,
        &mut judge,
        &[
            Named::Sig(100, Some(9)),
            Named::Sig(200, Some(9)),
            Named::Claim(200),
        ],
    );
    assert_eq!(rt; say(&mut judge, Named::Pass(100)), Err(Refused::HadToWait));
}

#[test]
fn numbers_used_again(rt: HostRuntime) {
    let mut judge = Judge::new(rt.alloc());
    two(&rt, &mut judge, Mode::SigWait);
    accepts(
        &rt,
        &mut judge,
        &[
            Named::Sig(100, None),
            Named::Drop(200),
            Named::Pass(100),
            Named::Reg(100, 200, Mode::SigWait),
            Named::Sig(200, None),
            Named::Drop(100),
            Named::Pass(200),
            Named::Drop(200),
            // Nobody is left, so the phaser's number is free.
            Named::Make(200, Mode::Sig, Ops::none(), None),
            Named::Sig(200, None),
        ],
    );
    assert_eq!(rt;
        say(&mut judge, Named::Sig(100, None)),
        Err(Refused::NotRegistered)
    );
}

#[test]
fn who_is_there(rt: HostRuntime) {
    let mut judge = Judge::new(rt.alloc());
    assert_eq!(rt;
        say(&mut judge, Named::Sig(100, None)),
        Err(Refused::NotMade)
    );

    let mut judge = Judge::new(rt.alloc());
    accepts(&rt, &mut judge, &[made(), Named::Drop(100)]);
    assert_eq!(rt; say(&mut judge, Named::Drop(100)), Err(Refused::NotMade));

    let mut judge = Judge::new(rt.alloc());
    accepts(&rt, &mut judge, &[made()]);
    // Another phaser has its own tasks.
    assert_eq!(rt; hand(&mut judge, &of(8, made())), Ok(()));
    assert_eq!(rt; hand(&mut judge, &of(8, made())), Err(Refused::MadeAlready));

    let mut judge = Judge::new(rt.alloc());
    two(&rt, &mut judge, Mode::SigWait);
    let again = Named::Reg(100, 200, Mode::Sig);
    assert_eq!(rt; say(&mut judge, again), Err(Refused::RegisteredAlready));
}

#[test]
fn a_bound(rt: HostRuntime) -> Result<(), Fail> {
    let bound = Bound::of(2).ok_or("no bound")?;
    let mut judge = Judge::new(rt.alloc());
    accepts(
        &rt,
        &mut judge,
        &[
            Named::Make(1, Mode::SigWait, Ops::none(), Some(bound)),
            Named::Reg(1, 2, Mode::Sig),
            Named::Sig(2, None),
            Named::Pass(2),
            Named::Sig(2, None),
            Named::Pass(2),
        ],
    );
    // Task 1 has passed no phase, and phase 2 is two further.
    assert_eq!(rt;
        say(&mut judge, Named::Sig(2, None)),
        Err(Refused::HadToWait)
    );
    Ok(())
}

#[test]
fn no_bound(rt: HostRuntime) {
    let mut judge = Judge::new(rt.alloc());
    accepts(
        &rt,
        &mut judge,
        &[
            Named::Make(1, Mode::SigWait, summing(), None),
            Named::Reg(1, 2, Mode::Sig),
        ],
    );
    for _ in 0..65_536 {
        accepts(&rt, &mut judge, &[Named::Sig(2, None), Named::Pass(2)]);
    }
    assert_eq!(rt;
        say(&mut judge, Named::Sig(2, None)),
        Err(Refused::HadToWait)
    );
}

#[test]
fn a_million_events(rt: HostRuntime) {
    let mut judge = Judge::new(rt.alloc());
    two(&rt, &mut judge, Mode::SigWait);
    for _ in 0..250_000 {
        accepts(
            &rt,
            &mut judge,
            &[
                Named::Sig(100, None),
                Named::Sig(200, None),
                Named::Pass(200),
                Named::Pass(100),
            ],
        );
    }
    assert_eq!(rt; judge.totals().events, 1_000_002);
    assert_eq!(rt;
        say(&mut judge, Named::Pass(100)),
        Err(Refused::Rule(Refusal::NotSignalled))
    );
}

#[test]
fn a_whole_list(rt: HostRuntime) {
    let events = [
        of(7, made()),
        of(8, made()),
        of(7, Named::Sig(100, None)),
        of(8, Named::Sig(100, None)),
        of(8, Named::Pass(100)),
        of(7, Named::Pass(100)),
        of(7, Named::Drop(100)),
        of(8, Named::Pass(100)),
    ];
    assert_eq!(rt; judged(rt.alloc(), &events[..7]), Ok(()));
    let refused = Err(Refused::Rule(Refusal::NotSignalled));
    assert_eq!(rt; judged(rt.alloc(), &events), refused);
}

#[test]
fn nobody_is_left(rt: HostRuntime) {
    let mut judge = Judge::new(rt.alloc());
    accepts(&rt, &mut judge, &[made(), Named::Drop(100)]);
    assert_eq!(rt; judge.phasers(), 0);
    assert_eq!(rt; judge.phase(7), None);
}

/// The event of phaser 7 had to wait, in this phase for these tasks.
fn waits_for(
    rt: &impl Abort,
    alloc: Global,
    judge: &mut Judge,
    event: Named,
    phase: u64,
    tasks: &[u64],
) {
    let mut owing = Owing::none(alloc);
    let event = of(7, event);
    let answer = match judge.event_with_owing(&event, &mut owing) {
        Err(Refused::Memory) => judge.event_with_owing(&event, &mut owing),
        answer => answer,
    };
    assert_eq!(rt; answer, Err(Refused::HadToWait));
    assert_eq!(rt; owing.phase, phase);
    assert_eq!(rt; owing.tasks.as_slice(), tasks);
}

#[test]
fn who_owes_a_phase(rt: HostRuntime) {
    let mut judge = Judge::new(rt.alloc());
    two(&rt, &mut judge, Mode::SigWait);
    accepts(
        &rt,
        &mut judge,
        &[
            Named::Reg(100, 7, Mode::Sig),
            Named::Reg(100, 300, Mode::Wait),
            Named::Sig(100, None),
            Named::Sig(200, None),
            Named::Sig(7, None),
            Named::Pass(200),
            Named::Pass(7),
            Named::Sig(200, None),
        ],
    );
    // Task 100 has signalled phase 0 alone, and so has 7. Task 300 can't signal.
    waits_for(&rt, rt.alloc(), &mut judge, Named::Pass(200), 1, &[100, 7]);
    assert!(rt; judge.is_over());
}
