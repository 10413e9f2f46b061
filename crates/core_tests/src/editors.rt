//! Events of editors and viewers: by hand, and random ones beside what their history says.

use crate::compare::equal;
use crate::dice::Dice;
use bench::CommitFault;
use edits::Edit;
use hubcore::{Core, CoreFault, Event, Reply};
use std::alloc::Global;
use std::process::Abort;

/// A call of an editor or of a viewer.
#[derive(Clone, Copy)]
enum Call {
    /// A commit that makes this version, or one that is refused.
    Accept(u64),
    Refuse,
    Show,
    Look(u32),
    Learn(u32, u64),
    Release(u32, u64),
}

fn edits(rt: &impl Abort, alloc: Global, time: u64) -> Vec<Edit> {
    let mut edits = Vec::new(alloc);
    edits.push(Edit::Horizon { time }).expect(rt, "room");
    edits
}

fn event(rt: &impl Abort, alloc: Global, call: Call) -> Event {
    match call {
        Call::Accept(version) => Event::Submit(edits(rt, alloc, version), Ok(version)),
        Call::Refuse => Event::Submit(edits(rt, alloc, 7), Err(CommitFault::WorkerLost)),
        Call::Show => Event::Show,
        Call::Look(number) => Event::Look(number),
        Call::Learn(number, length) => Event::Learn(number, length),
        Call::Release(number, length) => Event::Release(number, length),
    }
}

/// A call, and its reply.
type Case = (Call, Result<Reply, CoreFault>);

fn check(rt: &impl Abort, alloc: Global, core: &mut Core, case: Case) {
    let (call, wanted) = case;
    equal(rt, "reply", core.step(event(rt, alloc, call)), wanted);
}

fn check_all(rt: &impl Abort, alloc: Global, viewers: u32, cases: &[Case]) {
    let mut core = Core::open(alloc, viewers).expect(rt, "room");
    for case in cases {
        check(rt, alloc, &mut core, *case);
    }
    drop(core);
}

#[test]
fn numbers_of_faults(rt: HostRuntime) {
    equal(&rt, "UnknownViewer", CoreFault::UnknownViewer as u8, 1);
    equal(&rt, "NotHeld", CoreFault::NotHeld as u8, 2);
    equal(&rt, "AheadOfLog", CoreFault::AheadOfLog as u8, 3);
    equal(&rt, "OutOfMemory", CoreFault::OutOfMemory as u8, 4);
}

const BEFORE: [Case; 6] = [
    (Call::Look(1), Err(CoreFault::UnknownViewer)),
    (Call::Release(0, 0), Err(CoreFault::NotHeld)),
    (Call::Learn(0, 1), Err(CoreFault::AheadOfLog)),
    (Call::Look(0), Ok(Reply::At(0))),
    (Call::Release(0, 0), Ok(Reply::Done)),
    (Call::Release(0, 0), Err(CoreFault::NotHeld)),
];

#[test]
fn before_any_commit(rt: HostRuntime) {
    check_all(&rt, rt.alloc(), 1, &BEFORE);
}

const TWO_COMMITS: [Case; 16] = [
    (Call::Accept(1), Ok(Reply::Done)),
    (Call::Look(0), Ok(Reply::At(0))),
    (Call::Show, Ok(Reply::Done)),
    (Call::Learn(1, 1), Ok(Reply::Done)),
    (Call::Look(1), Ok(Reply::At(1))),
    (Call::Refuse, Ok(Reply::Done)),
    (Call::Accept(2), Ok(Reply::Done)),
    (Call::Learn(1, 2), Err(CoreFault::AheadOfLog)),
    (Call::Show, Ok(Reply::Done)),
    (Call::Look(0), Ok(Reply::At(2))),
    (Call::Look(0), Ok(Reply::At(2))),
    (Call::Release(0, 2), Ok(Reply::Done)),
    (Call::Release(0, 1), Err(CoreFault::NotHeld)),
    (Call::Release(0, 0), Ok(Reply::Done)),
    (Call::Release(0, 2), Ok(Reply::Done)),
    (Call::Release(0, 2), Err(CoreFault::NotHeld)),
];

// A commit is seen once it is shown, a refused one never, and a held snapshot is let go of as often as it was taken.
#[test]
fn two_commits(rt: HostRuntime) {
    check_all(&rt, rt.alloc(), 2, &TWO_COMMITS);
}

// As many commits as a hub is raced with.
#[test]
fn ten_thousand_commits(rt: HostRuntime) {
    let mut core = Core::open(rt.alloc(), 1).expect(&rt, "room");
    for version in 1..=10_000 {
        let case = (Call::Accept(version), Ok(Reply::Done));
        check(&rt, rt.alloc(), &mut core, case);
    }
    for case in [
        (Call::Show, Ok(Reply::Done)),
        (Call::Look(0), Ok(Reply::At(10_000))),
    ] {
        check(&rt, rt.alloc(), &mut core, case);
    }
    drop(core);
}

/// What happened.
#[derive(Clone, Copy, PartialEq, Eq)]
enum Past {
    Accepted,
    Shown,
    Taken(u32, u64),
    LetGo(u32, u64),
}

const VIEWERS: u32 = 3;

// How many commits were accepted before the last time that all were shown.
fn shown(history: &[Past]) -> u64 {
    let mut accepted = 0u64;
    let mut shown = 0;
    for past in history {
        match past {
            Past::Accepted => accepted = accepted.wrapping_add(1),
            Past::Shown => shown = accepted,
            _ => {}
        }
    }
    shown
}

fn count_of(history: &[Past], wanted: Past) -> u64 {
    let mut count = 0u64;
    for past in history {
        if *past == wanted {
            count = count.wrapping_add(1);
        }
    }
    count
}

// The reply that the history demands.
fn reply_of(history: &[Past], call: Call) -> Result<Reply, CoreFault> {
    match call {
        Call::Accept(_) | Call::Refuse | Call::Show => Ok(Reply::Done),
        Call::Look(number) | Call::Learn(number, _) | Call::Release(number, _)
            if number >= VIEWERS => { Err(CoreFault::UnknownViewer) }
        Call::Look(_) => Ok(Reply::At(shown(history))),
        Call::Learn(_, length) if length > shown(history) => Err(CoreFault::AheadOfLog),
        Call::Learn(_, _) => Ok(Reply::Done),
        Call::Release(number, length) => {
            let taken = count_of(history, Past::Taken(number, length));
            if taken > count_of(history, Past::LetGo(number, length)) {
                Ok(Reply::Done)
            } else {
                Err(CoreFault::NotHeld)
            }
        }
    }
}

// What a call that is not refused adds to the history.
fn past_of(history: &[Past], call: Call) -> Option<Past> {
    match call {
        Call::Accept(_) => Some(Past::Accepted),
        Call::Show => Some(Past::Shown),
        Call::Look(number) => Some(Past::Taken(number, shown(history))),
        Call::Refuse | Call::Learn(_, _) => None,
        Call::Release(number, length) => Some(Past::LetGo(number, length)),
    }
}

fn random_call(dice: &mut Dice, shown: u64) -> Call {
    let number = dice.below(u64::from(VIEWERS) + 1) as u32;
    let length = shown.wrapping_add(1).saturating_sub(dice.below(4));
    match dice.below(10) {
        0 | 1 => Call::Accept(dice.below(9)),
        2 => Call::Refuse,
        3 => Call::Show,
        4 | 5 => Call::Look(number),
        6 => Call::Learn(number, length),
        _ => Call::Release(number, length),
    }
}

/// A random call, whose reply is the one that the history demands.
fn turn(rt: &impl Abort, alloc: Global, dice: &mut Dice, core: &mut Core, history: &mut Vec<Past>) {
    let call = random_call(dice, shown(history.as_slice()));
    let wanted = reply_of(history.as_slice(), call);
    check(rt, alloc, core, (call, wanted));
    if wanted.is_ok() {
        if let Some(past) = past_of(history.as_slice(), call) {
            history.push(past).expect(rt, "room");
        }
    }
}

#[test]
fn random_events(rt: HostRuntime) {
    let alloc = rt.alloc();
    let mut dice = Dice(20);
    let mut core = Core::open(alloc, VIEWERS).expect(&rt, "room");
    let mut history = Vec::new(alloc);
    for _round in 0..2000 {
        turn(&rt, alloc, &mut dice, &mut core, &mut history);
    }
    assert!(&rt; shown(history.as_slice()) > 50);
    assert!(&rt; count_of(history.as_slice(), Past::Shown) > 50);
    drop(history);
    drop(core);
}
