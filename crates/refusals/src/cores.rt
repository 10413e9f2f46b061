//! Events of two viewers and one editor.

use crate::report::{Report, Stop, TRIES};
use crate::show::show_number;
use devices::{Sink, Writer};
use hubcore::{Core, CoreFault, Event, Reply};
use std::alloc::Global;

/// What happens.
#[derive(Clone, Copy)]
enum Call {
    Submit,
    Show,
    Look(u32),
    Learn(u32, u64),
    Release(u32, u64),
}

const CALLS: [Call; 9] = [
    Call::Look(0),
    Call::Submit,
    Call::Look(0),
    Call::Show,
    Call::Learn(1, 1),
    Call::Look(1),
    Call::Look(0),
    Call::Release(0, 0),
    Call::Release(0, 0),
];

// The commit of a submit has no edits.
fn event(alloc: Global, call: Call) -> Event {
    match call {
        Call::Submit => Event::Submit(Vec::new(alloc), Ok(1)),
        Call::Show => Event::Show,
        Call::Look(viewer) => Event::Look(viewer),
        Call::Learn(viewer, length) => Event::Learn(viewer, length),
        Call::Release(viewer, length) => Event::Release(viewer, length),
    }
}

fn core_of(alloc: Global, report: &Report<impl Eprint>) -> Result<Core, Stop> {
    for _ in 0..TRIES {
        match Core::open(alloc, 2) {
            Ok(core) => return Ok(core),
            Err(CoreFault::OutOfMemory) => report.refused("Core::open"),
            Err(_) => return Err(Stop::Wrong("Core::open")),
        }
    }
    Err(Stop::Refused)
}

/// The reply to a call. A refused one is made again with an event that is made anew.
fn reply_to(
    alloc: Global,
    report: &Report<impl Eprint>,
    core: &mut Core,
    call: Call,
) -> Result<Reply, Stop> {
    for _ in 0..TRIES {
        match core.step(event(alloc, call)) {
            Ok(reply) => return Ok(reply),
            Err(CoreFault::OutOfMemory) => report.refused("Core::step"),
            Err(_) => return Err(Stop::Wrong("Core::step")),
        }
    }
    Err(Stop::Refused)
}

/// The lengths that the looks give.
pub fn all<R: Eprint, W: Sink>(
    alloc: Global,
    report: &Report<R>,
    out: &mut Writer<'_, W>,
) -> Result<(), Stop> {
    let mut core = core_of(alloc, report)?;
    for call in CALLS {
        match reply_to(alloc, report, &mut core, call)? {
            Reply::Done => {}
            Reply::At(length) => show_number(out, b"look ", length),
        }
    }
    Ok(())
}
