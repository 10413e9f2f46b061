//! How the answers of a step are put together.

ghost use Rattle.std.specs.Prelude.{[], ◌≡◌, ◌<◌, ◌≤◌, ◌+◌, length, map, All, OnOk, OnErr, IfOk, Some};
ghost use Rattle.fourstate.specs.declared.limits.TheConstants.{MAX_TIME};
ghost use Rattle.floor.specs.kept.Pieces.{opened, finished};
ghost use Rattle.gatestep.specs.Step.{advance};
ghost use Rattle.gatestep.specs.Tasks.{IsReady, PendingFrom};
ghost use Rattle.parstep.specs.kept.Dealt.{dealing, gathering};
ghost use Rattle.parstep.specs.declared.limits.TheConstants.{MAX_WORKERS};

use crate::deal::{deal, part_of};
use crate::seat::Seat;
use floor::{Floor, first_task};
use gatestep::{Driver, StepFault, Task};
use std::alloc::Global;
use std::sync::Wait;

/// The answers to all tasks of a step, by as many of the workers as there are tasks for. On an error `out` stays empty.
pub fn answers<R: Wait>(
    rt: &R,
    alloc: Global,
    seats: &mut [Seat],
    tasks: &[Task],
    t: u64,
    out: &mut Vec<Driver>,
) -> Result<(), StepFault>
    requires some { 0 < length seats.old }
    requires few { length seats.old ≤ MAX_WORKERS }
    requires empty { out.old.items ≡ [] }
    requires ready { All (IsReady t) tasks.now }
    requires within { 0 < length tasks.now → t ≤ MAX_TIME }
    ensures answers { OnOk result (out.new.items ≡ map (λ task. advance task t) tasks.now) }
    ensures later { OnOk result (All (PendingFrom (t + 1)) out.new.items) }
    ensures none { OnErr result (out.new.items ≡ []) }
    ensures seats { length seats.new ≡ length seats.old }
{
    if tasks.is_empty() {
        return Ok(());
    }
    let all = dealt_and_gathered(rt, alloc, seats, tasks, t)?;
    *out = all;
    Ok(())
}

fn dealt_and_gathered<R: Wait>(
    rt: &R,
    alloc: Global,
    seats: &mut [Seat],
    tasks: &[Task],
    t: u64,
) -> Result<Vec<Driver>, StepFault>
    requires some { 0 < length seats.old }
    requires few { length seats.old ≤ MAX_WORKERS }
    requires any { 0 < length tasks.now }
    requires ready { All (IsReady t) tasks.now }
    requires within { t ≤ MAX_TIME }
    ensures answers { IfOk result (λ v. v.items ≡ map (λ task. advance task t) tasks.now) }
    ensures later { IfOk result (λ v. All (PendingFrom (t + 1)) v.items) }
    ensures seats { length seats.new ≡ length seats.old }
{
    let pieces = seats.len().min(tasks.len()) as u32;
    let Ok(mut floor) = Floor::open(alloc, tasks.len(), pieces) else {
        return Err(StepFault::OutOfMemory);
    };
    deal(rt, alloc, seats, &mut floor, tasks, t, pieces)?;
    gather(rt, seats, &mut floor, tasks, t, pieces)?;
    let Some(all) = floor.finish() else {
        unreachable!();
    };
    Ok(all)
}

/// Takes the answers of each piece, which are out with the first workers.
fn gather<R: Wait>(
    rt: &R,
    seats: &mut [Seat],
    floor: &mut Floor,
    tasks: &[Task],
    t: u64,
    pieces: u32,
) -> Result<(), StepFault>
    requires seated { pieces ≤ length seats.old }
    requires some { 0 < pieces }
    requires dealt { floor.old ≡ dealing (length tasks.now) pieces 0 }
    ensures gathered { OnOk result (finished floor.new ≡ Some (map (λ task. advance task t) tasks.now)) }
    ensures later { OnOk result (All (PendingFrom (t + 1)) (map (λ task. advance task t) tasks.now)) }
    ensures seats { length seats.new ≡ length seats.old }
{
    for number in 0..pieces {
        let first = first_task(tasks.len(), pieces, number);
        let end = first_task(tasks.len(), pieces, number + 1);
        let own = part_of(tasks, first, end);
        let seat = &mut seats[number as usize];
        let answered = seat.receive(rt, number, own, t)?;
        if floor.answer(number, answered.drivers.as_slice()).is_err() {
            unreachable!();
        }
        seat.keep(answered);
    }
    Ok(())
}
