//! How the tasks of a step are dealt.

ghost use Rattle.std.specs.Prelude.{◌≡◌, ◌<◌, ◌≤◌, ◌+◌, length, map, take, All, IfOk, IfErr, OnOk, slice_range};
ghost use Rattle.fourstate.specs.declared.limits.TheConstants.{MAX_TIME};
ghost use Rattle.floor.specs.kept.Pieces.{opened, first_task};
ghost use Rattle.gatestep.specs.Step.{advance};
ghost use Rattle.gatestep.specs.Tasks.{IsReady, PendingFrom};
ghost use Rattle.parstep.specs.kept.Dealt.{dealing, gathering};

use crate::seat::Seat;
use floor::Floor;
use gatestep::{StepFault, Task};
use std::alloc::Global;
use std::sync::Wait;

/// Deals the tasks of a step, a piece to each of the first workers.
pub fn deal<R: Wait>(
    rt: &R,
    alloc: Global,
    seats: &mut [Seat],
    floor: &mut Floor,
    tasks: &[Task],
    t: u64,
    pieces: u32,
) -> Result<(), StepFault>
    requires ready { All (IsReady t) tasks.now }
    requires within { t ≤ MAX_TIME }
    requires seated { pieces ≤ length seats.old }
    requires filled { pieces ≤ length tasks.now }
    requires opened { floor.old ≡ opened (length tasks.now) pieces }
    ensures dealt { OnOk result (floor.new ≡ dealing (length tasks.now) pieces 0) }
    ensures seats { length seats.new ≡ length seats.old }
{
    for number in 0..pieces {
        let Some(piece) = floor.deal() else {
            unreachable!();
        };
        let own = part_of(tasks, piece.first, piece.end);
        seats[number as usize].send(rt, alloc, number, own, t)?;
    }
    Ok(())
}

/// The tasks from one place up to another.
pub fn part_of(tasks: &[Task], first: usize, end: usize) -> &[Task]
    requires ordered { first ≤ end }
    requires within { end ≤ length tasks.now }
    ensures { result.now ≡ slice_range tasks.now first end }
{
    &tasks[first..end]
}
