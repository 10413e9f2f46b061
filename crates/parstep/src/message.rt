//! What goes between a pool and its workers.

ghost use Rattle.std.specs.Prelude.{◌≡◌, ◌<◌, ◌≤◌, ◌+◌, [], length, map, All, vec_len, IfOk};
ghost use Rattle.std.specs.Vec.{vec_capacity};
ghost use Rattle.fourstate.specs.declared.limits.TheConstants.{MAX_TIME};
ghost use Rattle.gatestep.specs.Step.{advance};
ghost use Rattle.gatestep.specs.Tasks.{IsReady, PendingFrom};

use gatestep::{Driver, Task, next};
use std::alloc::AllocError;

/// A piece on its way to a worker, with room for its answers. The type keeps that it is not empty.
#[derive(Drop)]
pub struct Errand {
    /// The place of the piece among all pieces of the step.
    pub number: u32,
    /// The moment of the step, in time units.
    pub t: u64,
    /// The tasks of the piece.
    pub tasks: Vec<Task>,
    /// An empty list that has room for the answers.
    pub room: Vec<Driver>,
    ghost some: { 0 < vec_len tasks },
    ghost within: { t ≤ MAX_TIME },
    ghost ready: { All (IsReady t) tasks.items },
    ghost empty: { room.items ≡ [] },
    ghost fits: { vec_len tasks ≤ vec_capacity room },
}

/// A piece on its way back. The type keeps that its drivers are the answers to its tasks at its moment.
#[derive(Drop)]
pub struct Answered {
    /// The place of the piece among all pieces of the step.
    pub number: u32,
    /// The moment that was asked for, in time units.
    pub t: u64,
    /// The tasks that were asked.
    pub tasks: Vec<Task>,
    /// Their answers, in their order.
    pub drivers: Vec<Driver>,
    pub ghost right: { drivers.items ≡ map (λ task. advance task t) tasks.items },
    pub ghost later: { All (PendingFrom (t + 1)) drivers.items },
}

/// Copies tasks of a step into a piece, into lists that were used before. It fails where memory runs out, and the lists
/// are lost.
pub fn errand_of(
    number: u32,
    t: u64,
    tasks: &[Task],
    mut copies: Vec<Task>,
    mut room: Vec<Driver>,
) -> Result<Errand, AllocError>
    requires some { 0 < length tasks.now }
    requires ready { All (IsReady t) tasks.now }
    requires within { t ≤ MAX_TIME }
    ensures number { IfOk result (λ errand. errand.number ≡ number) }
    ensures t { IfOk result (λ errand. errand.t ≡ t) }
    ensures tasks { IfOk result (λ errand. errand.tasks.items ≡ tasks.now) }
{
    copies.clear();
    copies.extend_from_slice(tasks)?;
    room.clear();
    room.reserve(tasks.len())?;
    Ok(Errand {
        number,
        t,
        tasks: copies,
        room,
    })
}

/// The answers to a piece. It takes no memory.
pub fn answer(errand: Errand) -> Answered
    ensures number { result.number ≡ errand.number }
    ensures t { result.t ≡ errand.t }
    ensures tasks { result.tasks ≡ errand.tasks }
{
    let Errand {
        number,
        t,
        tasks,
        room,
    } = errand;
    let drivers = fill(tasks.as_slice(), t, room);
    Answered {
        number,
        t,
        tasks,
        drivers,
    }
}

/// Fills an empty list with the answers. As it has room for them, no push fails.
fn fill(tasks: &[Task], t: u64, room: Vec<Driver>) -> Vec<Driver>
    requires within { t ≤ MAX_TIME }
    requires ready { All (IsReady t) tasks.now }
    requires empty { room.items ≡ [] }
    requires fits { length tasks.now ≤ vec_capacity room }
    ensures answers { result.items ≡ map (λ task. advance task t) tasks.now }
    ensures later { All (PendingFrom (t + 1)) result.items }
{
    let mut drivers = room;
    for task in tasks {
        if drivers.push(next(task, t)).is_err() {
            unreachable!();
        }
    }
    drivers
}
