//! Tasks of a step.

ghost use Rattle.std.specs.Prelude.{All, IfOk, IfSome};
ghost use Rattle.gatestep.specs.Tasks.{IsReady};

use crate::report::{Report, Stop, room};
use fourstate::{Delays, GateKind, Inputs, Value, fits};
use gatestep::{Driver, Task};
use std::alloc::Global;

const VALUES: [Value; 4] = [Value::Zero, Value::One, Value::Unknown, Value::HighZ];

/// A task of a gate of this kind, which differs from its neighbours.
fn task(kind: GateKind, n: usize) -> Option<Task>
    ensures { IfSome result (IsReady 0) }
{
    let delays = Delays::new(2, 3)?;
    let inputs = Inputs::of(&[VALUES[n % 4], VALUES[(n / 4) % 4]]);
    if !fits(kind, inputs.len()) {
        return None;
    }
    Some(Task::new(kind, delays, Driver::start(), inputs))
}

/// So many ready tasks of gates of this kind, which has two inputs.
pub fn tasks_of(
    alloc: Global,
    report: &Report<impl Eprint>,
    kind: GateKind,
    count: usize,
) -> Result<Vec<Task>, Stop>
    ensures { IfOk result (λ tasks. All (IsReady 0) tasks.items) }
{
    let mut tasks = room(alloc, report, count)?;
    'tasks: for n in 0..count {
        let Some(task) = task(kind, n) else {
            return Err(Stop::Wrong("a task"));
        };
        if tasks.push(task).is_err() {
            return Err(Stop::Wrong("room"));
        }
    }
    Ok(tasks)
}
