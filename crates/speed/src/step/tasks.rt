//! The tasks of a step: gates of two inputs, of four kinds.

ghost use Rattle.std.specs.Prelude.{All, IfOk};
ghost use Rattle.gatestep.specs.Tasks.{IsReady};

use anyhow::{Result, bail};
use fourstate::{Delays, GateKind, Inputs, Value, fits};
use gatestep::{Driver, Task};
use std::alloc::Global;

const KINDS: [GateKind; 4] = [GateKind::And, GateKind::Nor, GateKind::Xor, GateKind::Nand];

const VALUES: [Value; 4] = [Value::Zero, Value::One, Value::Unknown, Value::One];

/// A ready task that differs from its neighbours.
fn task(n: usize) -> Result<Task>
    ensures { IfOk result (λ task. IsReady 0 task) }
{
    let Some(delays) = Delays::new(2, 3) else {
        bail!("no delays");
    };
    let kind = KINDS[(n / 3) % 4];
    let inputs = Inputs::of(&[VALUES[n % 4], VALUES[(n / 2) % 4]]);
    if !fits(kind, inputs.len()) {
        bail!("other inputs");
    }
    Ok(Task::new(kind, delays, Driver::start(), inputs))
}

/// So many ready tasks.
pub fn tasks_of(alloc: Global, count: usize) -> Result<Vec<Task>>
    ensures { IfOk result (λ tasks. All (IsReady 0) tasks.items) }
{
    let mut tasks = Vec::new(alloc);
    for n in 0..count {
        let task = task(n)?;
        if tasks.push(task).is_err() {
            bail!("out of memory");
        }
    }
    Ok(tasks)
}
