//! Random tasks.

ghost use Rattle.std.specs.Prelude.{All};
ghost use Rattle.gatestep.specs.Tasks.{IsReady, PendingFrom};

use crate::dice::Dice;
use fourstate::{Delays, GateKind, Inputs, Value, fits};
use gatestep::{Driver, Task};
use std::alloc::Global;
use std::process::Abort;

/// The moment of every step.
pub const MOMENT: u64 = 7;

const KINDS: [GateKind; 6] = [
    GateKind::And,
    GateKind::Nor,
    GateKind::Xor,
    GateKind::Nand,
    GateKind::Bufif1,
    GateKind::Notif0,
];

const VALUES: [Value; 4] = [Value::Zero, Value::One, Value::Unknown, Value::HighZ];

fn value(dice: &mut Dice) -> Value {
    VALUES[dice.below(4) as usize]
}

/// A state in which what is pending comes at the moment or later.
fn state(dice: &mut Dice) -> Driver
    ensures { PendingFrom MOMENT result }
{
    let cur = value(dice);
    let next = value(dice);
    if next == cur {
        return Driver::steady(cur);
    }
    Driver::waiting(cur, next, MOMENT + dice.below(5))
}

fn task(rt: &impl Abort, dice: &mut Dice) -> Task
    ensures { IsReady MOMENT result }
{
    let kind = KINDS[dice.below(6) as usize];
    let (rise, fall, off) = (1 + dice.below(9), 1 + dice.below(9), dice.below(9));
    let delays = match off {
        0 => Delays::new(rise, fall),
        _ => Delays::with_off(rise, fall, off),
    }
    .expect(rt, "lawful delays");
    let inputs = Inputs::of(&[value(dice), value(dice)]);
    assert!(rt; fits(kind, inputs.len()));
    Task::new(kind, delays, state(dice), inputs)
}

/// So many tasks.
pub fn tasks(rt: &impl Abort, alloc: Global, dice: &mut Dice, count: u64) -> Vec<Task>
    ensures { All (IsReady MOMENT) result.items }
{
    let mut tasks = Vec::new(alloc);
    for _ in 0..count {
        if tasks.push(task(rt, dice)).is_err() {
            panic!(rt; "one task more");
        }
    }
    tasks
}
