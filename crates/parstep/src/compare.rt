//! Whether tasks are the same.

ghost use Rattle.std.specs.Prelude.{◌≡◌, IsTrue};

use gatestep::{Driver, Task};

/// Whether two lists have the same tasks in the same order.
pub fn same_tasks(left: &[Task], right: &[Task]) -> bool
    ensures { IsTrue result → left.now ≡ right.now }
{
    if left.len() != right.len() {
        return false;
    }
    for place in 0..left.len() {
        if !same_task(&left[place], &right[place]) {
            return false;
        }
    }
    true
}

fn same_task(left: &Task, right: &Task) -> bool
    ensures { IsTrue result → left.now ≡ right.now }
{
    if left.kind() != right.kind() || !left.delays().is_same(right.delays()) {
        return false;
    }
    if !same_driver(left.state(), right.state()) {
        return false;
    }
    left.inputs().is_same(right.inputs())
}

fn same_driver(left: Driver, right: Driver) -> bool
    ensures { IsTrue result → left ≡ right }
{
    if left.current() != right.current() {
        return false;
    }
    match (left.pending(), right.pending()) {
        (None, None) => true,
        (Some((value, t)), Some((other, u))) => value == other && t == u,
        _ => false,
    }
}
