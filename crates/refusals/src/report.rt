//! What is said of calls that are refused, and room that a call can't be refused for.

ghost use Rattle.std.specs.Prelude.{◌≡◌, [], IfOk};

use std::alloc::Global;

/// How often a call is made before it is given up.
pub const TRIES: u32 = 40;

/// Why the program comes to no end.
#[derive(Clone, Copy)]
pub enum Stop {
    /// A call was refused for memory each time.
    Refused,
    /// This call answered what it may not answer, or changed something though it was refused.
    Wrong(&'static str),
}

/// Says which calls were refused, where it is to.
#[derive(Drop)]
pub struct Report<R> {
    rt: R,
    is_on: bool,
}

impl<R: Eprint> Report<R> {
    pub fn new(rt: R, is_on: bool) -> Report<R> {
        Report { rt, is_on }
    }

    /// The call was refused for memory, and is made again.
    pub fn refused(&self, call: &'static str) {
        if self.is_on {
            let _said = eprintln!(self.rt; "{call}");
        }
    }

    /// The call did what it may not do.
    pub fn wrong(&self, call: &'static str) {
        let _said = eprintln!(self.rt; "wrong: {call}");
    }
}

/// An empty list with room for so many things, of which none is refused for memory.
pub fn room<T: Drop>(
    alloc: Global,
    report: &Report<impl Eprint>,
    count: usize,
) -> Result<Vec<T>, Stop>
    ensures { IfOk result (λ room. room.items ≡ []) }
{
    for _ in 0..TRIES {
        match Vec::with_capacity(alloc, count) {
            Ok(room) => return Ok(room),
            Err(_) => report.refused("room"),
        }
    }
    Err(Stop::Refused)
}
