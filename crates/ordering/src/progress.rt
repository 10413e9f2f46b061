//! What one has found who follows gates ahead of a run.

ghost use Rattle.std.specs.Prelude.{◌≡◌, IfOk};
ghost use Rattle.design.specs.Keys.{netlist};
ghost use Rattle.gatestep.specs.Step.{advance};
ghost use Rattle.ordering.specs.kept.Helpers.{IsSound};
ghost use Rattle.ordering.specs.kept.Order.{is_marked};

use crate::lines::{Lines, open_lines};
use design::Design;
use std::alloc::{AllocError, Global};

/// What one has found who follows gates ahead of a run.
#[derive(Drop)]
pub struct Progress {
    /// The waves and the traces.
    pub lines: Lines,
    /// Which gates have come: their traces are found, by the places of the gates.
    pub come: Vec<bool>,
}

impl Progress {
    /// Whether the gate at a place has come.
    pub fn has_come(&self, place: u32) -> bool
        ensures { result ≡ is_marked self.now.come.items place }
    {
        match self.come.get(place as usize) {
            Some(come) => *come,
            None => false,
        }
    }
}

/// Nothing found. It fails where memory runs out.
pub fn open_progress(alloc: Global, design: &Design) -> Result<Progress, AllocError>
    ensures { IfOk result (IsSound advance (netlist design.now)) }
{
    let lines = open_lines(alloc, design)?;
    let come = vec![in alloc; false; design.gate_count()]?;
    Ok(Progress { lines, come })
}
