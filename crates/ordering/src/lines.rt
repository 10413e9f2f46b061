//! The waves and the traces of a design, found one after another.

ghost use Rattle.std.specs.Prelude.{◌≡◌, ◌≢◌, ℕ, true, Some, length, slice_get, IfOk};
ghost use Rattle.design.specs.Keys.{netlist};
ghost use Rattle.ordering.specs.kept.Lines.{Fit};

use chunked::Shared;
use design::Design;
use fourstate::Value;
use gateline::InputsTable;
use gatestep::Driver;
use std::alloc::{AllocError, Global};
use waveform::{Sample, Timeline, Trace, Wave};

/// What is found so far of a run, gate after gate.
#[derive(Drop)]
pub struct Lines {
    /// Whether the wave of each net is found, in the order of the nets.
    pub found: Vec<bool>,
    /// The waves of the nets; of one that is not found, any wave.
    pub waves: Vec<Shared<Wave>>,
    /// The traces of the gates, in their order; of one that has not come, any trace.
    pub traces: Vec<Shared<Trace>>,
    /// The values of a few inputs, all that there are.
    pub table: InputsTable,
}

/// So many times one line, which stands for none.
fn blank_lines<V: Sample>(
    alloc: Global,
    count: usize,
    value: V,
) -> Result<Vec<Shared<Timeline<V>>>, AllocError>
    requires { V.can_store 0 value }
    ensures { IfOk result (λ lines. length lines.items ≡ count) }
{
    let blank = Shared::new(alloc, Timeline::open(alloc, value)?)?;
    let mut lines = Vec::with_capacity(alloc, count)?;
    for _ in 0..count {
        lines.push(blank.clone()?)?;
    }
    Ok(lines)
}

/// Lines of which none is found.
pub fn open_lines(alloc: Global, design: &Design) -> Result<Lines, AllocError>
    ensures fit { IfOk result (Fit (netlist design.now)) }
    ensures none { IfOk result (λ lines. (m : ℕ) → slice_get lines.found.items m ≢ Some true) }
{
    let found = vec![in alloc; false; design.net_count()]?;
    let waves = blank_lines(alloc, design.net_count(), Value::Unknown)?;
    let traces = blank_lines(alloc, design.gate_count(), Driver::start())?;
    let table = InputsTable::new(alloc)?;
    Ok(Lines {
        found,
        waves,
        traces,
        table,
    })
}
