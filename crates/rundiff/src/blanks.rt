//! The lines of a net and of a gate that the old design has not.

ghost use Rattle.std.specs.Prelude.{◌≡◌, [], ◌∷◌};
ghost use Rattle.fourstate.specs.declared.value.Value.TheVariants.{Unknown};
ghost use Rattle.gatestep.specs.Step.{initial};

use fourstate::Value;
use gatestep::Driver;
use std::alloc::{AllocError, Global};
use waveform::{Timeline, Trace, Wave};

/// A wave that is x, and a trace that is x with nothing pending.
#[derive(Drop)]
pub struct Blanks {
    /// The wave of a net that the old design has not.
    pub wave: Wave,
    /// The trace of a gate that the old design has not.
    pub trace: Trace,
    ghost wave_is_x: { wave ≡ (0, Unknown) ∷ [] },
    ghost trace_is_x: { trace ≡ (0, initial) ∷ [] },
}

impl Blanks {
    /// Both lines. It fails where memory runs out.
    pub fn new(alloc: Global) -> Result<Blanks, AllocError> {
        let wave = Timeline::open(alloc, Value::Unknown)?;
        let trace = Timeline::open(alloc, Driver::start())?;
        Ok(Blanks { wave, trace })
    }
}
