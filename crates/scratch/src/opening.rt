//! Moment 0, at which every gate is stirred.

ghost use Rattle.std.specs.Prelude.{◌≡◌, map, true, IfOk};
ghost use Rattle.design.specs.Keys.{netlist};
ghost use Rattle.scratch.specs.kept.Kept.{IsWiring};
ghost use Rattle.scratch.specs.kept.Places.{passing};
ghost use Rattle.scratch.specs.Run.{state_before};
ghost use Rattle.scratch.specs.kept.Stands.{IsOpening, Stands};
ghost use Rattle.scratch.specs.Work.{stirred_at};

use crate::asking::Asking;
use crate::engine::Engine;
use crate::moment::Moment;
use crate::noting::{list_events, list_points};
use crate::recording::Recording;
use crate::tallies::Tallies;
use crate::wiring::Wiring;
use design::Design;
use fourstate::Value;
use gatestep::{Driver, Stepper};
use std::alloc::{AllocError, Global};

/// What stands at moment 0 before its gates are evaluated.
#[derive(Drop)]
pub struct Opening {
    /// The state of each gate's driver before it, in the order of the gates.
    pub states: Vec<Driver>,
    /// The value of each net, in the order of the nets.
    pub values: Vec<Value>,
    /// All gates, in order.
    pub gates: Vec<usize>,
    /// The answers for the gates.
    pub asking: Asking,
    /// The tallies of the nets with many drivers.
    pub(crate) tallies: Tallies,
}

impl Opening {
    /// What stands before any gate is evaluated.
    pub fn before<S: Stepper>(
        alloc: Global,
        design: &Design,
        wiring: &Wiring,
    ) -> Result<Opening, AllocError>
        requires wired { IsWiring (netlist design.now) wiring.now }
        ensures { IfOk result (IsOpening S.answer (netlist design.now)) }
    {
        let mut moment = Moment::before(alloc, design)?;
        moment.resolve::<S>(design, wiring, 0)?;
        let (states, values) = moment.parts();
        let gates = all_gates(alloc, design)?;
        let tallies = Tallies::count(alloc, design, wiring, states.as_slice())?;
        Ok(Opening {
            states,
            values,
            gates,
            asking: Asking::new(alloc),
            tallies,
        })
    }

    /// What stands after moment 0, by the answers of the gates.
    pub fn settle<S: Stepper>(self, alloc: Global, design: &Design) -> Result<Engine, AllocError>
        requires opening { IsOpening S.answer (netlist design.now) self }
        requires answers { self.asking.answers.items ≡ map (state_before S.answer (netlist design.now) 1) (stirred_at S.answer (netlist design.now) 0) }
        ensures { IfOk result (λ engine. Stands S.answer (netlist design.now) engine 1) }
    {
        design.lawful();
        let values = self.values;
        let asking = self.asking;
        let states = asking.answers;
        let recording = Recording::open(alloc, values.as_slice(), states.as_slice())?;
        let events = list_events(alloc, states.as_slice())?;
        let points = list_points(alloc, design, 0)?;
        Ok(Engine::new(
            alloc,
            states,
            values,
            recording,
            events,
            points,
            self.tallies,
        ))
    }
}

/// The places of all gates.
fn all_gates(alloc: Global, design: &Design) -> Result<Vec<usize>, AllocError>
    ensures { IfOk result (λ places. places.items ≡ passing (λ _. true) 0 (netlist design.now).gates) }
{
    let count = design.gate_count();
    let mut places = Vec::with_capacity(alloc, count)?;
    for place in 0..count {
        places.push(place)?;
    }
    Ok(places)
}
