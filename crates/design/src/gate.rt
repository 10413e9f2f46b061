//! Gates with their names, delays and connections.

ghost use Rattle.std.specs.Prelude.{◌≡◌, IfOk, IsTrue, length};
ghost use Rattle.fourstate.specs.Gates.{takes_inputs};
ghost use Rattle.design.specs.kept.Keys.{IsKeyedGate};
ghost use Rattle.design.specs.kept.Records.{gate_with_delays, gate_with_kind, gate_with_wiring};

use crate::key::NetKey;
use crate::name::Name;
use crate::terminal::Terminal;
use catalog::Named;
use fourstate::laws::delays_in_range;
use fourstate::{Delays, GateKind};
use smallvec::SmallVec;
use std::alloc::AllocError;
use std::marker::Model;

/// How many inputs of a gate stand in the gate itself; only a gate of more takes memory for them (own).
pub(crate) const INLINE_INPUTS: usize = 4;

/// What the inputs of a gate are connected to, in order.
pub type Inputs = SmallVec<Terminal, INLINE_INPUTS>;

/// A gate instance: it drives the net of one key, and reads nets by key, or constants (IEEE 1364-2005, 7.1). The type
/// keeps that the number of inputs fits the kind.
#[derive(Debug, Drop)]
pub struct Gate {
    name: Name,
    kind: GateKind,
    delays: Delays,
    output: NetKey,
    inputs: Inputs,
}

impl Model for Gate {
    ghost use Rattle.design.specs.Keys.{KeyedGate};
    ghost use Rattle.design.specs.kept.Keys.{IsKeyedGate};

    ghost Value = { KeyedGate };

    ghost view = { λ a. record { name = a.name; kind = a.kind; delays = a.delays; output = a.output; inputs = a.inputs.items } };

    ghost invariant = { λ a. IsKeyedGate (record { name = a.name; kind = a.kind; delays = a.delays; output = a.output; inputs = a.inputs.items }) };
}

impl Gate {
    /// A gate of this many inputs, in the order of its terminals after the output.
    pub fn new(name: Name, kind: GateKind, delays: Delays, output: NetKey, inputs: Inputs) -> Gate
        requires { IsTrue (takes_inputs kind (length inputs.items)) }
        ensures { result ≡ record { name = name; kind = kind; delays = delays; output = output; inputs = inputs.items } }
    {
        name.lawful();
        delays_in_range(&delays);
        Gate {
            name,
            kind,
            delays,
            output,
            inputs,
        }
    }

    /// The gate's name.
    pub fn name(&self) -> &Name
        ensures { result.now ≡ self.now.name }
    {
        &self.name
    }

    /// The gate's kind.
    pub fn kind(&self) -> GateKind
        ensures { result ≡ self.now.kind }
    {
        self.kind
    }

    /// The gate's delays.
    pub fn delays(&self) -> Delays
        ensures { result ≡ self.now.delays }
    {
        self.delays
    }

    /// The key of the net that the gate drives.
    pub fn output(&self) -> NetKey
        ensures { result ≡ self.now.output }
    {
        self.output
    }

    /// What each input is connected to, in order; their number fits the kind.
    pub fn inputs(&self) -> &[Terminal]
        ensures inputs { result.now ≡ self.now.inputs }
        ensures fit { IsTrue (takes_inputs self.now.kind (length result.now)) }
    {
        self.inputs.as_slice()
    }

    /// The gate with other delays.
    pub(crate) fn with_delays(self, delays: Delays) -> Gate
        ensures { result ≡ gate_with_delays self delays }
    {
        delays_in_range(&delays);
        Gate { delays, ..self }
    }

    /// The gate with another kind.
    pub(crate) fn with_kind(self, kind: GateKind) -> Gate
        requires { IsTrue (takes_inputs kind (length self.inputs)) }
        ensures { result ≡ gate_with_kind self kind }
    {
        Gate { kind, ..self }
    }

    /// The gate at other nets.
    pub(crate) fn with_wiring(&self, output: NetKey, inputs: Inputs) -> Result<Gate, AllocError>
        requires { IsTrue (takes_inputs self.now.kind (length inputs.items)) }
        ensures { IfOk result (λ gate. gate ≡ gate_with_wiring self.now output inputs.items) }
    {
        let name = self.name.clone()?;
        Ok(Gate {
            name,
            kind: self.kind,
            delays: self.delays,
            output,
            inputs,
        })
    }

    /// The law of every gate; nothing runs.
    pub fn lawful(&self)
        ensures { IsKeyedGate self.now }
    {
        let _inputs = &self.inputs;
    }
}

impl Clone for Gate {
    ghost use Rattle.std.specs.Prelude.{◌≡◌};

    ghost is_clone = { λ old new. new ≡ old };

    fn clone(&self) -> Result<Gate, AllocError> {
        let name = self.name.clone()?;
        let inputs = SmallVec::from_slice(*self.inputs.allocator(), self.inputs())?;
        Ok(Gate {
            name,
            kind: self.kind,
            delays: self.delays,
            output: self.output,
            inputs,
        })
    }
}

impl Named for Gate {
    ghost name = { λ g. g.name };

    fn name(&self) -> &str {
        self.name.as_str()
    }
}
