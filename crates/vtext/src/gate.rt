//! The gates of a module.

ghost use Rattle.std.specs.Prelude.{◌≡◌};

use fourstate::{DelayTimes, GateKind, Value};
use smallvec::SmallVec;
use std::marker::Model;

/// How many inputs of a gate stand in the gate itself; only a gate of more takes memory for them (own).
pub(crate) const INLINE_INPUTS: usize = 4;

/// What a terminal of a gate is connected to.
#[derive(Clone, Copy, Debug, PartialEq, Eq)]
pub enum Terminal {
    /// The net whose name has this number: a scalar, or, in a port connection, a whole vector.
    Net(u32),
    /// The bit of this index of the vector whose name has this number.
    Bit(u32, u16),
    /// A value that never changes.
    Constant(Value),
}

/// What fills the places of a list that hold no terminal.
impl Default for Terminal {
    fn default() -> Terminal {
        Terminal::Constant(Value::Unknown)
    }
}

/// What a gate instance is called.
#[derive(Clone, Copy, Debug, PartialEq, Eq)]
pub enum InstanceName {
    /// The name of this number.
    Written(u32),
    /// It is the unnamed gate instance of this number in its module, from 1, and is called `$` and the number (own).
    Unnamed(u64),
}

/// A gate. An instance of several outputs is a gate for each (own).
#[derive(Debug, Drop)]
pub struct Gate {
    kind: GateKind,
    delays: DelayTimes,
    instance: InstanceName,
    part: Option<usize>,
    output: Terminal,
    inputs: SmallVec<Terminal, INLINE_INPUTS>,
}

impl Model for Gate {
    ghost use Rattle.vtext.specs.Modules.{GateEntry};

    ghost Value = { GateEntry };

    ghost view = { λ a. record { kind = a.kind; delays = a.delays; instance = a.instance; part = a.part; output = a.output; inputs = a.inputs.items } };
}

impl Gate {
    /// A gate of an instance, and of its output of this number, from 1, where the instance has several.
    pub fn new(
        kind: GateKind,
        delays: DelayTimes,
        instance: InstanceName,
        part: Option<usize>,
        output: Terminal,
        inputs: SmallVec<Terminal, INLINE_INPUTS>,
    ) -> Gate
        ensures { result ≡ record { kind = kind; delays = delays; instance = instance; part = part; output = output; inputs = inputs.items } }
    {
        Gate {
            kind,
            delays,
            instance,
            part,
            output,
            inputs,
        }
    }

    /// The gate's kind.
    pub fn kind(&self) -> GateKind
        ensures { result ≡ self.now.kind }
    {
        self.kind
    }

    /// Its delays, in time units, each 1 to 1,000,000.
    pub fn delays(&self) -> DelayTimes
        ensures { result ≡ self.now.delays }
    {
        self.delays
    }

    /// What its instance is called.
    pub fn instance(&self) -> InstanceName
        ensures { result ≡ self.now.instance }
    {
        self.instance
    }

    /// The number of its output in its instance, from 1, where the instance has several.
    pub fn part(&self) -> Option<usize>
        ensures { result ≡ self.now.part }
    {
        self.part
    }

    /// What it drives: a scalar, or a bit of a vector.
    pub fn output(&self) -> Terminal
        ensures { result ≡ self.now.output }
    {
        self.output
    }

    /// What each input is connected to, in order.
    pub fn inputs(&self) -> &[Terminal]
        ensures { result.now ≡ self.now.inputs }
    {
        self.inputs.as_slice()
    }
}
