//! The edits.

ghost use Rattle.std.specs.Prelude.{◌≡◌, IfOk};

use crate::pin::Pins;
use crate::word::Word;
use fourstate::{DelayTimes, GateKind, NetKind, Value};
use std::alloc::AllocError;

/// A change of a design, which names nets and gates by words. Times and delays are in time units. Any edit can be
/// made; what a design refuses is asked when the edit is applied.
#[derive(Clone, Debug, Drop)]
pub enum Edit {
    /// A net without drivers, behind the others.
    AddNet {
        name: Word,
        kind: NetKind,
    },
    /// An input of the design, of the kind `wire`, behind the other nets.
    AddInput {
        name: Word,
    },
    /// The net goes, and its stimulus points with it. No gate may read or drive it.
    DropNet {
        name: Word,
    },
    /// Another kind of a net.
    SetNetKind {
        name: Word,
        kind: NetKind,
    },
    /// A gate, behind the others.
    AddGate {
        name: Word,
        kind: GateKind,
        delays: DelayTimes,
        output: Word,
        inputs: Pins,
    },
    /// The gate goes.
    DropGate {
        name: Word,
    },
    /// Other delays of a gate. Without a turn-off delay one that the gate had goes.
    SetDelay {
        name: Word,
        delays: DelayTimes,
    },
    /// Another kind of a gate, which its inputs and its delays have to fit.
    SetGateKind {
        name: Word,
        kind: GateKind,
    },
    /// Another output and other inputs of a gate.
    Rewire {
        name: Word,
        output: Word,
        inputs: Pins,
    },
    /// A stimulus point of an input, in place of one at the same time: the value that it has from `time` on.
    Stim {
        net: Word,
        time: u64,
        value: Value,
    },
    /// The stimulus point of an input at `time` goes.
    Unstim {
        net: Word,
        time: u64,
    },
    /// Another last moment of a run.
    Horizon {
        time: u64,
    },
}

impl Edit {
    /// The same edit, once more.
    pub fn try_clone(&self) -> Result<Edit, AllocError>
        ensures { IfOk result (λ edit. edit ≡ self.now) }
    {
        self.clone()
    }
}
