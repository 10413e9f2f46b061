//! What an edit changes, by key.

use crate::pin::Pin;
use design::{GateKey, NetKey};
use fourstate::{Delays, GateKind, NetKind, Value};

/// What an edit changes of a design that accepts it. What is there already has its key, delays are within their range,
/// and what is new is borrowed from the edit.
#[derive(Drop)]
pub(crate) enum Change<'e> {
    AddNet {
        name: &'e str,
        kind: NetKind,
    },
    AddInput {
        name: &'e str,
    },
    DropNet(NetKey),
    SetNetKind(NetKey, NetKind),
    AddGate {
        name: &'e str,
        kind: GateKind,
        delays: Delays,
        output: NetKey,
        inputs: &'e [Pin],
    },
    DropGate(GateKey),
    SetDelays(GateKey, Delays),
    SetGateKind(GateKey, GateKind),
    Rewire {
        gate: GateKey,
        output: NetKey,
        inputs: &'e [Pin],
    },
    SetPoint {
        net: NetKey,
        time: u64,
        value: Value,
    },
    RemovePoint {
        net: NetKey,
        time: u64,
    },
    Horizon(u64),
}
