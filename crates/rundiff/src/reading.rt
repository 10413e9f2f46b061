//! What nets have, and in which state gates are, at one moment of the new run.

ghost use Rattle.std.specs.Prelude.{◌≡◌, ◌<◌, ◌≤◌, ℕ, suc, map, length, IfOk};
ghost use Rattle.gatestep.specs.Step.{Evaluation, State};
ghost use Rattle.gatestep.specs.Tasks.{PendingFrom};
ghost use Rattle.design.specs.Connections.{to_net};
ghost use Rattle.design.specs.Keys.{connection_in, netlist};
ghost use Rattle.design.specs.kept.Keys.{IsConnected, IsThere};
ghost use Rattle.scratch.specs.Run.{state_before, value};
ghost use Rattle.scratch.specs.kept.Run.{IsRun};
ghost use Rattle.rundiff.specs.kept.Fronts.{AreTraces, AreWaves};
ghost use Rattle.rundiff.specs.kept.Places.{gate_at, net_at};
ghost use Rattle.rundiff.specs.kept.Kept.{read_at};

use crate::former::{Former, former_trace, former_wave};
use crate::old::old_wave;
use crate::patches::value_at;
use crate::place_map::PlaceMap;
use design::{Gate, Terminal};
use fourstate::{Inputs, Value, resolve};
use gatestep::{Driver, Stepper};
use smallvec::SmallVec;
use std::alloc::{AllocError, Global};
use waveform::{Patch, laws};

/// The values of so many drivers of a net need no memory of their own.
const NEAR_DRIVERS: usize = 4;

/// The value of a net at `m`, a moment at which it is known.
pub fn net_value(waves: &PlaceMap<Patch<Value>>, former: &Former, place: usize, m: u64) -> Value
    requires there { place < length (netlist former.now.new.now).nets }
    requires within { m ≤ (netlist former.now.old.now).horizon }
    ensures { (answer : Evaluation → ℕ → State) (n : ℕ) → IsRun answer former.now.old.now former.now.run.now → AreWaves answer (netlist former.now.old.now) (netlist former.now.new.now) waves.now n → m < n
        → result ≡ value answer (netlist former.now.new.now) (net_at (netlist former.now.new.now) place) m }
{
    let was = former_wave(waves, former, place);
    value_at(waves, place, was, m)
}

/// The value of what a gate input is connected to, at `m`.
pub fn connection_value(
    waves: &PlaceMap<Patch<Value>>,
    former: &Former,
    terminal: Terminal,
    m: u64,
) -> Value
    requires there { IsThere former.now.new.now.nets terminal }
    requires within { m ≤ (netlist former.now.old.now).horizon }
    ensures { (answer : Evaluation → ℕ → State) (n : ℕ) → IsRun answer former.now.old.now former.now.run.now → AreWaves answer (netlist former.now.old.now) (netlist former.now.new.now) waves.now n → m < n
        → result ≡ read_at answer (netlist former.now.new.now) (connection_in former.now.new.now.nets terminal) m }
{
    former.new.names_are_keys();
    match terminal {
        Terminal::Net(net) => match former.new.net_place_of(net) {
            Some(place) => net_value(waves, former, place, m),
            None => unreachable!(),
        },
        Terminal::Constant(value) => value,
    }
}

/// The value of the same connection in the old run.
pub fn old_connection_value(former: &Former, terminal: Terminal, m: u64) -> Value
    requires there { IsThere former.now.new.now.nets terminal }
    requires within { m ≤ (netlist former.now.old.now).horizon }
    ensures { (answer : Evaluation → ℕ → State) → IsRun answer former.now.old.now former.now.run.now
        → result ≡ read_at answer (netlist former.now.old.now) (connection_in former.now.new.now.nets terminal) m }
{
    laws::value_of_changes::<Value>();
    match terminal {
        Terminal::Net(net) => old_wave(former, net, former.new.name_of(net).as_str()).at(m),
        Terminal::Constant(value) => value,
    }
}

/// The values of a gate's inputs at `m`, where all up to `t` is known.
pub fn inputs_at<S: Stepper>(
    waves: &PlaceMap<Patch<Value>>,
    former: &Former,
    gate: &Gate,
    m: u64,
    t: u64,
) -> Inputs
    requires connected { IsConnected former.now.new.now.nets gate.now }
    requires order { m ≤ t }
    requires within { t ≤ (netlist former.now.old.now).horizon }
    requires run { IsRun S.answer former.now.old.now former.now.run.now }
    requires waves { AreWaves S.answer (netlist former.now.old.now) (netlist former.now.new.now) waves.now (suc t) }
    ensures { result ≡ map (λ terminal. read_at S.answer (netlist former.now.new.now) (connection_in former.now.new.now.nets terminal) m) gate.now.inputs }
{
    let terminals = gate.inputs();
    let mut values = Inputs::new();
    let mut place = terminals.len();
    while place > 0 {
        place -= 1;
        let terminal = terminals[place];
        values.put_first(connection_value(waves, former, terminal, m));
    }
    values
}

/// The values of the same inputs in the old run.
pub fn old_inputs_at<S: Stepper>(former: &Former, gate: &Gate, m: u64) -> Inputs
    requires connected { IsConnected former.now.new.now.nets gate.now }
    requires within { m ≤ (netlist former.now.old.now).horizon }
    requires run { IsRun S.answer former.now.old.now former.now.run.now }
    ensures { result ≡ map (λ terminal. read_at S.answer (netlist former.now.old.now) (connection_in former.now.new.now.nets terminal) m) gate.now.inputs }
{
    let terminals = gate.inputs();
    let mut values = Inputs::new();
    let mut place = terminals.len();
    while place > 0 {
        place -= 1;
        let terminal = terminals[place];
        values.put_first(old_connection_value(former, terminal, m));
    }
    values
}

/// The state of a gate before the moment `t`, where all before `t` is known.
pub fn gate_state<S: Stepper>(
    traces: &PlaceMap<Patch<Driver>>,
    former: &Former,
    place: usize,
    t: u64,
) -> Driver
    requires there { place < length (netlist former.now.new.now).gates }
    requires within { t ≤ (netlist former.now.old.now).horizon }
    requires run { IsRun S.answer former.now.old.now former.now.run.now }
    requires traces { AreTraces S.answer (netlist former.now.old.now) (netlist former.now.new.now) traces.now t }
    ensures state { result ≡ state_before S.answer (netlist former.now.new.now) t (gate_at (netlist former.now.new.now) place) }
    ensures ready { PendingFrom t result }
{
    former.old.lawful();
    former.new.lawful();
    if t == 0 {
        return Driver::start();
    }
    let was = former_trace(traces, former, place);
    value_at(traces, place, was, t - 1)
}

/// The value that a net has at the moment `t` from its stimulus or its drivers, where all before `t` is known.
pub fn driven_value<S: Stepper>(
    alloc: Global,
    traces: &PlaceMap<Patch<Driver>>,
    former: &Former,
    place: usize,
    t: u64,
) -> Result<Value, AllocError>
    requires there { place < length (netlist former.now.new.now).nets }
    requires within { t ≤ (netlist former.now.old.now).horizon }
    requires run { IsRun S.answer former.now.old.now former.now.run.now }
    requires traces { AreTraces S.answer (netlist former.now.old.now) (netlist former.now.new.now) traces.now t }
    ensures { IfOk result (λ v. v ≡ value S.answer (netlist former.now.new.now) (net_at (netlist former.now.new.now) place) t) }
{
    former.new.places_are_keys();
    let net = former.new.net_at(place);
    if net.is_input() {
        return Ok(net.stimulus_at(t));
    }
    let drivers = former.new.drivers(former.new.net_key_at(place));
    let mut values: SmallVec<Value, NEAR_DRIVERS> = SmallVec::new(alloc);
    for driver in drivers {
        let Some(gate) = former.new.gate_place_of(*driver) else {
            unreachable!();
        };
        let state = gate_state::<S>(traces, former, gate, t);
        values.push(state.due(t).current())?;
    }
    Ok(resolve(net.kind(), values.as_slice()))
}
