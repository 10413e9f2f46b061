//! The connections of a design, by places in place of keys.

ghost use Rattle.std.specs.Prelude.{◌≡◌, ◌<◌, ◌||◌, ◌&&◌, ℕ, true, false, nat_eq, map, IfOk, OnOk, IfSome, IsSome, IsTrue, length};
ghost use Rattle.std.specs.List.{list_any};
ghost use Rattle.fourstate.specs.Gates.{takes_inputs};
ghost use Rattle.design.specs.Keys.{connection_in, entry_in, netlist};
ghost use Rattle.design.specs.kept.Keys.{IsConnected, IsThere, net_by_key};
ghost use Rattle.design.specs.kept.Places.{driver_places};
ghost use Rattle.scratch.specs.kept.Kept.{IsWiring, cell_of, driven_kind, input_of, is_at, lone_driver, lone_place, output_at, places_at};
ghost use Rattle.scratch.specs.kept.PackedInputs.{IsPackable};
ghost use Rattle.scratch.specs.kept.Places.{drives_at, has, reads_at};

use crate::packed_input::PackedInput;
use design::{Design, Gate, Net, NetKey, Terminal};
use fourstate::{Delays, GateKind, NetKind, Value};
use smallvec::SmallVec;
use std::alloc::{AllocError, Global};
use std::marker::Model;

/// As many inputs of a gate lie beside it, and need no allocation.
const NEAR_INPUTS: usize = 4;

/// As many drivers or readers of a net lie beside it, and need no allocation: they take the room that a pointer to others does.
const NEAR_PLACES: usize = 4;

/// Where an input of a gate gets its value from.
#[derive(Clone, Copy, Debug, PartialEq, Eq)]
pub enum Input {
    /// The net at this place in the order of the nets.
    At(u32),
    /// A constant.
    Fixed(Value),
}

/// A gate as it is evaluated. The type keeps that its inputs fit its kind.
#[derive(Drop)]
pub struct Cell {
    kind: GateKind,
    delays: Delays,
    inputs: SmallVec<PackedInput, NEAR_INPUTS>,
}

impl Model for Cell {
    ghost use Rattle.std.specs.Prelude.{IsTrue, length};
    ghost use Rattle.fourstate.specs.Gates.{takes_inputs};
    ghost use Rattle.scratch.specs.kept.Cells.{CellRecord};

    ghost Value = { CellRecord };

    ghost view = { λ a. record { kind = a.kind; delays = a.delays; inputs = a.inputs.items } };

    ghost invariant = { λ a. IsTrue (takes_inputs a.kind (length a.inputs.items)) };
}

impl Cell {
    /// The cell of a gate of this design.
    fn of(alloc: Global, design: &Design, gate: &Gate) -> Result<Cell, AllocError>
        requires { IsConnected design.now.nets gate.now }
        ensures { IfOk result (λ cell. cell ≡ cell_of (netlist design.now) (entry_in design.now.nets gate.now)) }
    {
        let terminals = gate.inputs();
        let mut inputs = SmallVec::with_capacity(alloc, terminals.len())?;
        for terminal in terminals {
            inputs.push(PackedInput::new(locate(design, *terminal)))?;
        }
        Ok(Cell {
            kind: gate.kind(),
            delays: gate.delays(),
            inputs,
        })
    }

    /// The gate's kind.
    pub fn kind(&self) -> GateKind
        ensures { result ≡ self.now.kind }
    {
        self.kind
    }

    /// The gate's delays.
    pub fn delays(&self) -> Delays
        ensures { result ≡ self.now.delays }
    {
        self.delays
    }

    /// Where its inputs get their values from; their number fits the kind.
    pub fn inputs(&self) -> &[PackedInput]
        ensures inputs { result.now ≡ self.now.inputs }
        ensures fit { IsTrue (takes_inputs self.now.kind (length result.now)) }
    {
        self.inputs.as_slice()
    }
}

/// Where a terminal, whose net is there, gets its value from.
fn locate(design: &Design, terminal: Terminal) -> Input
    requires { IsThere design.now.nets terminal }
    ensures input { result ≡ input_of (netlist design.now) (connection_in design.now.nets terminal) }
    ensures packable { IsPackable result }
{
    design.lawful();
    design.places_are_keys();
    match terminal {
        Terminal::Net(net) => match design.net_place_of(net) {
            Some(place) => Input::At(place as u32),
            None => unreachable!(),
        },
        Terminal::Constant(value) => Input::Fixed(value),
    }
}

/// Places in the order of the gates.
pub type Places = SmallVec<u32, NEAR_PLACES>;

/// The connections of a design, in the order of its gates and of its nets.
#[derive(Drop)]
pub struct Wiring {
    /// The gates.
    pub cells: Vec<Cell>,
    /// Of each net, the places of the gates that drive it, in order.
    pub drivers: Vec<Places>,
    /// Of each gate, the place of the net that it drives.
    pub outputs: Vec<u32>,
    /// Of each net, the places of the gates that read it, in order; of one that reads it twice, twice.
    pub readers: Vec<Places>,
    /// Of each net its kind, if drivers give its value.
    pub kinds: Vec<Option<NetKind>>,
    /// Of each net the place of the gate that alone gives its value, if there is one.
    pub lone_drivers: Vec<Option<u32>>,
}

/// The connections of a design.
pub fn wire(alloc: Global, design: &Design) -> Result<Wiring, AllocError>
    ensures { IfOk result (IsWiring (netlist design.now)) }
{
    let cells = all_cells(alloc, design)?;
    let drivers = all_drivers(alloc, design)?;
    let outputs = all_outputs(alloc, design)?;
    let readers = all_readers(alloc, design, cells.as_slice())?;
    let kinds = all_kinds(alloc, design)?;
    let lone_drivers = all_lone_drivers(alloc, design, drivers.as_slice())?;
    Ok(Wiring {
        cells,
        drivers,
        outputs,
        readers,
        kinds,
        lone_drivers,
    })
}

/// The driver that alone gives each net its value.
fn all_lone_drivers(
    alloc: Global,
    design: &Design,
    drivers: &[Places],
) -> Result<Vec<Option<u32>>, AllocError>
    requires { map (λ places. places.items) drivers.now ≡ map (λ n. driver_places (netlist design.now).gates n.name) (netlist design.now).nets }
    ensures { IfOk result (λ lone. lone.items ≡ map (lone_driver (netlist design.now)) (netlist design.now).nets) }
{
    let mut lone = Vec::with_capacity(alloc, design.net_count())?;
    for place in 0..design.net_count() {
        lone.push(lone_driver(design.net_at(place), &drivers[place]))?;
    }
    Ok(lone)
}

/// The driver that alone gives a net its value, if its drivers are at these places.
fn lone_driver(net: &Net, places: &Places) -> Option<u32>
    ensures { result ≡ lone_place net.now places.now.items }
{
    if net.is_input() || !net.kind().passes_lone_driver() {
        return None;
    }
    match places.as_slice() {
        [place] => Some(*place),
        _ => None,
    }
}

/// The kind of each net whose value its drivers give.
fn all_kinds(alloc: Global, design: &Design) -> Result<Vec<Option<NetKind>>, AllocError>
    ensures { IfOk result (λ kinds. kinds.items ≡ map driven_kind (netlist design.now).nets) }
{
    let mut kinds = Vec::with_capacity(alloc, design.net_count())?;
    for place in 0..design.net_count() {
        kinds.push(kind_if_driven(design.net_at(place)))?;
    }
    Ok(kinds)
}

/// The kind of a net, if its drivers give its value.
fn kind_if_driven(net: &Net) -> Option<NetKind>
    ensures { result ≡ driven_kind net.now }
{
    if net.is_input() {
        None
    } else {
        Some(net.kind())
    }
}

fn all_cells(alloc: Global, design: &Design) -> Result<Vec<Cell>, AllocError>
    ensures { IfOk result (λ cells. cells.items ≡ map (cell_of (netlist design.now)) (netlist design.now).gates) }
{
    let mut cells = Vec::with_capacity(alloc, design.gate_count())?;
    for place in 0..design.gate_count() {
        let cell = Cell::of(alloc, design, design.gate_at(place))?;
        cells.push(cell)?;
    }
    Ok(cells)
}

fn all_drivers(alloc: Global, design: &Design) -> Result<Vec<Places>, AllocError>
    ensures { IfOk result (λ all. map (λ places. places.items) all.items ≡ map (λ n. driver_places (netlist design.now).gates n.name) (netlist design.now).nets) }
{
    let mut all = Vec::with_capacity(alloc, design.net_count())?;
    for place in 0..design.net_count() {
        let places = drivers_of(alloc, design, design.net_key_at(place))?;
        all.push(places)?;
    }
    Ok(all)
}

/// The places of the gates that drive a net.
fn drivers_of(alloc: Global, design: &Design, net: NetKey) -> Result<Places, AllocError>
    requires { IsSome (net_by_key design.now net) }
    ensures { IfOk result (λ places. IfSome (net_by_key design.now net) (λ n. places.items ≡ driver_places (netlist design.now).gates n.name)) }
{
    design.lawful();
    design.places_are_keys();
    let drivers = design.drivers(net);
    let mut places = SmallVec::with_capacity(alloc, drivers.len())?;
    for driver in drivers {
        let Some(place) = design.gate_place_of(*driver) else {
            unreachable!();
        };
        places.push(place as u32)?;
    }
    Ok(places)
}

/// The place of the net that each gate drives.
fn all_outputs(alloc: Global, design: &Design) -> Result<Vec<u32>, AllocError>
    ensures outputs { IfOk result (λ all. (k m : ℕ) → drives_at (netlist design.now) k m ≡ true → has m (output_at all.items k) ≡ true) }
    ensures driven { IfOk result (λ all. (k m : ℕ) → has m (output_at all.items k) ≡ true → drives_at (netlist design.now) k m ≡ true) }
{
    design.lawful();
    design.places_are_keys();
    let mut all = Vec::with_capacity(alloc, design.gate_count())?;
    for place in 0..design.gate_count() {
        let Some(net) = design.net_place_of(design.gate_at(place).output()) else {
            unreachable!();
        };
        all.push(net as u32)?;
    }
    Ok(all)
}

/// Adds a place to the readers of the net that an input reads.
fn add_reader(input: Input, place: u32, all: &mut Vec<Places>) -> Result<(), AllocError>
    ensures readers { OnOk result ((k m : ℕ) → m < length all.old.items → has k (places_at all.new.items m) ≡ (has k (places_at all.old.items m) || (nat_eq k place && is_at m input))) }
    ensures as_many { OnOk result (length all.new.items ≡ length all.old.items) }
{
    if let Input::At(net) = input {
        let net = net as usize;
        if net < all.len() {
            let places = &mut all[net];
            places.push(place)?;
        }
    }
    Ok(())
}

/// Adds a place to the readers of each net that some inputs read.
fn add_readers(inputs: &[PackedInput], place: u32, all: &mut Vec<Places>) -> Result<(), AllocError>
    ensures readers { OnOk result ((k m : ℕ) → m < length all.old.items → has k (places_at all.new.items m) ≡ (has k (places_at all.old.items m) || (nat_eq k place && list_any (is_at m) inputs.now))) }
    ensures as_many { OnOk result (length all.new.items ≡ length all.old.items) }
{
    for input in inputs {
        add_reader(input.get(), place, all)?;
    }
    Ok(())
}

/// An empty list for each net.
fn empty_lists(alloc: Global, count: usize) -> Result<Vec<Places>, AllocError>
    ensures none { IfOk result (λ all. (k m : ℕ) → has k (places_at all.items m) ≡ false) }
    ensures as_many { IfOk result (λ all. length all.items ≡ count) }
{
    let mut all = Vec::with_capacity(alloc, count)?;
    for _ in 0..count {
        all.push(SmallVec::new(alloc))?;
    }
    Ok(all)
}

/// The places of the gates that read each net.
fn all_readers(alloc: Global, design: &Design, cells: &[Cell]) -> Result<Vec<Places>, AllocError>
    requires { cells.now ≡ map (cell_of (netlist design.now)) (netlist design.now).gates }
    ensures { IfOk result (λ all. (k m : ℕ) → has k (places_at all.items m) ≡ reads_at (netlist design.now) k m) }
{
    design.lawful();
    let mut all = empty_lists(alloc, design.net_count())?;
    for place in 0..cells.len() {
        let cell = &cells[place];
        add_readers(cell.inputs(), place as u32, &mut all)?;
    }
    Ok(all)
}
