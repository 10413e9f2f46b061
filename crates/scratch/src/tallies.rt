//! How many drivers of each net that has many of them give each value, as the drivers change.

ghost use Rattle.std.specs.Prelude.{◌≡◌, ◌<◌, ℕ, Option, Some, None, false, map, length, slice_get, slice_set, IfOk};
ghost use Rattle.std.specs.Option.{option_map_or};
ghost use Rattle.design.specs.Keys.{netlist};
ghost use Rattle.scratch.specs.kept.Kept.{IsWiring, currents_of, places_at, values_at};
ghost use Rattle.scratch.specs.kept.Places.{has, is_due_at};
ghost use Rattle.scratch.specs.kept.Tally.{tally_of};
ghost use Rattle.scratch.specs.declared.tally.Tally.{Tally};

use crate::resolving::current_at;
use crate::tally::Tally;
use crate::wiring::{Places, Wiring};
use design::Design;
use fourstate::Value;
use gatestep::Driver;
use std::alloc::{AllocError, Global};

/// A net with more drivers than these has a tally: to look at each driver takes longer from about there on (own).
const FEW_DRIVERS: usize = 16;

/// The tallies of the nets that have many drivers.
#[derive(Drop)]
pub struct Tallies {
    /// Of each net its tally, if it has one; empty where none has.
    nets: Vec<Option<Tally>>,
    /// The value with which each gate's driver is counted, in the order of the gates; empty where no net has a tally.
    counted: Vec<Value>,
    /// Room for the values of the drivers of a net that has no tally.
    pub room: Vec<Value>,
}

impl Tallies {
    ghost use Rattle.scratch.specs.kept.Tallies.{AreTallies, Counts};

    /// Counts the drivers in these states.
    pub fn count(
        alloc: Global,
        design: &Design,
        wiring: &Wiring,
        states: &[Driver],
    ) -> Result<Tallies, AllocError>
        requires wired { IsWiring (netlist design.now) wiring.now }
        ensures { IfOk result (λ tallies. Counts (netlist design.now) tallies (map (λ s. s.current) states.now)) }
    {
        let _design = design;
        if !any_has_many(wiring.drivers.as_slice()) {
            return Ok(Tallies {
                nets: Vec::new(alloc),
                counted: Vec::new(alloc),
                room: Vec::new(alloc),
            });
        }
        let counted = current_values(alloc, states)?;
        let nets = count_each(alloc, wiring.drivers.as_slice(), counted.as_slice())?;
        Ok(Tallies {
            nets,
            counted,
            room: Vec::new(alloc),
        })
    }

    /// The tally of the net at a place, if it has one.
    pub fn of_net(&self, place: usize) -> Option<Tally>
        ensures { result ≡ option_map_or (λ tally. tally) (slice_get self.now.nets.items place) None }
    {
        match self.nets.get(place) {
            Some(tally) => *tally,
            None => None,
        }
    }

    /// Counts the drivers of some gates at the moment `t`, once due events have become current; no event of another one is due.
    pub fn follow(
        &mut self,
        design: &Design,
        wiring: &Wiring,
        states: &[Driver],
        gates: &[usize],
        t: u64,
    )
        requires wired { IsWiring (netlist design.now) wiring.now }
        requires counts { Counts (netlist design.now) self.old (map (λ s. s.current) states.now) }
        requires each { length states.now ≡ length (netlist design.now).gates }
        requires others { (k : ℕ) → has k gates.now ≡ false → is_due_at states.now k t ≡ false }
        ensures { Counts (netlist design.now) self.new (currents_of states.now t) }
    {
        if self.nets.is_empty() {
            return;
        }
        for gate in gates {
            self.recount(design, wiring, *gate, current_at(states, *gate, t));
        }
    }

    /// Counts the driver of the gate at a place with this value in place of its former one.
    fn recount(&mut self, design: &Design, wiring: &Wiring, gate: usize, value: Value)
        requires wired { IsWiring (netlist design.now) wiring.now }
        requires nets { AreTallies (netlist design.now) self.old.nets.items self.old.counted.items }
        requires each { length self.old.counted.items ≡ length (netlist design.now).gates }
        ensures nets { AreTallies (netlist design.now) self.new.nets.items self.new.counted.items }
        ensures counted { self.new.counted.items ≡ slice_set self.old.counted.items gate value }
        ensures as_many { length self.new.nets.items ≡ length self.old.nets.items }
    {
        let _design = design;
        if gate >= self.counted.len() {
            return;
        }
        let former = self.counted[gate];
        self.counted[gate] = value;
        let Some(net) = wiring.outputs.get(gate) else {
            return;
        };
        let net = *net as usize;
        if let Some(tally) = self.of_net(net) {
            let mut tally = tally;
            tally.remove(former);
            tally.add(value);
            self.nets[net] = Some(tally);
        }
    }
}

/// Whether a net has more than a few drivers.
fn any_has_many(drivers: &[Places]) -> bool {
    drivers.iter().any(|places| places.len() > FEW_DRIVERS)
}

/// The current values of drivers in these states.
fn current_values(alloc: Global, states: &[Driver]) -> Result<Vec<Value>, AllocError>
    ensures { IfOk result (λ values. values.items ≡ map (λ s. s.current) states.now) }
{
    let mut values = Vec::with_capacity(alloc, states.len())?;
    for state in states {
        values.push(state.current())?;
    }
    Ok(values)
}

/// The tally of each net that has more than a few drivers, which give these values.
fn count_each(
    alloc: Global,
    drivers: &[Places],
    values: &[Value],
) -> Result<Vec<Option<Tally>>, AllocError>
    ensures { IfOk result (λ nets. (m : ℕ) (tally : Tally) → slice_get nets.items m ≡ Some (Some tally) → tally ≡ tally_of (values_at values.now (places_at drivers.now m))) }
{
    let mut nets = Vec::with_capacity(alloc, drivers.len())?;
    for places in drivers {
        nets.push(count_many(places, values))?;
    }
    Ok(nets)
}

/// The tally of the drivers at some places, if these are more than a few.
fn count_many(places: &Places, values: &[Value]) -> Option<Tally>
    ensures { (tally : Tally) → result ≡ Some tally → tally ≡ tally_of (values_at values.now places.now.items) }
{
    if places.len() > FEW_DRIVERS {
        Some(Tally::of(values, places.as_slice()))
    } else {
        None
    }
}
