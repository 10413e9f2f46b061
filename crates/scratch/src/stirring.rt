//! The nets with stimulus points at a moment, and the gates that read some nets.

ghost use Rattle.std.specs.Prelude.{◌≡◌, ◌<◌, ◌≤◌, ◌+◌, ◌||◌, [], ℕ, true, OnOk};
ghost use Rattle.std.specs.List.{list_any};
ghost use Rattle.event_queue.specs.kept.Noted.{noted};
ghost use Rattle.design.specs.Keys.{netlist};
ghost use Rattle.scratch.specs.kept.Kept.{places_at};
ghost use Rattle.scratch.specs.kept.Places.{Announces, IsNotedWithin, Keeps, has, point_at};

use crate::noting::note_next_point;
use crate::stirred_gates::StirredGates;
use crate::wiring::Wiring;
use design::Design;
use event_queue::EventQueue;
use std::alloc::{AllocError, Global};

/// Takes the nets that have a stimulus point at the moment `t`, and notes their next ones.
pub fn find_points(
    alloc: Global,
    design: &Design,
    points: &mut EventQueue,
    t: u64,
    out: &mut Vec<usize>,
) -> Result<(), AllocError>
    requires announces { Announces (point_at (netlist design.now).nets) (noted points.old) t }
    requires early { (u : ℕ) → u < t → noted points.old u ≡ [] }
    ensures nets { OnOk result (out.new.items ≡ noted points.old t) }
    ensures announces { OnOk result (Announces (point_at (netlist design.now).nets) (noted points.new) (t + 1)) }
    ensures early { OnOk result ((u : ℕ) → u < t + 1 → noted points.new u ≡ []) }
{
    out.clear();
    points.take(t, out)?;
    note_next_points(alloc, design, out.as_slice(), t, points)
}

/// Notes the first stimulus point after the moment `t` of each of some nets.
fn note_next_points(
    alloc: Global,
    design: &Design,
    nets: &[usize],
    t: u64,
    points: &mut EventQueue,
) -> Result<(), AllocError>
    ensures next { OnOk result ((m u : ℕ) → has m nets.now ≡ true → t < u → point_at (netlist design.now).nets m u ≡ true → IsNotedWithin (noted points.new) m (t + 1) u) }
    ensures kept { OnOk result (Keeps (noted points.old) (noted points.new)) }
    ensures early { OnOk result ((u : ℕ) → u ≤ t → noted points.new u ≡ noted points.old u) }
{
    for net in nets {
        note_next_point(alloc, design, *net, t, points)?;
    }
    Ok(())
}

/// Puts some places in order, each once, where there are several.
pub fn put_in_order(places: &mut Vec<usize>)
    ensures { (m : ℕ) → has m places.new.items ≡ has m places.old.items }
{
    if places.len() > 1 {
        places.sort_unstable();
        places.dedup();
    }
}

/// Adds the gates that read a net.
#[inline(always)]
pub fn insert_readers_of(
    wiring: &Wiring,
    net: usize,
    gates: &mut StirredGates,
) -> Result<(), AllocError>
    ensures { OnOk result ((k : ℕ) → has k gates.new ≡ (has k gates.old || has k (places_at wiring.now.readers.items net))) }
{
    if let Some(readers) = wiring.readers.get(net) {
        insert_readers(readers.as_slice(), gates)?;
    }
    Ok(())
}

/// Adds gates at some places.
#[inline(always)]
fn insert_readers(readers: &[u32], gates: &mut StirredGates) -> Result<(), AllocError>
    ensures { OnOk result ((k : ℕ) → has k gates.new ≡ (has k gates.old || has k readers.now)) }
{
    for place in readers {
        gates.insert(*place as usize)?;
    }
    Ok(())
}

/// Adds the gates that read some nets.
pub fn insert_all_readers(
    wiring: &Wiring,
    nets: &[usize],
    gates: &mut StirredGates,
) -> Result<(), AllocError>
    ensures { OnOk result ((k : ℕ) → has k gates.new ≡ (has k gates.old || list_any (λ m. has k (places_at wiring.now.readers.items m)) nets.now)) }
{
    for net in nets {
        insert_readers_of(wiring, *net, gates)?;
    }
    Ok(())
}
