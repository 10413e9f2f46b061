//! Nets become live, and their drivers held.

ghost use Rattle.std.specs.Prelude.{◌≡◌, ◌<◌, ◌==◌, ◌||◌, ℕ, All, OnOk, length};
ghost use Rattle.std.specs.BTreeSet.{contains};
ghost use Rattle.std.specs.Ordering.{nat_cmp};
ghost use Rattle.design.specs.Keys.{netlist};
ghost use Rattle.design.specs.kept.Places.{driver_places};
ghost use Rattle.rundiff.specs.kept.Fronts.{AreDrivers};
ghost use Rattle.rundiff.specs.kept.Places.{is_among, net_at};

use crate::place_set::PlaceSet;
use design::Design;
use std::alloc::AllocError;

/// Makes the nets at these places live, and holds their drivers.
pub fn hold(
    live: &mut PlaceSet,
    held: &mut PlaceSet,
    new: &Design,
    found: &[usize],
) -> Result<(), AllocError>
    requires there { All (λ p. p < length (netlist new.now).nets) found.now }
    requires drivers { AreDrivers (netlist new.now) (contains nat_cmp live.old) (contains nat_cmp held.old) }
    ensures drivers { OnOk result (AreDrivers (netlist new.now) (contains nat_cmp live.new) (contains nat_cmp held.new)) }
    ensures live { OnOk result ((p : ℕ) → contains nat_cmp live.new p ≡ (is_among found.now p || contains nat_cmp live.old p)) }
{
    for place in found {
        hold_one(live, held, new, *place)?;
    }
    Ok(())
}

/// Makes one net live.
fn hold_one(
    live: &mut PlaceSet,
    held: &mut PlaceSet,
    new: &Design,
    place: usize,
) -> Result<(), AllocError>
    requires there { place < length (netlist new.now).nets }
    requires drivers { AreDrivers (netlist new.now) (contains nat_cmp live.old) (contains nat_cmp held.old) }
    ensures drivers { OnOk result (AreDrivers (netlist new.now) (contains nat_cmp live.new) (contains nat_cmp held.new)) }
    ensures live { OnOk result ((p : ℕ) → contains nat_cmp live.new p ≡ (p == place || contains nat_cmp live.old p)) }
{
    new.lawful();
    if live.contains(place) {
        return Ok(());
    }
    hold_drivers(held, new, place)?;
    live.insert(place)?;
    Ok(())
}

/// Holds the drivers of a net.
fn hold_drivers(held: &mut PlaceSet, new: &Design, place: usize) -> Result<(), AllocError>
    requires there { place < length (netlist new.now).nets }
    ensures { OnOk result ((p : ℕ) → contains nat_cmp held.new p
        ≡ (is_among (driver_places (netlist new.now).gates (net_at (netlist new.now) place).name) p || contains nat_cmp held.old p)) }
{
    new.places_are_keys();
    let drivers = new.drivers(new.net_key_at(place));
    for driver in drivers {
        let Some(gate) = new.gate_place_of(*driver) else {
            unreachable!();
        };
        held.insert(gate)?;
    }
    Ok(())
}
