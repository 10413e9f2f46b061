//! The nets whose waves may differ, once all moments up to the horizon are done.

ghost use Rattle.std.specs.Prelude.{◌≡◌, ◌<◌, ℕ, Some, true, suc, All, IfOk, OnOk, length, slice_get};
ghost use Rattle.catalog.specs.kept.Catalog.{keys_of};
ghost use Rattle.design.specs.Keys.{netlist};
ghost use Rattle.edits.specs.kept.Touched.{IsTouched, is_touched};
ghost use Rattle.rundiff.specs.kept.Changed.{AreChanged};
ghost use Rattle.rundiff.specs.kept.Fronts.{IsFront};
ghost use Rattle.rundiff.specs.kept.Places.{is_among};

use crate::former::Former;
use crate::front::Front;
use design::{Design, NetKey};
use edits::Touched;
use fourstate::Value;
use gatestep::Stepper;
use std::alloc::{AllocError, Global};
use waveform::laws;

impl Front {
    /// Keys of nets, once all moments up to the horizon, which is that of the old design, are done: those that edits touched, and
    /// those that were live and changed. Under each other key both designs have the same net, with the same wave.
    pub fn changed_nets<S: Stepper>(
        &self,
        alloc: Global,
        former: &Former,
        touched: &Touched,
    ) -> Result<Vec<NetKey>, AllocError>
        requires touched { IsTouched former.now.old.now former.now.new.now touched.now.nets.items touched.now.gates.items }
        requires horizon { (netlist former.now.new.now).horizon ≡ (netlist former.now.old.now).horizon }
        requires front { IsFront S.answer (netlist former.now.old.now) (netlist former.now.new.now) self.now (suc (netlist former.now.new.now).horizon) }
        ensures { IfOk result (λ keys. AreChanged S.answer former.now.old.now former.now.new.now (is_touched keys.items)) }
    {
        former.old.names_are_keys();
        laws::same_changes::<Value>();
        let mut places = Vec::new(alloc);
        self.waves.add_places(former.new.net_count(), &mut places)?;
        let mut keys = Vec::new(alloc);
        keys.extend_from_slice(touched.nets.as_slice())?;
        add_keys(former.new, places.as_slice(), &mut keys)?;
        Ok(keys)
    }
}

/// Adds the keys of the nets at these places.
fn add_keys(new: &Design, places: &[usize], keys: &mut Vec<NetKey>) -> Result<(), AllocError>
    requires { All (λ p. p < length (netlist new.now).nets) places.now }
    ensures more { OnOk result ((key : ℕ) → is_touched keys.old.items key ≡ true → is_touched keys.new.items key ≡ true) }
    ensures added { OnOk result ((p key : ℕ) → is_among places.now p ≡ true → slice_get (keys_of new.now.nets) p ≡ Some key → is_touched keys.new.items key ≡ true) }
{
    for place in places {
        keys.push(new.net_key_at(*place))?;
    }
    Ok(())
}
