//! The run of a design beside the run of an old one, gate after gate.

ghost use Rattle.std.specs.Prelude.{◌≡◌, true, suc, IfOk, IfSome, OnErr, OnOk};
ghost use Rattle.design.specs.Keys.{netlist};
ghost use Rattle.rundiff.specs.kept.OldRuns.{AreOldRun};
ghost use Rattle.scratch.specs.Asked.{IsAskedInPart, IsAskedInSomeOrder};
ghost use Rattle.scratch.specs.kept.Kept.{IsWiring};
ghost use Rattle.scratch.specs.kept.Run.{IsRun};
ghost use Rattle.ordering.specs.kept.Earlier.{IsEarlier, begin_after};
ghost use Rattle.ordering.specs.kept.Order.{is_order};
ghost use Rattle.ordering.specs.kept.Reworks.{rework_from};

use crate::earlier::EarlierRun;
use crate::following::Begin;
use crate::in_order::run_in_order;
use gatestep::Stepper;
use rundiff::{Former, OldRun, laws};
use scratch::Wiring;
use std::alloc::{AllocError, Global};
use waveform::Run;

/// The run of the new design, which has the horizon of the old one, gate after gate in this order, from moment 0 on or from the end
/// of an earlier run of it: each gate is asked at those of the moments at which it is dirty and stirred, once, and at no others; in
/// which order is not said. The runs share nothing. It fails where memory runs out; then what was asked is a part of that.
pub fn run_beside<S: Stepper>(
    alloc: Global,
    former: &Former,
    wiring: &Wiring,
    order: &[u32],
    earlier: Option<EarlierRun>,
    stepper: &mut S,
) -> Result<Run, AllocError>
    requires none_lost { S.losses stepper.old ≡ 0 }
    requires wired { IsWiring (netlist former.now.new.now) wiring.now }
    requires order { is_order (netlist former.now.new.now) order.now ≡ true }
    requires earlier { IfSome earlier (IsEarlier S.answer former.now.new.now) }
    requires run { IsRun S.answer former.now.old.now former.now.run.now }
    requires horizon { (netlist former.now.new.now).horizon ≡ (netlist former.now.old.now).horizon }
    ensures run { IfOk result (IsRun S.answer former.now.new.now) }
    ensures asked { OnOk result (IsAskedInSomeOrder (S.asked stepper.old) (S.asked stepper.new)
        (rework_from S.answer (netlist former.now.old.now) (netlist former.now.new.now) (begin_after earlier.entry) (suc (netlist former.now.new.now).horizon))) }
    ensures part { OnErr result (IsAskedInPart (S.asked stepper.old) (S.asked stepper.new)
        (rework_from S.answer (netlist former.now.old.now) (netlist former.now.new.now) (begin_after earlier.entry) (suc (netlist former.now.new.now).horizon))) }
    ensures lost { S.losses stepper.new ≡ S.losses stepper.old }
{
    let old = OldRun::find::<S>(alloc, former)?;
    go_beside(alloc, former, wiring, order, earlier, &old, stepper)
}

/// The same, where the lines of the old run are found.
fn go_beside<S: Stepper>(
    alloc: Global,
    former: &Former,
    wiring: &Wiring,
    order: &[u32],
    earlier: Option<EarlierRun>,
    old: &OldRun,
    stepper: &mut S,
) -> Result<Run, AllocError>
    requires none_lost { S.losses stepper.old ≡ 0 }
    requires wired { IsWiring (netlist former.now.new.now) wiring.now }
    requires order { is_order (netlist former.now.new.now) order.now ≡ true }
    requires earlier { IfSome earlier (IsEarlier S.answer former.now.new.now) }
    requires old { AreOldRun S.answer (netlist former.now.old.now) (netlist former.now.new.now) old.now }
    requires horizon { (netlist former.now.new.now).horizon ≡ (netlist former.now.old.now).horizon }
    ensures run { IfOk result (IsRun S.answer former.now.new.now) }
    ensures asked { OnOk result (IsAskedInSomeOrder (S.asked stepper.old) (S.asked stepper.new)
        (rework_from S.answer (netlist former.now.old.now) (netlist former.now.new.now) (begin_after earlier.entry) (suc (netlist former.now.new.now).horizon))) }
    ensures part { OnErr result (IsAskedInPart (S.asked stepper.old) (S.asked stepper.new)
        (rework_from S.answer (netlist former.now.old.now) (netlist former.now.new.now) (begin_after earlier.entry) (suc (netlist former.now.new.now).horizon))) }
    ensures lost { S.losses stepper.new ≡ S.losses stepper.old }
{
    former.old.lawful();
    former.new.lawful();
    laws::dirty_by_lines::<S>();
    let begin = Begin {
        earlier,
        old: Some(old),
        ahead: None,
    };
    run_in_order(alloc, former.new, wiring, begin, order, stepper)
}
