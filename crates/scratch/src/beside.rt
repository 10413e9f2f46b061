//! What a run is made beside.

ghost use Rattle.std.specs.Prelude.{◌≡◌, ◌+◌, Bool, true, false, ℕ, map, slice_get, IfNone, IfSome, Some};
ghost use Rattle.gatestep.specs.Step.{Evaluation, State};
ghost use Rattle.design.specs.Keys.{netlist};
ghost use Rattle.design.specs.Netlist.{GateEntry, Netlist};
ghost use Rattle.scratch.specs.Run.{state_before};
ghost use Rattle.scratch.specs.kept.Open.{is_open_at};
ghost use Rattle.scratch.specs.kept.Present.{IsPresent};

use crate::present::Present;
use gatestep::{Driver, Stepper};

/// What may know the answer for a gate before it is asked for, as a former run does.
pub trait Beside {
    /// It belongs beside the run of a design with these answers.
    ghost fits: { (Evaluation → ℕ → State) → Netlist → Self → Type 0 };

    /// The answer for a gate at a moment is not known, so it is asked for.
    ghost is_open: { (Evaluation → ℕ → State) → Netlist → Self → GateEntry → ℕ → Bool };

    /// The answer for the gate at a place at the present moment, before which it is in this state, where that is known.
    fn known_answer<S: Stepper>(
        &mut self,
        present: &Present,
        place: usize,
        state: Driver,
    ) -> Option<Driver>
        requires fits { fits S.answer (netlist present.now.design.now) self.old }
        requires present { IsPresent S.answer present.now }
        requires state { slice_get (map (state_before S.answer (netlist present.now.design.now) present.now.t) (netlist present.now.design.now).gates) place ≡ Some state }
        ensures fits { fits S.answer (netlist present.now.design.now) self.new }
        ensures same { is_open S.answer (netlist present.now.design.now) self.new ≡ is_open S.answer (netlist present.now.design.now) self.old }
        ensures known { IfSome result (λ answer. slice_get (map (state_before S.answer (netlist present.now.design.now) (present.now.t + 1)) (netlist present.now.design.now).gates) place ≡ Some answer) }
        ensures closed { IfSome result (λ _. is_open_at (is_open S.answer (netlist present.now.design.now) self.old) (netlist present.now.design.now) present.now.t place ≡ false) }
        ensures open { IfNone result (is_open_at (is_open S.answer (netlist present.now.design.now) self.old) (netlist present.now.design.now) present.now.t place ≡ true) };
}

/// Nothing is known: each answer is asked for.
#[derive(Clone, Copy)]
pub struct Nothing;

impl Beside for Nothing {
    ghost use Rattle.std.specs.Prelude.{true};

    ghost fits = { λ answer design nothing. Unit {0} };

    ghost is_open = { λ answer design nothing gate t. true };

    #[inline(always)]
    fn known_answer<S: Stepper>(
        &mut self,
        present: &Present,
        place: usize,
        state: Driver,
    ) -> Option<Driver> {
        let _present = present;
        let _place = place;
        let _state = state;
        None
    }
}
