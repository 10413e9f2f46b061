//! Laws of the record of a run, gate after gate: each function does nothing, and its contract is the law.

ghost use Rattle.std.specs.Prelude.{◌≡◌, ◌++◌, ◌<◌, ℕ, Bool, true, None, List, nat_eq, nat_lt, IsPermutation, count_by, if◌then◌else◌};
ghost use Rattle.gatestep.specs.Step.{Evaluation};
ghost use Rattle.design.specs.Netlist.{GateEntry, Netlist};
ghost use Rattle.waveform.specs.Timelines.{moments};
ghost use Rattle.scratch.specs.Asked.{IsPart};
ghost use Rattle.scratch.specs.Work.{work_below};
ghost use Rattle.scratch.specs.kept.Work.{work_from};
ghost use Rattle.ordering.specs.kept.Gates.{IsBeginning, column_of, gates_work, gates_work_from, rows_of, stirred_pairs};
ghost use Rattle.ordering.specs.kept.Order.{each_in_order, is_order, order_work_from};

use gatestep::Stepper;

/// The work of a run moment after moment is that of its gates, gate after gate, in another order; also of a run that goes on
/// from a moment.
#[tactic(auto, using(crate::proofs::Columns::below_by_gates, crate::proofs::Columns::from_by_gates))]
pub fn work_by_gates<S: Stepper>()
    ensures below { (d : Netlist) (n : ℕ) → IsPermutation (work_below S.answer d n) (gates_work S.answer d n d.gates) }
    ensures from { (d : Netlist) (a n : ℕ) → IsPermutation (work_from S.answer d a n) (gates_work_from S.answer d a n d.gates) }
{}

/// The work of the gates in an order is that of the run in another one, also of a run that goes on from a moment; and from
/// moment 0 on it is that of the whole run.
#[tactic(auto, using(crate::proofs::Orders::work_ordered, crate::proofs::Columns::all_from_first))]
pub fn work_in_order<S: Stepper>()
    ensures from { (d : Netlist) (order : List ℕ) → is_order d order ≡ true → (a n : ℕ)
        → IsPermutation (work_from S.answer d a n) (order_work_from S.answer d None a n order) }
    ensures below { (d : Netlist) (n : ℕ) → work_below S.answer d n ≡ work_from S.answer d 0 n }
{}

/// The tasks of a design at some moments, those that a test lets through, moment after moment or gate after gate in an order; and a
/// beginning of them in one order is a part of them in the other.
#[tactic(auto, using(crate::proofs::Orders::begun_is_part))]
pub fn rows_in_order<S: Stepper>()
    ensures rows { (d : Netlist) (order : List ℕ) → is_order d order ≡ true → (asks : GateEntry → ℕ → Bool) (times : List ℕ)
        → IsPermutation (rows_of S.answer d asks times) (each_in_order d (λ k g. column_of S.answer d asks times g) order) }
    ensures part { (work whole piece : List (Evaluation × ℕ)) → IsPermutation work whole → IsBeginning piece whole → IsPart piece work }
{}

/// Nothing is asked twice, and nothing is left out. Of a list that is the work of a run in some order as many entries pass a test
/// as there are pairs of a gate and a moment at which the gate is stirred and what is asked of it passes; and each moment
/// below `n` is one of the moments once.
#[tactic(auto, using(crate::proofs::Counts::each_pair_once, crate::proofs::Counts::each_moment_once))]
pub fn each_pair_once<S: Stepper>()
    ensures pairs { (d : Netlist) (n : ℕ) (work : List (Evaluation × ℕ)) → IsPermutation (work_below S.answer d n) work
        → (test : Evaluation × ℕ → Bool) → count_by test work ≡ stirred_pairs S.answer d n test }
    ensures times { (n t : ℕ) → count_by (nat_eq t) (moments n) ≡ (if nat_lt t n then 1 else 0) }
{}
