//! Laws of what a run asks: each function does nothing, and its contract is the law.

ghost use Rattle.std.specs.Prelude.{◌≡◌, ◌+◌, ◌≤◌, ℕ, Bool, List};
ghost use Rattle.std.specs.List.{count_by};
ghost use Rattle.gatestep.specs.Step.{Evaluation};
ghost use Rattle.scratch.specs.Asked.{IsAskedInPart, IsAskedInSomeOrder};

/// Nothing is asked twice, and nothing is left out: however pairs of an evaluation and its moment are told apart, as many of
/// each sort are asked as the work has of it, and of a part of the work no more.
#[tactic(auto, using(crate::proofs::Counts::all_counted, crate::proofs::Counts::part_counted))]
pub fn asked_once()
    ensures all { (before now work : List (Evaluation × ℕ)) (test : Evaluation × ℕ → Bool) → IsAskedInSomeOrder before now work
        → count_by test now ≡ count_by test before + count_by test work }
    ensures part { (before now work : List (Evaluation × ℕ)) (test : Evaluation × ℕ → Bool) → IsAskedInPart before now work
        → count_by test now ≤ count_by test before + count_by test work }
{}
