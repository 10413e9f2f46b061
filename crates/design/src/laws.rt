//! Laws of designs: each function does nothing, and its contract is the law.

ghost use Rattle.std.specs.Prelude.{◌≡◌, ◌+◌, ◌<◌, ◌≤◌, ◌++◌, ℕ, All, IsTrue, List, [], ◌∷◌, length};
ghost use Rattle.design.specs.Names.{is_name, is_part, parts};

use crate::limits::{MAX_GATES, MAX_NAME, MAX_NETS, MAX_POINTS};

/// The limits of a design have these numbers.
pub fn limits()
    ensures name { MAX_NAME ≡ 1024 }
    ensures nets { MAX_NETS ≡ 65536 }
    ensures gates { MAX_GATES ≡ 65536 }
    ensures points { MAX_POINTS ≡ 1048576 }
{}

/// What stands between the dots of two texts that a dot joins is what stands between those of the first, and then those of
/// the second.
#[tactic(auto, using(crate::proofs::PartLemmas::parts_of_joined))]
pub fn parts_of_joined()
    ensures { (a b : List ℕ) → parts (a ++ 46 ∷ b) ≡ parts a ++ parts b }
{}

/// A part has no dot, and is a name if it is short enough.
#[tactic(auto, using(crate::proofs::PartLemmas::part_is_whole, crate::proofs::PartLemmas::part_is_name))]
pub fn parts_are_names()
    ensures whole { (part : List ℕ) → IsTrue (is_part part) → parts part ≡ part ∷ [] }
    ensures named { (part : List ℕ) → IsTrue (is_part part) → length part ≤ MAX_NAME → IsTrue (is_name part) }
{}

/// Two names that a dot joins are a name if it is short enough.
#[tactic(auto, using(crate::proofs::PartLemmas::joined_is_name))]
pub fn joined_names()
    ensures { (a b : List ℕ) → IsTrue (is_name a) → IsTrue (is_name b) → length a + length b < MAX_NAME → IsTrue (is_name (a ++ 46 ∷ b)) }
{}

/// Each byte of a name is printable and no blank.
#[tactic(auto, using(crate::proofs::PartLemmas::name_prints))]
pub fn names_print()
    ensures { (name : List ℕ) → IsTrue (is_name name) → All (λ byte. (33 ≤ byte) × (byte ≤ 126)) name }
{}
