//! Who carries out which commits.

ghost use Rattle.std.specs.Prelude.{◌≡◌, ◌+◌, IfOk, length, vec_len};
ghost use Rattle.racer.specs.Submits.{hand_of};
ghost use Rattle.racer.specs.Turns.{in_turn};

use crate::commit::Commit;
use crate::hand::Hand;
use std::alloc::{AllocError, Global};

/// The commits of the first editor, whose number is 0, and those of the second: they take turns, and the first one begins.
#[tactic(auto, using(crate::proofs::TurnLemmas::all_dealt))]
pub fn take_turns(alloc: Global, commits: Vec<Commit>) -> Result<(Hand, Hand), AllocError>
    ensures first { IfOk result (λ hands. hands.0 ≡ hand_of 0 (in_turn commits.items).0) }
    ensures second { IfOk result (λ hands. hands.1 ≡ hand_of 1 (in_turn commits.items).1) }
    ensures all { IfOk result (λ hands. length hands.0.commits + length hands.1.commits ≡ vec_len commits) }
{
    let (first, second) = dealt(alloc, commits)?;
    Ok((Hand::of(0, first), Hand::of(1, second)))
}

fn dealt(alloc: Global, commits: Vec<Commit>) -> Result<(Vec<Commit>, Vec<Commit>), AllocError>
    ensures { IfOk result (λ hands. (hands.0.items, hands.1.items) ≡ in_turn commits.items) }
{
    let mut first = Vec::new(alloc);
    let mut second = Vec::new(alloc);
    'commits: for commit in commits {
        if first.len() == second.len() {
            first.push(commit)?;
        } else {
            second.push(commit)?;
        }
    }
    Ok((first, second))
}
