//! A text that only contracts see.
ghost use Rattle.std.specs.Prelude.{◌≡◌, [], ◌++◌};

use crate::history::History;
use std::marker::Model;
use std::mem::size_of;

/// Bytes that no code reads. It takes no memory, and its methods do nothing at run time.
#[derive(Drop)]
pub(crate) struct GhostText {
    pieces: History,
}

impl Model for GhostText {
    ghost use Rattle.std.specs.Prelude.{ℕ, List};
    ghost use Rattle.std.specs.List.{concat};

    ghost Value = { List ℕ };

    ghost view = { λ t. concat t.pieces.pieces };
}

const _: () = prove!(size_of::<GhostText>() == 0);

impl GhostText {
    pub(crate) fn new() -> GhostText
        ensures { result ≡ [] }
    {
        GhostText {
            pieces: History::new(),
        }
    }

    #[tactic(auto, using(crate::proofs::HistoryLemmas::concat_last))]
    pub(crate) fn add(&mut self, more: &[u8])
        ensures { self.new ≡ self.old ++ more.now }
    {
        self.pieces.add(more);
    }
}
