//! What went through a device, for contracts alone.
ghost use Rattle.std.specs.Prelude.{◌≡◌, ℕ, List, [], ◌∷◌, ◌++◌};

use std::marker::Model;
use std::mem::size_of;

/// Pieces of bytes, one for each `add`, that no code reads. It takes no memory, and its methods do
/// nothing at run time.
#[derive(Drop)]
pub(crate) struct History {
    ghost pieces: { List (List ℕ) },
}

impl Model for History {
    ghost use Rattle.std.specs.Borrow.{ftrue};

    ghost also_owns = { λ _. ftrue };
}

const _: () = prove!(size_of::<History>() == 0);

impl History {
    pub(crate) fn new() -> History
        ensures { result.pieces ≡ [] }
    {
        History {}
    }

    pub(crate) fn add(&mut self, _piece: &[u8])
        ensures { self.new.pieces ≡ self.old.pieces ++ _piece.now ∷ [] }
    {}
}
