//! What tells one hub from another.

use std::marker::Brand;

/// The snapshot that a hub began with, the book of its commits and the ledgers of what its editors were told. They exist for
/// contracts alone: a program opens a hub in a function that is generic in the name, and picks them where it calls that function.
pub trait HubName {
    ghost use Rattle.bench.specs.Benches.{SnapshotRecord};
    ghost use Rattle.hub.specs.kept.Histories.{HubBooks};

    ghost origin: { SnapshotRecord };

    ghost book: { HubBooks };
}

impl HubName for Brand {
    ghost use Rattle.hub.specs.kept.Desks.{any_book, any_snapshot};

    ghost origin = { any_snapshot };

    ghost book = { any_book };
}
