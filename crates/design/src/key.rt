//! Keys: what names a net or a gate of a design for as long as it is there.

ghost use Rattle.std.specs.Prelude.{◌≡◌};

use catalog::Key;
use std::marker::Model;

/// The key of a net in its design, for as long as it is there. No two nets of a design have the same one.
#[derive(Clone, Copy, Debug, PartialEq, Eq, Hash)]
pub struct NetKey {
    pub(crate) number: Key,
}

impl Model for NetKey {
    ghost use Rattle.std.specs.Prelude.{ℕ};

    ghost Value = { ℕ };

    ghost view = { λ a. a.number };

    ghost inverse = { λ n. record { number = n } };
}

impl NetKey {
    /// The number that it is: what is kept beside a design, a thing for each net, can be kept by it. Numbers begin at 0, and
    /// those of removed ones come to be used again.
    pub fn number(self) -> usize
        ensures { result ≡ self }
    {
        self.number as usize
    }
}

/// The key of a gate in its design, for as long as it is there. No two gates of a design have the same one.
#[derive(Clone, Copy, Debug, PartialEq, Eq, Hash)]
pub struct GateKey {
    pub(crate) number: Key,
}

impl Model for GateKey {
    ghost use Rattle.std.specs.Prelude.{ℕ};

    ghost Value = { ℕ };

    ghost view = { λ a. a.number };

    ghost inverse = { λ n. record { number = n } };
}

impl GateKey {
    /// The number that it is: what is kept beside a design, a thing for each gate, can be kept by it. Numbers begin at 0, and
    /// those of removed ones come to be used again.
    pub fn number(self) -> usize
        ensures { result ≡ self }
    {
        self.number as usize
    }
}
