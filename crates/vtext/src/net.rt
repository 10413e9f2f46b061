//! The nets of a module.

ghost use Rattle.std.specs.Prelude.{◌≡◌};
ghost use Rattle.vtext.specs.Ranges.{has_bit, width_of};
ghost use Rattle.vtext.specs.Nets.{directed, is_declared, is_input, is_scalar, is_undirected, is_used, listed, net_kind, ported, used};

use crate::range::Range;
use crate::word::Direction;
use fourstate::NetKind;

/// What a module says of one of its nets.
#[derive(Clone, Copy, Debug, PartialEq, Eq)]
pub struct Net {
    /// Whether the module's header names it.
    pub port: bool,
    /// Its direction, where it is declared as a port.
    pub direction: Option<Direction>,
    /// The kind that a declaration writes; without one it is `wire`.
    pub kind: Option<NetKind>,
    /// The range that its declarations write; without one it is a scalar.
    pub range: Option<Range>,
    /// Whether it came to be by its use as a terminal.
    pub implicit: bool,
}

impl Net {
    /// A net of which nothing is said.
    pub const BLANK: Net = Net {
        port: false,
        direction: None,
        kind: None,
        range: None,
        implicit: false,
    };

    /// A port that a header of the older form names.
    pub fn listed() -> Net
        ensures { result ≡ listed }
    {
        Net {
            port: true,
            ..Net::BLANK
        }
    }

    /// A port that a header of the inline form declares.
    pub fn ported(direction: Direction, kind: Option<NetKind>, range: Option<Range>) -> Net
        ensures { result ≡ ported direction kind range }
    {
        Net {
            port: true,
            direction: Some(direction),
            kind,
            range,
            implicit: false,
        }
    }

    /// Its kind: the written one, else `wire`.
    pub fn net_kind(self) -> NetKind
        ensures { result ≡ net_kind self }
    {
        self.kind.unwrap_or(NetKind::Wire)
    }

    /// Whether it is an input port.
    pub fn is_input(self) -> bool
        ensures { result ≡ is_input self }
    {
        match self.direction {
            Some(Direction::Input) => true,
            _ => false,
        }
    }

    /// Whether a direction or a net declaration was said of it.
    pub fn is_declared(self) -> bool
        ensures { result ≡ is_declared self }
    {
        self.direction.is_some() || self.kind.is_some()
    }

    /// Whether it was declared or used before, so that a further use says no more of it.
    pub fn is_used(self) -> bool
        ensures { result ≡ is_used self }
    {
        self.is_declared() || self.implicit
    }

    /// Whether the header names it and no direction was said of it.
    pub fn is_undirected(self) -> bool
        ensures { result ≡ is_undirected self }
    {
        self.port && self.direction.is_none()
    }

    /// Whether it is a scalar that was declared or used.
    pub fn is_scalar(self) -> bool
        ensures { result ≡ is_scalar self }
    {
        self.is_used() && self.range.is_none()
    }

    /// How many bits it has, 1 to 65,536; a scalar has one.
    pub fn width(self) -> usize
        ensures { result ≡ width_of self.range }
    {
        match self.range {
            Some(range) => range.width(),
            None => 1,
        }
    }

    /// Whether it is a vector that has a bit of this index.
    pub fn has_bit(self, index: u16) -> bool
        ensures { result ≡ has_bit self.range index }
    {
        match self.range {
            Some(range) => range.contains(index),
            None => false,
        }
    }

    /// The net after a port declaration, with the kind that it writes, if any, and the range.
    pub fn directed(self, direction: Direction, kind: Option<NetKind>, range: Option<Range>) -> Net
        ensures { result ≡ directed direction kind range self }
    {
        Net {
            direction: Some(direction),
            range,
            kind: match kind {
                Some(kind) => Some(kind),
                None => self.kind,
            },
            ..self
        }
    }

    /// The net after its use as a terminal: without a declaration before, it is an implicit one.
    pub fn used(self) -> Net
        ensures { result ≡ used self }
    {
        if self.is_declared() {
            self
        } else {
            Net {
                implicit: true,
                ..self
            }
        }
    }
}
