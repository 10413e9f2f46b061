//! The line that is being read.

ghost use Rattle.std.specs.Prelude.{◌≡◌, ◌++◌, ◌∷◌, [], take, IfOk};

use crate::commands::LINE_LIMIT;
use std::alloc::{AllocError, Global};
use std::marker::Model;

// A byte more than a line may have shows that it is too long, whatever follows.
const ROOM: usize = LINE_LIMIT + 1;

/// The first bytes of a line, as many as show what it is. The room for them is made once.
#[derive(Drop)]
pub struct LineBuffer {
    bytes: Vec<u8>,
}

impl Model for LineBuffer {
    ghost use Rattle.std.specs.Prelude.{ℕ, List};
    ghost use Rattle.session.specs.kept.Kept.{HasRoom};

    ghost Value = { List ℕ };

    ghost view = { λ l. l.bytes.items };

    ghost invariant = { λ l. HasRoom l.bytes };
}

impl LineBuffer {
    /// An empty line.
    pub fn new(alloc: Global) -> Result<LineBuffer, AllocError>
        ensures { IfOk result (λ line. line ≡ []) }
    {
        let bytes = Vec::with_capacity(alloc, ROOM)?;
        Ok(LineBuffer { bytes })
    }

    /// Adds a byte, unless enough are kept.
    pub fn add(&mut self, byte: u8)
        ensures { self.new ≡ take ROOM (self.old ++ byte ∷ []) }
    {
        if self.bytes.len() < ROOM {
            self.bytes.push(byte).unwrap();
        }
    }

    /// Forgets the line.
    pub fn clear(&mut self)
        ensures { self.new ≡ [] }
    {
        self.bytes.clear();
    }

    /// The bytes.
    pub fn as_slice(&self) -> &[u8]
        ensures { result.now ≡ self.now }
    {
        self.bytes.as_slice()
    }
}
