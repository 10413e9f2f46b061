//! What a gate input is connected to.

use crate::key::NetKey;
use fourstate::Value;

/// What a gate input is connected to (IEEE 1364-2005, 7.1.6).
#[derive(Clone, Copy, Debug, PartialEq, Eq)]
pub enum Terminal {
    /// The net of this key.
    Net(NetKey),
    /// A value that never changes.
    Constant(Value),
}

/// What fills the places of a list that hold no terminal.
impl Default for Terminal {
    fn default() -> Terminal {
        Terminal::Constant(Value::Unknown)
    }
}
