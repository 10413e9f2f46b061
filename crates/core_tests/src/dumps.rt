//! Dumps, written out by hand.

mod cut;
mod scopes;
mod texts;
