//! std readers and writers for tests: they cut what goes through them in pieces, fail, or stand still.
//! They are used under a `Device`. What goes through them is what `inner` gives and takes.
mod failing;
mod pieces;
mod stuck;

pub use failing::Failing;
pub use pieces::Pieces;
pub use stuck::Stuck;
