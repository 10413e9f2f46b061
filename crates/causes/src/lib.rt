//! What made a net of a run change, and what its change led to, as lines of text. Nothing here takes memory, and the cost follows
//! the gates at the net: what happened is found by halving.
#![tactic(auto)]

mod change;
mod ending;
mod origin;
mod outcome;
mod turn;
mod words;

pub use origin::why;
pub use outcome::reach;
