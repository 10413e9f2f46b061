//! One gate followed over all of time: where the waves that it reads are known, its trace is found in one pass along them.
#![tactic(auto)]

mod filling;
mod finding;
mod gate;
mod inputs_table;
mod known_gate;
mod known_line;
pub mod laws;
mod line;
mod merge;
mod old_line;
mod reader;
mod readers;
mod reads;
mod taking;
mod walk;

pub use filling::{find_inputs, find_rest};
pub use finding::is_lone_wave;
pub use gate::follow_gate;
pub use inputs_table::InputsTable;
pub use known_gate::{find_known, lone_net};
pub use known_line::{KnownLine, Line};
pub use line::Start;
pub use old_line::OldLine;
pub use walk::{Along, Former};
