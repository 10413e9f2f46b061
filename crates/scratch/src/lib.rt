//! The run of a design from scratch: what each net has and in which state each gate's driver is, at each moment.
#![tactic(auto)]

mod answering;
mod asking;
mod beside;
mod completing;
mod continuing;
mod driving;
mod engine;
mod extending;
mod finishing;
pub mod laws;
mod moment;
mod noting;
mod opening;
mod packed_input;
pub mod plain;
mod present;
mod recording;
mod resolving;
mod resuming;
mod run;
mod setting;
mod settling;
mod stirred_gates;
mod stirring;
mod tallies;
mod tally;
mod waves;
mod wiring;

pub use beside::Beside;
pub use extending::{extend, extend_beside};
pub use finishing::run_of_lines;
pub use moment::read_input;
pub use packed_input::PackedInput;
pub use present::Present;
pub use resuming::trace_at;
pub use run::{simulate, simulate_beside, simulate_wired};
pub use stirred_gates::StirredGates;
pub use waves::{wave_at, wave_named};
pub use wiring::{Cell, Input, Wiring, wire};
