//! What a design and its run have, as lines of text. Nothing here takes memory.
#![tactic(auto)]

mod gate_lines;
mod lines;
mod net_lines;
mod parts;
mod stimulus;
mod wave_part;
mod wires;

pub use gate_lines::{gate, gates};
pub use lines::change;
pub use net_lines::{inputs, nets};
pub use parts::window_parts;
pub use stimulus::points;
pub use wave_part::window;
pub use wires::{drivers, readers};
