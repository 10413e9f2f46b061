//! Designs: nets and gates by name, with the stimulus of the inputs (IEEE 1364-2005, 12).
#![tactic(auto)]

mod by_net;
mod design;
mod edit_gates;
mod edit_nets;
mod few;
mod find;
mod gate;
mod horizon;
mod key;
mod key_list;
pub mod laws;
mod limits;
mod name;
mod name_text;
mod net;
mod net_change;
mod net_points;
mod parting;
mod piece;
mod pieces;
mod point_list;
mod points;
mod stimulus;
mod terminal;
mod wires;
mod wiring;

pub use catalog::NameHasher;
pub use design::Design;
pub use gate::{Gate, Inputs};
pub use key::{GateKey, NetKey};
pub use limits::{MAX_GATES, MAX_NAME, MAX_NETS, MAX_POINTS};
pub use name::Name;
pub use net::Net;
pub use net_points::Points;
pub use terminal::Terminal;
