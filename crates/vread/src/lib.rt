//! The design that a structural Verilog text spells (IEEE 1364-2005, 12), or the text's fault.
#![tactic(auto)]

mod build;
mod detail;
mod driver;
mod gates;
mod joints;
mod knowledge;
mod late;
pub mod laws;
mod lengths;
mod names;
mod net_keys;
mod nets;
mod new_nets;
mod reading;
mod search;

pub use detail::{FaultDetail, FaultWord, fault_detail};
pub use reading::read;
pub use vtext::{ReadFault, ReadFaultKind};
