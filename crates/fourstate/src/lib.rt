//! Values, gates, nets, delays and time units of four-state logic (IEEE 1364-2005, 4, 7 and 19.8). Nothing here takes
//! memory.
#![tactic(auto)]

mod delay_times;
mod delays;
mod gate;
mod inputs;
pub mod laws;
mod limits;
mod net;
mod survey;
mod unit;
mod value;

pub use delay_times::DelayTimes;
pub use delays::{Delays, delay};
pub use gate::{GateKind, fits, gate_value, takes_off};
pub use inputs::Inputs;
pub use limits::{MAX_DELAY, MAX_INPUTS, MAX_TIME};
pub use net::{NetKind, NetRule, resolve};
pub use unit::{Magnitude, TimeUnit, Unit};
pub use value::Value;
