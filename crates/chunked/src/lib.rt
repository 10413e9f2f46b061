//! Lists in chunks that copies share, and values that copies share.
#![tactic(auto)]

mod branch;
mod chunk;
mod exact;
mod list;
mod row;
mod shared;

pub use exact::ExactClone;
pub use list::Chunked;
pub use shared::Shared;
