//! Records by name and by key, in the order in which they were added.
#![tactic(auto)]

mod ascending;
mod blocks;
mod by_name;
mod catalog;
mod enter;
mod gaps;
mod gather;
mod hasher;
mod key;
mod named;
mod names;
mod order;
mod places;
pub mod plain;
mod slots;
pub mod spelling;

pub use catalog::Catalog;
pub use hasher::NameHasher;
pub use key::Key;
pub use named::Named;
