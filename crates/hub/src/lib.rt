//! Editors and viewers of one design in threads of their own: editors commit one after another, and viewers go on reading the
//! snapshots that they hold.
#![tactic(auto)]

mod desk;
mod editor;
mod entry;
mod fault;
mod history;
mod hub;
mod issue;
mod log;
mod name;
mod note;
mod parts;
mod publisher;
mod receipt;
mod rule;
mod told;
mod viewer;

pub use desk::Desk;
pub use editor::Editor;
pub use entry::Entry;
pub use fault::{HubFault, LookFault};
pub use hub::Hub;
pub use log::Log;
pub use name::HubName;
pub use parts::{MAX_VIEWERS, Parts};
pub use receipt::Receipt;
pub use viewer::Viewer;
