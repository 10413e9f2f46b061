//! What gatebench reads from and writes to: the traits, devices over std's readers and writers, and
//! the writer and the reader that all text goes through.
#![tactic(auto)]

mod block;
mod device;
pub mod faulty;
mod ghost_text;
mod history;
mod reader;
mod send;
mod sink;
mod source;
mod writer;

pub use device::Device;
pub use reader::Reader;
pub use sink::Sink;
pub use source::Source;
pub use writer::Writer;
