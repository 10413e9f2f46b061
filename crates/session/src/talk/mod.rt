//! The conversation: input in pieces, cut into lines, each answered.

mod converse;
mod exchange;
mod feed;
mod line_buffer;

pub use converse::serve;
pub use exchange::End;
pub use feed::Session;
pub use line_buffer::LineBuffer;
