//! Why a dump was cut.

use thiserror::Error;

/// Why a dump was cut.
#[derive(Clone, Copy, Debug, PartialEq, Eq, Error)]
pub enum VcdFault {
    /// The writer failed after this many bytes, exactly the first ones of the text.
    #[error("write failed after {0} bytes")]
    Write(u64),
}
