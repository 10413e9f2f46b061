//! Which nets a rerun may have changed.

use design::NetKey;

/// What a run says of the nets whose waves are not those of the former run.
#[derive(Debug, Drop)]
pub enum Changed {
    /// Each net may have another wave.
    All,
    /// Under each key that is not here the same net stands in both designs, with the same wave. A key may stand here more than once.
    Nets(Vec<NetKey>),
}
