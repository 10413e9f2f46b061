//! What tests compare. A proof takes an `assert_eq!` in 1.4 s wherever it stands, with a message in 2.8, and a call of
//! `equal` in 0.3; so each comparison is such a call. One that fails names this file, and says in words or numbers of what
//! the values are.

use std::fmt::Debug;
use std::process::Abort;

/// The value is the wanted one; `of` says of what it is.
pub fn equal<K: Debug + Drop, T: PartialEq + Debug + Drop>(
    rt: &impl Abort,
    of: K,
    value: T,
    wanted: T,
) {
    assert_eq!(rt; value, wanted, "{of:?}");
}
