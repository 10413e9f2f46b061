//! Lists added at the end of a list.

ghost use Rattle.std.specs.Prelude.{◌≡◌, ◌++◌, OnOk, OnErr};

use std::alloc::AllocError;

/// Adds two lists at the end of `out`. It fails where memory runs out, and then nothing has changed.
pub(crate) fn append_both(
    out: &mut Vec<usize>,
    first: &[usize],
    second: &[usize],
) -> Result<(), AllocError>
    ensures ok { OnOk result (out.new.items ≡ out.old.items ++ (first.now ++ second.now)) }
    ensures err { OnErr result (out.new.items ≡ out.old.items) }
{
    let length = out.len();
    out.extend_from_slice(first)?;
    let done = out.extend_from_slice(second);
    if done.is_err() {
        out.truncate(length);
    }
    done
}
