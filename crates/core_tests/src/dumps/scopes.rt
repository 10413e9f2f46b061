//! What stands between names in scopes.

use crate::compare::equal;
use devices::faulty::Failing;
use devices::{Device, Sink, Writer};
use std::alloc::Global;
use std::process::Abort;
use vcd::change_scopes;

/// Writes what stands before each name, and behind the last one.
fn write_scopes<W: Sink>(sink: &mut W, names: &[&str]) -> Result<(), u64> {
    let mut writer = Writer::new(sink);
    let mut before = "";
    for name in names {
        change_scopes(&mut writer, before.as_bytes(), name.as_bytes());
        before = name;
    }
    change_scopes(&mut writer, before.as_bytes(), b"");
    let result = writer.flush();
    let _sink = writer.finish();
    result
}

fn check(rt: &impl Abort, alloc: Global, names: &[&str], wanted: &[u8]) {
    let mut device = Device::new(Vec::new(alloc));
    equal(rt, "write scopes", write_scopes(&mut device, names), Ok(()));
    equal(rt, "bytes that arrived", device.inner.as_slice(), wanted);
}

const OPENED_AGAIN: &[u8] = b"$scope module u $end
$upscope $end
$scope module u $end
$upscope $end
";

#[test]
fn a_scope_opened_again(rt: HostRuntime) {
    check(&rt, rt.alloc(), &["u.a", "b", "u.c"], OPENED_AGAIN);
}

#[test]
fn a_writer_that_fails_at_each_byte(rt: HostRuntime) {
    for place in 0..OPENED_AGAIN.len() {
        let mut device = Device::new(Failing::new(Vec::new(rt.alloc()), place));
        let result = write_scopes(&mut device, &["u.a", "b", "u.c"]);
        equal(&rt, place, result, Err(place as u64));
        equal(
            &rt,
            "bytes that arrived",
            device.inner.inner.as_slice(),
            &OPENED_AGAIN[..place],
        );
    }
}
