//! Dumps over writers that fail.

use super::texts::{BUFFER, BUFFER_DUMP};
use crate::benches::opened::open;
use crate::compare::equal;
use bench::Snapshot;
use devices::Device;
use devices::faulty::{Failing, Pieces};
use std::alloc::Global;
use std::process::Abort;
use vcd::{VcdFault, write};

/// A writer that fails after `place` bytes gets exactly these, all at once or one at a time.
fn check_cut(rt: &impl Abort, alloc: Global, snapshot: &Snapshot, text: &[u8], place: usize) {
    assert!(rt; place <= text.len());
    let wanted = if place == text.len() {
        Ok(())
    } else {
        Err(VcdFault::Write(place as u64))
    };
    let mut device = Device::new(Failing::new(Vec::new(alloc), place));
    equal(rt, "write", write(snapshot, &mut device), wanted);
    equal(
        rt,
        "bytes that arrived",
        device.inner.inner.as_slice(),
        &text[..place],
    );
    let mut device = Device::new(Pieces::new(Failing::new(Vec::new(alloc), place), 1));
    equal(rt, "write", write(snapshot, &mut device), wanted);
    equal(
        rt,
        "bytes that arrived",
        device.inner.inner.inner.as_slice(),
        &text[..place],
    );
}

#[test]
fn a_writer_that_fails_at_each_byte(rt: HostRuntime) {
    let bench = open(&rt, rt.alloc(), &BUFFER);
    for place in 0..BUFFER_DUMP.len() + 1 {
        check_cut(&rt, rt.alloc(), bench.snapshot(), BUFFER_DUMP, place);
    }
    drop(bench);
}

#[test]
fn a_writer_that_fails_after_17_bytes(rt: HostRuntime) {
    let bench = open(&rt, rt.alloc(), &BUFFER);
    let mut device = Device::new(Failing::new(Vec::new(rt.alloc()), 17));
    equal(
        &rt,
        "write",
        write(bench.snapshot(), &mut device),
        Err(VcdFault::Write(17)),
    );
    equal(
        &rt,
        "bytes that arrived",
        device.inner.inner.as_slice(),
        b"$version gatebenc".as_slice(),
    );
    drop(bench);
}
