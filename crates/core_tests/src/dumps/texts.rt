//! A whole dump.

use crate::benches::opened::open;
use crate::compare::equal;
use bench::Snapshot;
use devices::Device;
use std::alloc::Global;
use std::process::Abort;
use vcd::write;

/// A buffer and its input.
pub const BUFFER: [&str; 7] = [
    "input a",
    "net y wire",
    "gate g buf 3 3 y a",
    "stim a 0 0",
    "stim a 10 1",
    "stim a 13 0",
    "horizon 100",
];

pub const BUFFER_DUMP: &[u8] = b"$version gatebench $end
$timescale 1 ns $end
$scope module m $end
$var wire 1 ! a $end
$var wire 1 \" y $end
$upscope $end
$enddefinitions $end
#0
$dumpvars
0!
x\"
$end
#3
0\"
#10
1!
#13
0!
1\"
#16
0\"
#100
";

/// The dump of a snapshot is this text.
fn check(rt: &impl Abort, alloc: Global, snapshot: &Snapshot, wanted: &[u8]) {
    let mut device = Device::new(Vec::new(alloc));
    equal(rt, "write", write(snapshot, &mut device), Ok(()));
    equal(rt, "bytes that arrived", device.inner.as_slice(), wanted);
}

#[test]
fn a_buffer(rt: HostRuntime) {
    let bench = open(&rt, rt.alloc(), &BUFFER);
    check(&rt, rt.alloc(), bench.snapshot(), BUFFER_DUMP);
    drop(bench);
}
