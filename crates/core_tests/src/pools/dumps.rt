//! Dumps of one design by steppers in several threads: the bytes are those of one thread.

ghost use Rattle.std.specs.Prelude.{◌≡◌, ◌<◌, ◌≤◌};
ghost use Rattle.gatestep.specs.Step.{advance};
ghost use Rattle.parstep.specs.declared.limits.TheConstants.{MAX_WORKERS};

use crate::compare::equal;
use crate::edit_lists::edit_lines::{design_of, edit};
use bench::Bench;
use devices::Device;
use edits::Edit;
use gatestep::{Serial, Stepper};
use parstep::{Bulk, Parallel, Pool, Quiet};
use std::alloc::Global;
use std::process::Abort;
use std::sync::Wait;
use std::thread::Threads;
use vcd::write;

/// Gates that read the one input, each with a delay of its own or all with the delay 1.
#[derive(Clone, Copy)]
struct Gates {
    count: u64,
    has_own_delays: bool,
}

/// The edits that add gates from a number on, at most so many.
fn gate_edits(rt: &impl Abort, alloc: Global, wanted: Gates, from: u64, most: u64) -> Vec<Edit> {
    let mut edits = Vec::new(alloc);
    for n in from..wanted.count.min(from.saturating_add(most)) {
        let delay = if wanted.has_own_delays {
            n.saturating_add(1)
        } else {
            1
        };
        let net = format!(in alloc; "net y{n} wire").expect(rt, "a line");
        edits
            .push(edit(rt, alloc, net.as_str()))
            .expect(rt, "one edit more");
        let gate = format!(in alloc; "gate g{n} not {delay} {delay} y{n} a").expect(rt, "a line");
        edits
            .push(edit(rt, alloc, gate.as_str()))
            .expect(rt, "one edit more");
    }
    edits
}

/// The dump of the gates, of which 2,048 at most are added in a commit.
fn dump<S: Stepper + Drop>(rt: &impl Abort, alloc: Global, wanted: Gates, stepper: S) -> Vec<u8>
    requires { S.answer ≡ advance }
{
    let start = design_of(
        rt,
        alloc,
        &["input a", "stim a 0 0", "stim a 50 1", "horizon 100"],
    );
    let mut bench = Bench::open(alloc, start, stepper).expect(rt, "a bench");
    for round in 0..2 {
        let edits = gate_edits(rt, alloc, wanted, round * 2_048, 2_048);
        assert!(rt; bench.commit(&edits).is_ok());
        drop(edits);
    }
    let mut device = Device::new(Vec::new(alloc));
    equal(rt, "write", write(bench.snapshot(), &mut device), Ok(()));
    drop(bench);
    device.inner
}

fn check_pool<R: Threads + Wait + Abort + Copy + Drop + Send + 'static>(
    rt: R,
    alloc: Global,
    gates: Gates,
    workers: u32,
    wanted: &[u8],
)
    requires some { 0 < workers }
    requires few { workers ≤ MAX_WORKERS }
{
    let pool = Pool::open(rt, alloc, workers, Quiet).expect(&rt, "a pool");
    let bytes = dump(&rt, alloc, gates, pool);
    equal(&rt, "bytes", bytes.as_slice(), wanted);
}

/// All steppers give the bytes of `Serial`.
fn compare<R: Threads + Wait + Abort + Copy + Drop + Send + Sync + 'static>(
    rt: R,
    alloc: Global,
    gates: Gates,
) -> Vec<u8> {
    let wanted = dump(&rt, alloc, gates, Serial::new());
    let bytes = dump(&rt, alloc, gates, Bulk::open(rt, alloc));
    equal(&rt, "bytes", bytes.as_slice(), wanted.as_slice());
    check_pool(rt, alloc, gates, 1, wanted.as_slice());
    check_pool(rt, alloc, gates, 2, wanted.as_slice());
    check_pool(rt, alloc, gates, 64, wanted.as_slice());
    let bytes = dump(&rt, alloc, gates, Parallel::open(rt, 2));
    equal(&rt, "bytes", bytes.as_slice(), wanted.as_slice());
    wanted
}

/// How often a part stands in a text.
fn times(rt: &impl Abort, text: &[u8], part: &[u8]) -> usize {
    assert!(rt; part.len() > 0);
    text.windows(part.len()).filter(|w| *w == part).count()
}

/// A part stands so often in a text.
fn check_times(rt: &impl Abort, text: &[u8], part: &[u8], count: usize) {
    equal(rt, part, times(rt, text, part), count);
}

// The codes of the input and of the first and last nets are `!`, `"` and `~`, those of the two last nets `~` and `!!`.
#[test]
fn ninety_five_nets_that_move(rt: HostRuntime) {
    let gates = Gates {
        count: 94,
        has_own_delays: true,
    };
    let bytes = compare(rt, rt.alloc(), gates);
    let text = bytes.as_slice();
    check_times(
        &rt,
        text,
        b"$var wire 1 ~ y92 $end\n$var wire 1 !! y93 $end\n",
        1,
    );
    check_times(&rt, text, b"\n#1\n1\"\n#2\n1#\n#3\n1$\n", 1);
    check_times(&rt, text, b"\n#50\n1!\n1S\n#51\n0\"\n#52\n0#\n", 1);
    check_times(&rt, text, b"\n#100\n0S\n", 1);
    drop(bytes);
}

// Each net is 1 at moment 1 and 0 at moment 51; the input is 0 at first and 1 at 50.
#[test]
fn gates_that_read_one_input(rt: HostRuntime) {
    let gates = Gates {
        count: 4_096,
        has_own_delays: false,
    };
    let bytes = compare(rt, rt.alloc(), gates);
    let text = bytes.as_slice();
    check_times(&rt, text, b"\n1", 4_097);
    check_times(&rt, text, b"\n0", 4_097);
    check_times(&rt, text, b"\n#1\n1\"\n", 1);
    check_times(&rt, text, b"\n#50\n1!\n#51\n0\"\n", 1);
    drop(bytes);
}
