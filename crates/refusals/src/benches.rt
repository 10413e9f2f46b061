//! Commits to benches, and a snapshot that is held over them.

ghost use Rattle.std.specs.Prelude.{◌≡◌};
ghost use Rattle.gatestep.specs.Step.{advance};

use crate::pool::stepper_of;
use crate::report::{Report, Stop, TRIES};
use crate::show::show_snapshot;
use crate::texts::{Change, Named, design_of, edits_of};
use bench::{Bench, CommitFault, Snapshot};
use devices::{Sink, Writer};
use edits::{Edit, EditFault};
use fourstate::Value;
use gatestep::{StepFault, Stepper};
use std::alloc::Global;
use std::sync::Arc;
use vcd::text;

/// A gate that takes 3 to follow its input.
pub const BUFFER: &[u8] = b"module m(a,y); input a; output y; buf #(3,3) g(y,a); endmodule";

/// Two gates in a module that stands in another one.
pub const TWO_MODULES: &[u8] =
    b"module h(p,q); input p; output q; wire t; not #1 g(t,p); not #1 g2(q,t); endmodule module m(a,y); input a; output y; h u(a,y); endmodule";

/// A commit, and the reply to it.
pub struct Commit {
    changes: &'static [Named],
    reply: Result<u64, CommitFault>,
}

/// Commits to the buffer, of which one is refused for its third edit.
pub const REFUSED_BATCH: [Commit; 3] = [
    Commit {
        changes: &[
            ("a", Change::Point(0, Value::Zero)),
            ("a", Change::Point(10, Value::One)),
            ("a", Change::Point(12, Value::Zero)),
        ],
        reply: Ok(1),
    },
    Commit {
        changes: &[
            ("a", Change::Point(20, Value::One)),
            ("a", Change::Point(25, Value::Zero)),
            ("g", Change::Delay(0)),
            ("a", Change::Point(30, Value::One)),
        ],
        reply: Err(CommitFault::Edit(2, EditFault::ZeroDelay)),
    },
    Commit {
        changes: &[
            ("a", Change::Point(20, Value::One)),
            ("a", Change::Point(25, Value::Zero)),
        ],
        reply: Ok(2),
    },
];

/// A commit to the two modules.
pub const ONE_POINT: [Commit; 1] = [Commit {
    changes: &[("a", Change::Point(0, Value::One))],
    reply: Ok(1),
}];

/// A bench of the design that a text spells. Where it is refused its design and its stepper are gone, so both are made anew.
pub fn bench_of<S: Stepper + Drop, F: Fn() -> Result<S, StepFault>>(
    alloc: Global,
    report: &Report<impl Eprint>,
    text: &[u8],
    make: F,
) -> Result<Bench<S>, Stop>
    requires answer { S.answer ≡ advance }
    requires make { F.IsAlwaysCallable make }
{
    for _ in 0..TRIES {
        let design = design_of(alloc, report, text)?;
        let stepper = stepper_of(report, &make)?;
        match Bench::open(alloc, design, stepper) {
            Ok(bench) => return Ok(bench),
            Err(StepFault::OutOfMemory) => report.refused("Bench::open"),
            Err(StepFault::WorkerLost) => return Err(Stop::Wrong("Bench::open")),
        }
    }
    Err(Stop::Refused)
}

// The snapshot of a bench, with one owner more, which takes no memory.
fn held<S: Stepper + Drop>(bench: &Bench<S>) -> Result<Arc<Snapshot>, Stop> {
    match Arc::try_clone(bench.snapshot()) {
        Ok(held) => Ok(held),
        Err(_) => Err(Stop::Wrong("snapshot")),
    }
}

// Whether two snapshots have one version, and the same waves in order.
fn is_same(one: &Snapshot, other: &Snapshot) -> bool {
    let nets = one.design().net_count();
    if one.version() != other.version() || nets != other.design().net_count() {
        return false;
    }
    for place in 0..nets {
        if one.wave_at(place).changes() != other.wave_at(place).changes() {
            return false;
        }
    }
    true
}

// Makes a commit again until memory does not run out. The bench has the snapshot from before wherever it is refused.
fn commit_again<S: Stepper + Drop>(
    report: &Report<impl Eprint>,
    bench: &mut Bench<S>,
    before: &Snapshot,
    edits: &[Edit],
    wanted: Result<u64, CommitFault>,
) -> Result<(), Stop> {
    for _ in 0..TRIES {
        let reply = bench.commit(edits);
        if reply.is_err() && !is_same(bench.snapshot(), before) {
            return Err(Stop::Wrong("commit"));
        }
        if reply == wanted {
            return Ok(());
        }
        if reply != Err(CommitFault::OutOfMemory) {
            return Err(Stop::Wrong("commit"));
        }
        report.refused("commit");
    }
    Err(Stop::Refused)
}

fn make_commit<S: Stepper + Drop>(
    alloc: Global,
    report: &Report<impl Eprint>,
    bench: &mut Bench<S>,
    commit: &Commit,
) -> Result<(), Stop> {
    let edits = edits_of(alloc, report, commit.changes)?;
    let before = held(bench)?;
    commit_again(report, bench, &before, &edits, commit.reply)
}

// Makes the commits one after another, and shows the snapshot from before them, the last one, and its dump.
fn show_commits<S: Stepper + Drop, R: Eprint, W: Sink>(
    alloc: Global,
    report: &Report<R>,
    bench: &mut Bench<S>,
    first: &Snapshot,
    commits: &[Commit],
    out: &mut Writer<'_, W>,
) -> Result<(), Stop> {
    for commit in commits {
        make_commit(alloc, report, bench, commit)?;
    }
    show_snapshot(out, first);
    show_snapshot(out, bench.snapshot());
    text(bench.snapshot(), out);
    Ok(())
}

/// Makes the commits to a bench, and shows its first and its last snapshot.
pub fn end_bench<S: Stepper + Drop, R: Eprint, W: Sink>(
    alloc: Global,
    report: &Report<R>,
    bench: Bench<S>,
    commits: &[Commit],
    out: &mut Writer<'_, W>,
) -> Result<(), Stop> {
    let mut bench = bench;
    let first = held(&bench)?;
    show_commits(alloc, report, &mut bench, &first, commits, out)
}
