//! A hub of two viewers by steppers of one type.

ghost use Rattle.std.specs.Prelude.{◌≡◌};
ghost use Rattle.gatestep.specs.Step.{advance};

use crate::benches::{BUFFER, bench_of};
use crate::report::{Report, Stop, TRIES};
use crate::show::{show_number, show_snapshot};
use crate::submits::{look, submit};
use crate::texts::{Change, Named, edits_of};
use bench::Bench;
use devices::{Sink, Writer};
use edits::Edit;
use fourstate::Value;
use gatestep::{StepFault, Stepper};
use hub::{Editor, Hub, HubFault, HubName, Log, Parts, Viewer};
use std::alloc::Global;
use std::marker::Brand;
use std::sync::Wait;
use std::sync::ledger::Ledger;
use vcd::text;

// No design takes them twice, since they add an input.
const NEW_INPUT: [Named; 2] = [("b", Change::Input), ("a", Change::Point(0, Value::Zero))];

/// A hub that begins, shows one commit and ends.
pub fn all<
    S: Stepper + Drop,
    F: Fn() -> Result<S, StepFault>,
    R: Wait + Eprint + Copy + Drop,
    W: Sink,
>(rt: R, alloc: Global, report: &Report<R>, make: F, out: &mut Writer<'_, W>) -> Result<(), Stop>
    requires answer { S.answer ≡ advance }
    requires make { F.IsAlwaysCallable make }
{
    let edits = edits_of(alloc, report, &NEW_INPUT)?;
    end_hub(rt, alloc, report, make, &edits, out)
}

// Where the hub does not open its bench is gone, so that is made anew.
fn end_hub<
    S: Stepper + Drop,
    F: Fn() -> Result<S, StepFault>,
    R: Wait + Eprint + Copy + Drop,
    W: Sink,
>(
    rt: R,
    alloc: Global,
    report: &Report<R>,
    make: F,
    edits: &[Edit],
    out: &mut Writer<'_, W>,
) -> Result<(), Stop>
    requires answer { S.answer ≡ advance }
    requires make { F.IsAlwaysCallable make }
{
    for _ in 0..TRIES {
        let bench = bench_of(alloc, report, BUFFER, &make)?;
        if is_over(rt, alloc, report, bench, edits, out)? {
            return Ok(());
        }
    }
    Err(Stop::Refused)
}

// Whether a hub of two viewers over this bench opened; then it has ended too, and what both viewers saw over a commit of these
// edits is written.
fn is_over<S: Stepper + Drop, R: Wait + Eprint + Copy + Drop, W: Sink>(
    rt: R,
    alloc: Global,
    report: &Report<R>,
    bench: Bench<S>,
    edits: &[Edit],
    out: &mut Writer<'_, W>,
) -> Result<bool, Stop> {
    match Parts::new(&rt, alloc, bench, 2) {
        Ok(parts) => is_over_by::<Brand, Brand, Brand, S, R, W>(rt, report, parts, edits, out),
        Err(HubFault::OutOfMemory) => {
            report.refused("Parts::new");
            Ok(false)
        }
        Err(_) => Err(Stop::Wrong("Parts::new")),
    }
}

// Whether the hub of these parts opened; then it has ended too.
fn is_over_by<
    J: HubName,
    L: Ledger,
    M: Ledger,
    S: Stepper + Drop,
    R: Wait + Eprint + Copy + Drop,
    W: Sink,
>(
    rt: R,
    report: &Report<R>,
    parts: Parts<S>,
    edits: &[Edit],
    out: &mut Writer<'_, W>,
) -> Result<bool, Stop>
    requires names { (parts.origin ≡ J.origin) × (parts.book ≡ J.book) }
    requires first { (parts.first_name ≡ L.name) × (parts.first_parts ≡ L.parts) }
    requires second { (parts.second_name ≡ M.name) × (parts.second_parts ≡ M.parts) }
{
    match Hub::<J, L, M, S, R>::open(rt, parts) {
        Ok((hub, editors, viewers)) => {
            go(&rt, report, hub, editors, viewers, edits, out)?;
            Ok(true)
        }
        Err(HubFault::OutOfMemory) => {
            report.refused("Hub::open");
            Ok(false)
        }
        Err(_) => Err(Stop::Wrong("Hub::open")),
    }
}

fn go<J: HubName, L: Ledger, M: Ledger, S: Stepper + Drop, R: Wait + Eprint + Copy + Drop, W: Sink>(
    rt: &R,
    report: &Report<R>,
    hub: Hub<J, L, M, S, R>,
    editors: (Editor<J, L, M>, Editor<J, L, M>),
    viewers: Vec<Viewer<J>>,
    edits: &[Edit],
    out: &mut Writer<'_, W>,
) -> Result<(), Stop>
    requires { (editors.0.number ≡ 0) × (editors.1.number ≡ 1) }
{
    let (mut editor, other) = editors;
    let mut viewers = viewers;
    let end = watch(rt, report, &hub, &mut editor, &mut viewers, edits, out);
    let log = hub.close((editor, other));
    if end.is_ok() {
        show_log(out, &log);
    }
    end
}

// The log of a hub that has ended.
fn show_log<J: HubName, W: Sink>(out: &mut Writer<'_, W>, log: &Log<J>) {
    for entry in &log.commits {
        out.text(b"editor ");
        out.number(u64::from(entry.editor));
        show_number(out, b", edits: ", entry.edits.len() as u64);
    }
    show_number(out, b"shown: ", u64::from(log.shown));
}

// The first viewer looks, and holds that over a commit. The second one is told of the commit.
fn watch<J: HubName, L: Ledger, M: Ledger, S: Stepper + Drop, R: Wait + Eprint + Drop, W: Sink>(
    rt: &R,
    report: &Report<R>,
    hub: &Hub<J, L, M, S, R>,
    editor: &mut Editor<J, L, M>,
    viewers: &mut Vec<Viewer<J>>,
    edits: &[Edit],
    out: &mut Writer<'_, W>,
) -> Result<(), Stop>
    ensures { editor.new.number ≡ editor.old.number }
{
    let [first, second] = viewers.as_mut_slice() else {
        return Err(Stop::Wrong("Hub::open"));
    };
    let held = look(first)?;
    let receipt = submit(rt, report, hub, editor, first, edits)?;
    second.learn(receipt);
    show_look(second, out)?;
    show_snapshot(out, &held);
    show_look(first, out)
}

// What a viewer sees, and its dump.
fn show_look<J: HubName, W: Sink>(
    viewer: &mut Viewer<J>,
    out: &mut Writer<'_, W>,
) -> Result<(), Stop> {
    let seen = look(viewer)?;
    show_snapshot(out, &seen);
    text(&seen, out);
    Ok(())
}
