//! The program refusals: calls of each layer that take memory, each made again where memory ran out. Whichever allocation is
//! refused, it writes the same bytes: those that `stdout` beside this folder has. With a word behind its name it writes the name of
//! each refused call to the standard error.
#![tactic(auto)]

mod benches;
mod cores;
mod hubs;
mod pool;
mod report;
mod rows;
mod runs;
mod show;
mod steps;
mod submits;
mod tasks;
mod texts;
mod words;

use devices::{Device, Sink, Writer};
use gatestep::Serial;
use pool::open_pool;
use report::{Report, Stop};
use std::alloc::Global;
use std::process::ExitCode;
use std::sync::Wait;
use std::thread::Threads;

fn main(rt: HostRuntime) -> ExitCode {
    let mut output = Device::new(rt.stdout());
    let mut out = Writer::new(&mut output);
    let report = Report::new(rt, words::names_calls(&rt));
    let end = run(rt, rt.alloc(), &report, &mut out);
    let sent = out.flush();
    let _output = out.finish();
    match (end, sent) {
        (Ok(()), Ok(())) => ExitCode::from(0),
        (Err(Stop::Refused), _) => ExitCode::from(3),
        (Err(Stop::Wrong(call)), _) => {
            report.wrong(call);
            ExitCode::from(1)
        }
        (_, Err(_)) => ExitCode::from(4),
    }
}

fn run<R: Threads + Wait + Eprint + Copy + Drop + Send + Sync + 'static, W: Sink>(
    rt: R,
    alloc: Global,
    report: &Report<R>,
    out: &mut Writer<'_, W>,
) -> Result<(), Stop> {
    cores::all(alloc, report, out)?;
    steps::all(rt, alloc, report, out)?;
    rows::all(alloc, report, || Ok(Serial::new()), out)?;
    hubs::all(rt, alloc, report, || Ok(Serial::new()), out)?;
    rows::all(alloc, report, move || open_pool(rt, alloc), out)?;
    hubs::all(rt, alloc, report, move || open_pool(rt, alloc), out)
}
