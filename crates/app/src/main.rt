//! The programs gatebench and gatetool: a design, commands on standard input, replies on standard output.
#![tactic(auto)]

mod arguments;
mod cause;
mod command_line;
mod complaint;
mod ending;
mod fault_line;
mod help;
mod numbers;
mod program;
mod refusal;
mod session_run;
mod start;

use complaint::StartFault;
use devices::Device;
use lexing::MAX_TEXT;
use programs::{Breakdown, break_off, first_bytes_of, keep_freed_memory, stop};
use refusal::Refusal;
use std::env;
use std::fs::File;
use std::process::ExitCode;

fn main(rt: HostRuntime) -> ExitCode {
    keep_freed_memory(rt.alloc());
    let mut sink = Device::new(rt.stdout());
    let mut errors = Device::new(rt.stderr());
    let program = start::program_of(env::args(&rt));
    let status = match start::asked(rt.alloc(), env::args(&rt)) {
        Ok(args) => {
            // A text over its limit is read as far as it takes to refuse it.
            let design = File::open(&rt, args.design.as_str());
            let file = first_bytes_of(rt.alloc(), design, MAX_TEXT + 1);
            let mut source = Device::new(rt.stdin());
            let outcome = session_run::run_session(
                &rt,
                program,
                &file,
                &args,
                &mut source,
                &mut sink,
            );
            let text = start::design_text(&file);
            ending::ending(&rt, program, text, &args, &outcome, &mut errors)
        }
        Err(StartFault::Refused(complaint)) => {
            let refusal = Refusal { program, complaint };
            stop(program.name(), &refusal, &mut sink, &mut errors)
        }
        Err(StartFault::OutOfMemory) => break_off(Breakdown::OutOfMemory, &mut errors),
    };
    ExitCode::from(status)
}
