//! The program gaterace: two editors commit the edits of a script to one design while viewers look at it.
#![tactic(auto)]

mod arguments;
mod command_line;
mod commit;
mod complaint;
mod ending;
mod hand;
mod help;
mod lines;
mod look;
mod race;
mod refusal;
mod script;
mod settled;
mod start;
mod submit;
mod take_turns;
mod tally;
mod threads;

use arguments::Args;
use complaint::StartFault;
use devices::Device;
use ending::ending;
use lexing::MAX_TEXT;
use programs::{
    Breakdown, all_bytes_of, break_off, first_bytes_of, keep_freed_memory, stop, text_of,
};
use std::alloc::Global;
use std::env;
use std::fs::File;
use std::process::ExitCode;
use std::rt::Files;

fn main(rt: HostRuntime) -> ExitCode {
    keep_freed_memory(rt.alloc());
    let mut output = Device::new(rt.stdout());
    let mut errors = Device::new(rt.stderr());
    let status = match start::asked(rt.alloc(), env::args(&rt)) {
        Ok(args) => match texts(&rt, rt.alloc(), &args) {
            Ok((design, script)) => {
                let end = race::race(&rt, rt.alloc(), &args, design.as_slice(), script.as_slice());
                ending(&end, &mut output, &mut errors)
            }
            Err(breakdown) => break_off(breakdown, &mut errors),
        },
        Err(StartFault::Refused(complaint)) => {
            stop("gaterace", &complaint, &mut output, &mut errors)
        }
        Err(StartFault::OutOfMemory) => break_off(Breakdown::OutOfMemory, &mut errors),
    };
    ExitCode::from(status)
}

// The texts of the design and of the script. Of a design over its limit as much is read as it takes to refuse it.
fn texts(rt: &impl Files, alloc: Global, args: &Args) -> Result<(Vec<u8>, Vec<u8>), Breakdown> {
    let design = File::open(rt, args.design.as_str());
    let design = text_of(first_bytes_of(alloc, design, MAX_TEXT + 1))?;
    let script = text_of(all_bytes_of(alloc, File::open(rt, args.script.as_str())))?;
    Ok((design, script))
}
