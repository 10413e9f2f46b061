//! A session over the file, the horizon and the workers that were asked for.

ghost use Rattle.std.specs.Prelude.{◌≡◌, Err, IfErr, IfOk};
ghost use Rattle.std.specs.IoError.{error_kind};
ghost use Rattle.session.specs.Opening.{IsOpeningFault};
ghost use Rattle.session.specs.Outcomes.{Ran};
ghost use Rattle.session.specs.Traffic.{sink_traffic, source_traffic};
ghost use Rattle.app.specs.Start.{options_of, unread_fault};

use crate::arguments::{Args, DEFAULT_WORKERS};
use crate::program::Program;
use crate::start::unread;
use devices::{Sink, Source};
use gatestep::Serial;
use parstep::Parallel;
use session::{Options, SessionFault};
use std::io;
use std::random::RandomSource;
use std::sync::Wait;
use std::thread::Threads;

/// Answers the lines of the source on the sink, for the design that a file spells. `file` is what the reading of it gave; a
/// file that can't be read is a failed read (own). Any number of workers gives the same answers.
pub fn run_session<
    T: AllocGlobal + RandomSource + Threads + Wait + Copy + Drop + Sync,
    R: Source,
    W: Sink,
>(
    rt: &T,
    program: Program,
    file: &io::Result<Vec<u8>>,
    args: &Args,
    source: &mut R,
    sink: &mut W,
) -> Result<(), SessionFault>
    // A file that can't be read is told, and the devices are left alone.
    ensures unread { IfErr file.now (λ error. (result ≡ Err (unread_fault (error_kind error))) × (source.new ≡ source.old) × (sink.new ≡ sink.old)) }
    ensures ran { IfOk file.now (λ text. Ran text.items (options_of program args.now)
        (source_traffic R.remaining R.taken R.failures source.old source.new)
        (sink_traffic W.contents W.failures sink.old sink.new) result) }
    // A session that does not open touches neither device.
    ensures unopened { IfOk file.now (λ text. IfErr result (λ fault. IsOpeningFault fault → (source.new ≡ source.old) × (sink.new ≡ sink.old))) }
{
    match file {
        Ok(text) => run_text(rt, program, text.as_slice(), args, source, sink),
        Err(error) => Err(unread(error)),
    }
}

// The session over the text. One worker starts no thread.
fn run_text<
    T: AllocGlobal + RandomSource + Threads + Wait + Copy + Drop + Sync,
    R: Source,
    W: Sink,
>(
    rt: &T,
    program: Program,
    text: &[u8],
    args: &Args,
    source: &mut R,
    sink: &mut W,
) -> Result<(), SessionFault>
    ensures ran { Ran text.now (options_of program args.now)
        (source_traffic R.remaining R.taken R.failures source.old source.new)
        (sink_traffic W.contents W.failures sink.old sink.new) result }
    ensures unopened { IfErr result (λ fault. IsOpeningFault fault → (source.new ≡ source.old) × (sink.new ≡ sink.old)) }
{
    let options = Options {
        horizon: args.horizon,
        delay: args.delay,
        tools: program.is_tool(),
    };
    if args.workers <= DEFAULT_WORKERS {
        return session::run(rt, rt.alloc(), text, &options, source, sink, Serial::new());
    }
    let stepper = Parallel::open(*rt, args.workers);
    session::run(rt, rt.alloc(), text, &options, source, sink, stepper)
}
