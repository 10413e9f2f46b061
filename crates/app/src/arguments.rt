//! What the words after the program's name ask for.

ghost use Rattle.std.specs.Prelude.{◌≡◌, ◌≤◌, IfOk, IfSome, Err, None, Some, map, option_map, string_bytes};
ghost use Rattle.fourstate.specs.declared.limits.TheConstants.{MAX_DELAY, MAX_TIME};
ghost use Rattle.app.specs.Arguments.{asked, delay_given, horizon_given, workers_given};

use crate::command_line::parse;
use crate::numbers::{delay_of, horizon_of, workers_of};
use std::alloc::{AllocError, Global};
use std::convert::AsStr;
use thiserror::Error;

/// The horizon where none is given.
pub const DEFAULT_HORIZON: u64 = 1000;

/// The number of workers where none is given.
pub const DEFAULT_WORKERS: u32 = 1;

/// What the words ask for.
#[derive(Debug, Drop)]
pub struct Args {
    /// The name of the file that holds the design text.
    pub design: String,
    /// The last moment of the simulation, in time units: 0 to `MAX_TIME`.
    pub horizon: u64,
    /// How many workers there are: 1 to `MAX_WORKERS`.
    pub workers: u32,
    /// The delay of gates that the design text writes without one, in time units: 1 to `MAX_DELAY`.
    pub delay: Option<u32>,
    ghost some: { 1 ≤ workers },
    ghost few: { workers ≤ 64 },
}

/// Why the words ask for nothing.
#[derive(Clone, Copy, Debug, PartialEq, Eq, Error)]
pub enum ArgsFault {
    /// The words are not of the form, or ask for help or for the version.
    #[error("the command line was refused")]
    Refused = 1,
    /// An allocation was refused.
    #[error("out of memory")]
    OutOfMemory = 2,
}

const _: () = prove!(ArgsFault::Refused as u8 == 1 && ArgsFault::OutOfMemory as u8 == 2);

impl From<AllocError> for ArgsFault {
    ghost use Rattle.std.specs.Prelude.{◌≡◌};
    ghost use Rattle.app.specs.declared.arguments.ArgsFault.TheVariants.{OutOfMemory};

    ghost from_gives = { λ _ fault. fault ≡ OutOfMemory };

    fn from(_error: AllocError) -> ArgsFault {
        ArgsFault::OutOfMemory
    }
}

impl From<clap::Error> for ArgsFault {
    ghost use Rattle.std.specs.Prelude.{◌≡◌};
    ghost use Rattle.clap.specs.Words.{kind_of};
    ghost use Rattle.app.specs.kept.ArgsFaults.{fault_of_kind};

    ghost from_gives = { λ error fault. fault ≡ fault_of_kind (kind_of error) };

    fn from(error: clap::Error) -> ArgsFault {
        match error.kind() {
            clap::error::ErrorKind::OutOfMemory => ArgsFault::OutOfMemory,
            _ => ArgsFault::Refused,
        }
    }
}

// The horizon of the entry, or the usual one.
fn given_horizon(text: Option<&str>) -> Option<u64>
    ensures given { result ≡ horizon_given (option_map (λ t. t.now) text.entry) }
    ensures within { IfSome result (λ horizon. horizon ≤ MAX_TIME) }
{
    match text {
        Some(text) => horizon_of(text),
        None => Some(DEFAULT_HORIZON),
    }
}

// The number of workers of the entry, or the usual one.
fn given_workers(text: Option<&str>) -> Option<u32>
    ensures given { result ≡ workers_given (option_map (λ t. t.now) text.entry) }
    ensures some { IfSome result (λ workers. 1 ≤ workers) }
    ensures few { IfSome result (λ workers. workers ≤ 64) }
{
    match text {
        Some(text) => workers_of(text),
        None => Some(DEFAULT_WORKERS),
    }
}

// The delay of the entry, if there is one.
fn given_delay(text: Option<&str>) -> Option<Option<u32>>
    ensures given { result ≡ delay_given (option_map (λ t. t.now) text.entry) }
    ensures within { IfSome result (λ given. IfSome given (λ delay. delay ≤ MAX_DELAY)) }
{
    match text {
        Some(text) => match delay_of(text) {
            Some(delay) => Some(Some(delay)),
            None => None,
        },
        None => Some(None),
    }
}

/// Reads the words after the program's name: DESIGN, and `--horizon H`, `--workers N` and `--delay D`, each at most once and
/// also as `--horizon=H`, where H, N and D are digits alone, H is 0 to `MAX_TIME`, N is 1 to `MAX_WORKERS` and D is 1 to
/// `MAX_DELAY`. Words that ask for help or for the version ask for nothing (own).
pub fn options<S: AsStr>(alloc: Global, words: &[S]) -> Result<Args, ArgsFault>
    ensures ok { IfOk result (λ args. asked (map S.text words.now)
        ≡ Some (record { design = string_bytes args.design; horizon = args.horizon; workers = args.workers; delay = args.delay })) }
    ensures horizon { IfOk result (λ args. args.horizon ≤ MAX_TIME) }
    ensures delay { IfOk result (λ args. IfSome args.delay (λ delay. delay ≤ MAX_DELAY)) }
    ensures refused { result ≡ Err ArgsFault.Refused → asked (map S.text words.now) ≡ None }
{
    let matches = parse(alloc, words)?;
    let Some(name) = matches.get_str("design") else {
        return Err(ArgsFault::Refused);
    };
    let Some(horizon) = given_horizon(matches.get_str("horizon")) else {
        return Err(ArgsFault::Refused);
    };
    let Some(workers) = given_workers(matches.get_str("workers")) else {
        return Err(ArgsFault::Refused);
    };
    let Some(delay) = given_delay(matches.get_str("delay")) else {
        return Err(ArgsFault::Refused);
    };
    let design = String::from_str(alloc, name)?;
    Ok(Args {
        design,
        horizon,
        workers,
        delay,
    })
}
