//! What the words after the program's name ask for.

ghost use Rattle.std.specs.Prelude.{◌≡◌, IfErr, IfOk, Some, map, option_map, string_bytes};
ghost use Rattle.racer.specs.Arguments.{arguments_by, asked};
ghost use Rattle.clap.specs.Words.{HasKind, Kinds};
ghost use Rattle.racer.specs.Complaints.{StopsBy};
ghost use Rattle.racer.specs.kept.Complaints.{IsRefusedAmong, StopsValues};
ghost use Rattle.racer.specs.Numbers.{looks_of_text, viewers_of_text};

use crate::command_line::parse;
use crate::complaint::{Complaint, Place, StartFault};
use clap::Error;
use hub::MAX_VIEWERS;
use programs::{fault_of_form, number_of};
use std::alloc::Global;
use std::convert::AsStr;

/// The most looks of a viewer.
pub const MAX_LOOKS: u32 = 1_000_000;

/// What the words ask for.
#[derive(Debug, Drop)]
pub struct Args {
    /// The name of the file that holds the design text.
    pub design: String,
    /// The name of the file that holds the script.
    pub script: String,
    /// How many viewers there are: 1 to `MAX_VIEWERS`.
    pub viewers: u32,
    /// How often each viewer looks: 1 to `MAX_LOOKS`.
    pub looks: u32,
}

// The number of viewers that a text writes: digits alone, and a number of 1 to `MAX_VIEWERS`.
fn viewers_of(text: &str) -> Option<u32>
    ensures { result ≡ viewers_of_text text.now }
{
    match number_of(text, 1, u64::from(MAX_VIEWERS)) {
        Some(viewers) => Some(viewers as u32),
        None => None,
    }
}

// The number of looks that a text writes: digits alone, and a number of 1 to `MAX_LOOKS`.
fn looks_of(text: &str) -> Option<u32>
    ensures { result ≡ looks_of_text text.now }
{
    match number_of(text, 1, u64::from(MAX_LOOKS)) {
        Some(looks) => Some(looks as u32),
        None => None,
    }
}

/// Reads the words after the program's name: DESIGN SCRIPT VIEWERS LOOKS, where VIEWERS and LOOKS are digits alone, VIEWERS
/// is 1 to `MAX_VIEWERS` and LOOKS is 1 to `MAX_LOOKS`. Words that ask for help or for the version ask for nothing (own).
pub fn arguments<S: AsStr>(alloc: Global, words: &[S]) -> Result<Args, StartFault>
    ensures ok { IfOk result (λ args. asked (map S.text words.now)
        ≡ Some (record { design = string_bytes args.design; script = string_bytes args.script; viewers = args.viewers; looks = args.looks })) }
    ensures stopped { IfErr result (StopsBy (map S.text words.now)) }
{
    match parse(alloc, words) {
        Ok(matches) => arguments_of(
            alloc,
            matches.get_str("design"),
            matches.get_str("script"),
            matches.get_str("viewers"),
            matches.get_str("looks"),
        ),
        Err(error) => Err(refused(alloc, &error)),
    }
}

// What the four words ask for that `clap` found.
fn arguments_of(
    alloc: Global,
    design: Option<&str>,
    script: Option<&str>,
    viewers: Option<&str>,
    looks: Option<&str>,
) -> Result<Args, StartFault>
    ensures ok { IfOk result (λ args. arguments_by (option_map (λ t. t.now) design.entry) (option_map (λ t. t.now) script.entry) (option_map (λ t. t.now) viewers.entry) (option_map (λ t. t.now) looks.entry)
        ≡ Some (record { design = string_bytes args.design; script = string_bytes args.script; viewers = args.viewers; looks = args.looks })) }
    ensures stopped { IfErr result (StopsValues (option_map (λ t. t.now) design.entry) (option_map (λ t. t.now) script.entry) (option_map (λ t. t.now) viewers.entry) (option_map (λ t. t.now) looks.entry)) }
{
    let Some(design) = design else {
        return Err(StartFault::Refused(Complaint::Missing(Place::Design)));
    };
    let Some(script) = script else {
        return Err(StartFault::Refused(Complaint::Missing(Place::Script)));
    };
    let Some(viewers) = viewers else {
        return Err(StartFault::Refused(Complaint::Missing(Place::Viewers)));
    };
    let Some(looks) = looks else {
        return Err(StartFault::Refused(Complaint::Missing(Place::Looks)));
    };
    arguments_in(alloc, design, script, viewers, looks)
}

fn arguments_in(
    alloc: Global,
    design: &str,
    script: &str,
    viewers: &str,
    looks: &str,
) -> Result<Args, StartFault>
    ensures ok { IfOk result (λ args. arguments_by (Some design.now) (Some script.now) (Some viewers.now) (Some looks.now)
        ≡ Some (record { design = string_bytes args.design; script = string_bytes args.script; viewers = args.viewers; looks = args.looks })) }
    ensures stopped { IfErr result (StopsValues (Some design.now) (Some script.now) (Some viewers.now) (Some looks.now)) }
{
    let Some(viewers) = viewers_of(viewers) else {
        let text = String::from_str(alloc, viewers)?;
        return Err(StartFault::Refused(Complaint::Viewers(text)));
    };
    let Some(looks) = looks_of(looks) else {
        let text = String::from_str(alloc, looks)?;
        return Err(StartFault::Refused(Complaint::Looks(text)));
    };
    let design = String::from_str(alloc, design)?;
    let script = String::from_str(alloc, script)?;
    Ok(Args {
        design,
        script,
        viewers,
        looks,
    })
}

// Why words do not start the program that `clap` refuses by this error.
fn refused(alloc: Global, error: &Error) -> StartFault
    ensures { (kinds : Kinds) → HasKind kinds error.now → IsRefusedAmong kinds result }
{
    match fault_of_form(alloc, error) {
        Ok(fault) => StartFault::Refused(Complaint::Words(fault)),
        Err(_) => StartFault::OutOfMemory,
    }
}
