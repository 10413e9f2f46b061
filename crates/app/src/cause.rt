//! Why the words are refused, by the definition that refuses them.

ghost use Rattle.std.specs.Prelude.{◌≡◌, IfOk, None, map, option_map};
ghost use Rattle.app.specs.Arguments.{arguments_of, asked, delay_given, horizon_given, workers_given};
ghost use Rattle.app.specs.Complaints.{Explains, IsValueFault};

use crate::command_line::parse;
use crate::complaint::Complaint;
use crate::numbers::{horizon_of, workers_of};
use programs::fault_of_form;
use std::alloc::{AllocError, Global};
use std::convert::AsStr;

/// What is wrong with words that ask for nothing: the first fault that `clap` finds, or else DESIGN, H, N and D in this order.
pub fn complaint_of<S: AsStr>(alloc: Global, words: &[S]) -> Result<Complaint, AllocError>
    requires { asked (map S.text words.now) ≡ None }
    ensures { IfOk result (Explains (map S.text words.now)) }
{
    match parse(alloc, words) {
        Ok(matches) => complaint_of_values(
            alloc,
            matches.get_str("design"),
            matches.get_str("horizon"),
            matches.get_str("workers"),
            matches.get_str("delay"),
        ),
        Err(error) => Ok(Complaint::Words(fault_of_form(alloc, &error)?)),
    }
}

// What is wrong with the entries of words that are of the form.
fn complaint_of_values(
    alloc: Global,
    design: Option<&str>,
    horizon: Option<&str>,
    workers: Option<&str>,
    delay: Option<&str>,
) -> Result<Complaint, AllocError>
    requires { arguments_of (option_map (λ t. t.now) design) (horizon_given (option_map (λ t. t.now) horizon)) (workers_given (option_map (λ t. t.now) workers)) (delay_given (option_map (λ t. t.now) delay)) ≡ None }
    ensures { IfOk result (IsValueFault (option_map (λ t. t.now) design.entry) (option_map (λ t. t.now) horizon.entry) (option_map (λ t. t.now) workers.entry) (option_map (λ t. t.now) delay.entry)) }
{
    if design.is_none() {
        return Ok(Complaint::NoDesign);
    }
    if let Some(text) = horizon {
        if horizon_of(text).is_none() {
            return Ok(Complaint::Horizon(String::from_str(alloc, text)?));
        }
    }
    if let Some(text) = workers {
        if workers_of(text).is_none() {
            return Ok(Complaint::Workers(String::from_str(alloc, text)?));
        }
    }
    match delay {
        Some(text) => Ok(Complaint::Delay(String::from_str(alloc, text)?)),
        None => unreachable!(),
    }
}
