//! The places of jobs, each for the outcome of its job.

ghost use Rattle.std.specs.Prelude.{[], ◌≡◌, ◌<◌, ◌≤◌, ◌++◌, length, vec_len, vec_capacity, All, IfOk};
ghost use Rattle.std.specs.List.{AllZip, flat_map};
ghost use Rattle.parstep.specs.kept.Jobs.{IsFilled, Holds, asked_in};

use gatestep::{Outcome, Serial, Stepper};
use std::alloc::{AllocError, Global};

/// So many places, with nothing in them.
pub fn empty_places<T: Drop>(
    alloc: Global,
    count: usize,
) -> Result<Vec<Option<Outcome<T>>>, AllocError>
    ensures { IfOk result (λ places. vec_len places ≡ count) }
{
    let mut places = Vec::with_capacity(alloc, count)?;
    for _ in 0..count {
        places.push(None)?;
    }
    Ok(places)
}

/// Counts as asked all that was asked by the outcomes, place after place. Nothing is evaluated.
pub fn record_all<T>(alone: &mut Serial, places: &[Option<Outcome<T>>])
    requires { All IsFilled places.now }
    ensures { ⟦<Serial as Stepper>⟧.asked alone.new ≡ ⟦<Serial as Stepper>⟧.asked alone.old ++ flat_map asked_in places.now }
{
    for place in places {
        if let Some(outcome) = place {
            alone.append(&outcome.record);
        }
    }
}

/// The outputs of the outcomes, place after place, in a list that has room for them. It fails where there is none in a place,
/// since memory ran out there.
pub fn outputs_of<T: Drop>(
    places: Vec<Option<Outcome<T>>>,
    room: Vec<T>,
) -> Result<Vec<T>, AllocError>
    requires filled { All IsFilled places.items }
    requires empty { room.items ≡ [] }
    requires fits { vec_len places ≤ vec_capacity room }
    ensures { IfOk result (λ outputs. AllZip Holds places.items outputs.items) }
{
    let mut outputs = room;
    for place in places {
        let Some(outcome) = place else {
            unreachable!();
        };
        let output = outcome.output?;
        if outputs.push(output).is_err() {
            unreachable!();
        }
    }
    Ok(outputs)
}
