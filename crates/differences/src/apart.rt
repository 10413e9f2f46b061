//! From which moment on two waves differ.

ghost use Rattle.std.specs.Prelude.{◌≡◌};
ghost use Rattle.differences.specs.kept.Apart.{first_apart, up_to};

use waveform::Wave;

/// The first moment up to `end`, in time units, at which two waves have different values. Its cost follows how many changes
/// they begin with alike.
#[tactic(auto, using(crate::proofs::ApartLemmas::first_apart_is))]
pub(crate) fn first_apart(wave: &Wave, other: &Wave, end: u64) -> Option<u64>
    ensures { result ≡ first_apart wave.now other.now end }
{
    up_to(end, wave.parting(other))
}

// A moment, if it is not after `end`.
fn up_to(end: u64, moment: Option<u64>) -> Option<u64>
    ensures { result ≡ up_to end moment }
{
    match moment {
        Some(time) => { if time <= end { Some(time) } else { None } }
        None => None,
    }
}
