//! What a program does whose words do not start it.

ghost use Rattle.std.specs.Prelude.{◌≡◌, ◌≢◌, ℕ, List, MatchBool, Option, Some};
ghost use Rattle.std.specs.Option.{option_copied};
ghost use Rattle.programs.specs.Endings.{Says, breakdown_line, version_line};
ghost use Rattle.programs.specs.declared.words_fault.WordsFault.{WordsFault};

use crate::fault_lines::Breakdown;
use crate::version::tell_version;
use crate::words_fault::WordsFault;
use devices::Sink;

/// Why the words do not start a program.
pub trait StopCause {
    /// The fault of the words' form, if it is that.
    ghost form_fault: { Self → Option WordsFault };
    /// What is said where the words are refused.
    ghost refusal: { Self → List ℕ };

    /// The fault of the words' form, if it is that.
    fn words_fault(&self) -> Option<&WordsFault>
        ensures { option_copied result ≡ form_fault self.now };

    /// Says on `errors` why the words are refused, and answers the status.
    fn refuse<E: Sink>(&self, errors: &mut E) -> u8
        ensures status { result ≡ 2 }
        ensures text { Says (E.contents errors.old) (E.contents errors.new) (E.failures errors.old) (E.failures errors.new) (refusal self.now) };
}

/// Tells the version of a program where its words ask for that, as `tell_version` does, else why it does not start, and answers
/// the status.
pub fn stop<C: StopCause, W: Sink, E: Sink>(
    program: &str,
    cause: &C,
    output: &mut W,
    errors: &mut E,
) -> u8
    ensures version { C.form_fault cause.now ≡ Some WordsFault.Version
        → (printed : Says (W.contents output.old) (W.contents output.new) (W.failures output.old) (W.failures output.new) (version_line program.now))
        × MatchBool printed.stopped
        (Says (E.contents errors.old) (E.contents errors.new) (E.failures errors.old) (E.failures errors.new) (breakdown_line Breakdown.Write) × (result ≡ 3))
        ((errors.new ≡ errors.old) × (result ≡ 0)) }
    ensures refused { C.form_fault cause.now ≢ Some WordsFault.Version
        → (output.new ≡ output.old) × Says (E.contents errors.old) (E.contents errors.new) (E.failures errors.old) (E.failures errors.new) (C.refusal cause.now)
        × (result ≡ 2) }
{
    match cause.words_fault() {
        Some(WordsFault::Version) => tell_version(program, output, errors),
        _ => cause.refuse(errors),
    }
}
