//! The commands that change stimulus and horizon, and the moments, delays and values of lines. Each command is read behind its first
//! word; none where the words are unreadable.

ghost use Rattle.std.specs.Prelude.{◌≡◌, ◌<◌, IfSome, MatchOption, length, position};
ghost use Rattle.session.specs.EditLines.{delays_of, horizon_edit, stim_edit, times_of, unstim_edit};
ghost use Rattle.session.specs.Words.{is_slash, name_and_time, value_of};

use crate::commands::edit_line::EditLine;
use crate::words::{WordRef, Words, number};
use fourstate::{DelayTimes, Value};

/// `stim N T V`.
pub fn read_stim(words: Words<'_>) -> Option<EditLine<'_>>
    ensures { result ≡ stim_edit words.entry }
{
    let (net, time, value) = words.three()?;
    let time = number(time.as_bytes())?;
    let value = read_value(value.as_bytes())?;
    Some(EditLine::Stim { net, time, value })
}

/// `unstim N T`.
pub fn read_unstim(words: Words<'_>) -> Option<EditLine<'_>>
    ensures { result ≡ unstim_edit words.entry }
{
    let (net, time) = read_name_and_time(words)?;
    Some(EditLine::Unstim { net, time })
}

/// `horizon T`.
pub fn read_horizon(words: Words<'_>) -> Option<EditLine<'_>>
    ensures { result ≡ horizon_edit words.entry }
{
    let time = words.one()?;
    let time = number(time.as_bytes())?;
    Some(EditLine::Horizon { time })
}

/// A name, and a moment in time units.
pub fn read_name_and_time(words: Words<'_>) -> Option<(WordRef<'_>, u64)>
    ensures { result ≡ name_and_time words.entry }
{
    let (net, time) = words.two()?;
    let time = number(time.as_bytes())?;
    Some((net, time))
}

/// Takes `R F` or `R F/Z`, the words of delays, and gives the delays that they write.
pub fn take_delays(words: &mut Words<'_>) -> Option<DelayTimes>
    ensures { MatchOption result (delays_of words.old ≡ None) (λ delays. delays_of words.old ≡ Some (delays, words.new)) }
{
    let rise = number(words.next()?.as_bytes())?;
    let times = read_times(rise, words.next()?.as_bytes())?;
    Some(times)
}

/// The delays of a rise and of the word `F` or `F/Z`, a fall with or without a turn-off delay.
pub fn read_times(rise: u64, word: &[u8]) -> Option<DelayTimes>
    ensures { result ≡ times_of rise word.now }
{
    match slash_place(word) {
        Some(slash) => {
            let fall = number(&word[..slash])?;
            let off = number(&word[slash + 1..])?;
            Some(DelayTimes::new(rise, fall).with_off(off))
        }
        None => {
            let fall = number(word)?;
            Some(DelayTimes::new(rise, fall))
        }
    }
}

fn slash_place(word: &[u8]) -> Option<usize>
    ensures place { result ≡ position is_slash word.now }
    ensures within { IfSome result (λ place. place < length word.now) }
{
    word.iter().position(|byte| is_slash(*byte))
}

/// Whether a byte parts a fall from a turn-off delay.
fn is_slash(byte: u8) -> bool
    ensures { result ≡ is_slash byte }
{
    byte == b'/'
}

/// The value that a word writes: `0`, `1`, `x` or `z`.
pub fn read_value(word: &[u8]) -> Option<Value>
    ensures { result ≡ value_of word.now }
{
    match word {
        [symbol] => Value::from_symbol(*symbol),
        _ => None,
    }
}
