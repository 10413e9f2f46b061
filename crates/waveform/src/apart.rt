//! Where two waves part, and from where on they are the same again.

ghost use Rattle.std.specs.Prelude.{◌≡◌, ◌≤◌, ◌<◌, ◌-◌, ℕ, false, drop, length, option_map, slice_get, IfSome};
ghost use Rattle.fourstate.specs.Values.{same_value};
ghost use Rattle.waveform.specs.Changes.{wave_at};
ghost use Rattle.waveform.specs.kept.Partings.{ArePartedAtOnce, earlier, parting};

use crate::change::Change;
use crate::timeline::Timeline;
use crate::wave::Wave;
use fourstate::Value;

impl Timeline<Value> {
    /// The first moment, in time units, at which two waves have different values; none where they are the same. Its work follows
    /// how many changes they begin with alike.
    pub fn parting(&self, other: &Wave) -> Option<u64>
        ensures before { (t : ℕ) → IfSome result (λ m. t < m) → wave_at self.now t ≡ wave_at other.now t }
        ensures there { IfSome result (λ m. same_value (wave_at self.now m) (wave_at other.now m) ≡ false) }
    {
        let _mine = self.last();
        let _theirs = other.last();
        first_apart(self.changes(), other.changes())
    }

    /// A moment, in time units, from which on two waves have the same values: that of the first of the changes that both end with;
    /// none is found where they end with different ones. Its work follows how many these are.
    pub fn meeting(&self, other: &Wave) -> Option<u64>
        ensures { IfSome result (λ m. (t : ℕ) → m ≤ t → wave_at self.now t ≡ wave_at other.now t) }
    {
        let mine = self.changes();
        let count = common_end(mine, other.changes());
        if count == 0 {
            return None;
        }
        Some(mine[mine.len() - count].time())
    }
}

// The moment of the first change that not both lists have.
fn first_apart(changes: &[Change], other: &[Change]) -> Option<u64>
    ensures { result ≡ parting changes.now other.now }
{
    let count = common_count(changes, other);
    let first = time_at(changes, count);
    let second = time_at(other, count);
    earlier(first, second)
}

// How many changes both lists begin with.
fn common_count(changes: &[Change], other: &[Change]) -> usize
    ensures alike { parting changes.now other.now ≡ parting (drop result changes.now) (drop result other.now) }
    ensures parted { ArePartedAtOnce (drop result changes.now) (drop result other.now) }
{
    let end = changes.len().min(other.len());
    for place in 0..end {
        if changes[place] != other[place] {
            return place;
        }
    }
    end
}

// The moment of the change at a place, if there is one.
fn time_at(changes: &[Change], place: usize) -> Option<u64>
    ensures { result ≡ option_map (λ change. change.0) (slice_get changes.now place) }
{
    match changes.get(place) {
        Some(change) => Some(change.time()),
        None => None,
    }
}

// The earlier of two moments, where there are two.
fn earlier(first: Option<u64>, second: Option<u64>) -> Option<u64>
    ensures { result ≡ earlier first second }
{
    match first {
        None => second,
        Some(time) => match second {
            None => Some(time),
            Some(another) => Some(time.min(another)),
        },
    }
}

// How many changes both lists end with.
fn common_end(changes: &[Change], other: &[Change]) -> usize
    ensures within { result ≤ length changes.now }
    ensures within_other { result ≤ length other.now }
    ensures alike { drop (length changes.now - result) changes.now ≡ drop (length other.now - result) other.now }
{
    let end = changes.len().min(other.len());
    for count in 0..end {
        if changes[changes.len() - 1 - count] != other[other.len() - 1 - count] {
            return count;
        }
    }
    end
}
