//! Ranges of vectors (IEEE 1364-2005, 4.3).

ghost use Rattle.std.specs.Prelude.{◌≡◌, ◌<◌, ◌≤◌, ◌^◌, IsTrue};
ghost use Rattle.vtext.specs.Ranges.{distance, index_at, is_within, place_of_bit, width};

/// The greatest bound of a range, and the greatest index (own).
pub const MAX_INDEX: u32 = 65_535;

/// The bits of a vector: from the left bound to the right one, each bound being the index of a bit.
#[derive(Clone, Copy, Debug, PartialEq, Eq)]
pub struct Range {
    pub left: u16,
    pub right: u16,
}

fn distance(a: u16, b: u16) -> usize
    ensures value { result ≡ distance a b }
    ensures most { result < 2 ^ 16 }
{
    if a <= b {
        (b - a) as usize
    } else {
        (a - b) as usize
    }
}

impl Range {
    /// How many bits there are, 1 to 65,536.
    pub fn width(self) -> usize
        ensures value { result ≡ width self }
        ensures most { result ≤ 2 ^ 16 }
    {
        distance(self.left, self.right) + 1
    }

    /// Whether there is a bit of this index.
    pub fn contains(self, index: u16) -> bool
        ensures { result ≡ is_within self index }
    {
        (self.left <= index && index <= self.right) || (self.right <= index && index <= self.left)
    }

    /// The place of the bit of an index, from the left, which is place 0.
    pub fn place(self, index: u16) -> usize
        ensures { result ≡ place_of_bit self index }
    {
        distance(self.left, index)
    }

    /// The index of the bit at a place, from the left.
    pub fn index(self, place: usize) -> u16
        requires { place < width self }
        ensures { result ≡ index_at self place }
    {
        if self.left <= self.right {
            self.left + place as u16
        } else {
            self.left - place as u16
        }
    }
}
