//! What of a name is hashed.

ghost use Rattle.std.specs.Prelude.{◌≡◌, ◌+◌, ◌-◌, ◌≤◌, true, length};
ghost use Rattle.catalog.specs.kept.Spellings.{four, is_short, packed};

use std::hash::{Hash, Hasher};

/// The most bytes that are packed into one number.
pub const WORD: usize = 8;
/// The fewest: those that are read at once.
pub const HALF: usize = 4;

/// The bytes of a name. A hasher is given a short name as one number, and any other one at once.
#[derive(Clone, Copy, Debug, PartialEq, Eq)]
pub struct Spelling<'a> {
    pub bytes: &'a [u8],
}

/// Whether the bytes are packed into one number.
#[tactic(auto, using(std::proofs::lemmas::Bool::Decides::nat_tests))]
pub fn is_short(bytes: &[u8]) -> bool
    ensures { result ≡ is_short bytes.now }
{
    HALF <= bytes.len() && bytes.len() <= WORD
}

/// The four bytes at a place as a number, the first one lowest.
pub fn four(bytes: &[u8], at: usize) -> u32
    requires { at + 4 ≤ length bytes.now }
    ensures { result ≡ four bytes.now at }
{
    u32::from_le_bytes([bytes[at], bytes[at + 1], bytes[at + 2], bytes[at + 3]])
}

/// The first four bytes of a short name as a number.
pub fn first_four(bytes: &[u8]) -> u32
    requires { is_short bytes.now ≡ true }
    ensures { result ≡ four bytes.now 0 }
{
    four(bytes, 0)
}

/// The last four bytes of a short name as a number. With the first four, and with how many there are, they tell all.
pub fn last_four(bytes: &[u8]) -> u32
    requires { is_short bytes.now ≡ true }
    ensures { result ≡ four bytes.now (length bytes.now - 4) }
{
    four(bytes, bytes.len() - HALF)
}

/// The bytes as a number, the first one lowest: the first four, and the last four at their place above.
pub fn packed(bytes: &[u8]) -> u64
    requires { is_short bytes.now ≡ true }
    ensures { result ≡ packed bytes.now }
{
    let last = bytes.len() - HALF;
    u64::from(first_four(bytes)) | u64::from(last_four(bytes)) << (8 * last)
}

impl<'a> Hash for Spelling<'a> {
    ghost use Rattle.std.specs.Cmp.Lexicographic.{bytes_decides};
    ghost use Rattle.std.proofs.Common.{ap};
    ghost use Rattle.catalog.specs.kept.Spellings.{input_of};

    ghost hash_input = { λ a. input_of a.bytes.now };

    ghost respects_eq = { λ a b h. ap input_of ((bytes_decides a.bytes.now b.bytes.now).0 h) };

    fn hash<H: Hasher>(&self, state: &mut H) {
        let bytes = self.bytes;
        if is_short(bytes) {
            state.write_u64(packed(bytes));
        } else {
            state.write(bytes);
        }
    }
}
