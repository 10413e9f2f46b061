//! A number of a name's bytes that few other names share.

ghost use Rattle.std.specs.Prelude.{◌+◌, ◌≤◌, length};

use catalog::spelling::{HALF, WORD, four, is_short, packed};

/// An odd number that carries each bit of a word into the upper ones of the product: 2^64 by the golden ratio (own).
const SPREAD: u64 = 0x9E37_79B9_7F4A_7C15;
/// The lower half of each of eight bytes: what a digit counts.
const LOWER_HALVES: u64 = 0x0F0F_0F0F_0F0F_0F0F;
/// The lowest bit of each of eight bytes.
const ONES: u64 = 0x0101_0101_0101_0101;
/// The eight bytes `00000000`.
const ZEROS: u64 = 0x3030_3030_3030_3030;
/// How far the first bytes of a long name are turned before they meet its length and the last ones (own).
const TURN: u32 = 29;

/// The eight bytes at a place as a number, the first one lowest.
fn eight(bytes: &[u8], at: usize) -> u64
    requires { at + 8 ≤ length bytes.now }
{
    u64::from(four(bytes, at)) | u64::from(four(bytes, at + HALF)) << 32
}

/// Fewer than four bytes as a number, the last one lowest.
fn few(bytes: &[u8]) -> u64 {
    let mut bits = 0;
    for byte in bytes {
        bits = bits << 8 | u64::from(*byte);
    }
    bits
}

/// All bits of those of eight bytes that are no digits.
fn others(bytes: u64) -> u64 {
    let halves = (bytes ^ ZEROS) & !LOWER_HALVES;
    let pairs = halves | halves >> 1;
    let bits = (pairs | pairs >> 2) >> 4 & ONES;
    bits.wrapping_mul(0xFF)
}

/// The number that eight digits spell, the first one lowest, each given by what it counts.
fn decimal(digits: u64) -> u64 {
    let pairs = digits.wrapping_mul(10 << 8 | 1) >> 8 & 0x00FF_00FF_00FF_00FF;
    let fours = pairs.wrapping_mul(100 << 16 | 1) >> 16 & 0x0000_FFFF_0000_FFFF;
    fours.wrapping_mul(10_000 << 32 | 1) >> 32
}

/// A number of eight bytes, the first one lowest, and of `more`, that few others share. Where only the digits differ, it
/// differs by as much as the numbers that they spell.
fn mixed(bytes: u64, more: u64) -> u64 {
    let others = others(bytes);
    let digits = bytes & !others & LOWER_HALVES;
    let behind = (!others).leading_zeros() & 56;
    let from = (bytes & others ^ more).wrapping_mul(SPREAD).swap_bytes();
    decimal(digits.wrapping_shl(behind)).wrapping_add(from)
}

/// A number of the bytes that few other names share. Its lower bits tell the most. `n1`, `n2` and so on have numbers one
/// behind another.
#[inline(always)]
pub fn fingerprint(bytes: &[u8]) -> u64 {
    if is_short(bytes) {
        return mixed(packed(bytes), 0);
    }
    if bytes.len() < WORD {
        return mixed(few(bytes), 0);
    }
    let first = eight(bytes, 0).rotate_left(TURN);
    mixed(eight(bytes, bytes.len() - WORD), first ^ bytes.len() as u64)
}
