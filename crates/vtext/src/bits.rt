//! Names that are those of bits of vectors.

ghost use Rattle.std.specs.Prelude.{◌≡◌, ◌≢◌, ◌<◌, ◌++◌, ℕ, List, false, IfOk, IfSome, codes, length};
ghost use Rattle.std.specs.List.{list_any};
ghost use Rattle.lexing.specs.Numbers as numbers;
ghost use Rattle.vtext.specs.Bits.{bit_at, bit_between, bit_names, bit_of, is_bit_of, is_index, is_named_bit, last_open, names_bit_of};
ghost use Rattle.vtext.specs.Names.{name_at};
ghost use Rattle.vtext.specs.kept.Readings.{view};

use crate::draft::Draft;
use crate::names::Names;
use crate::range::{MAX_INDEX, Range};
use itoa::Buffer;
use lexing::number_value;
use std::alloc::{AllocError, Global};

/// A name that is the one of a bit, where another name of the text is that of its vector.
#[derive(Clone, Copy, Debug, PartialEq, Eq)]
pub struct BitName {
    /// The name, by its number.
    pub name: u32,
    /// The vector's name, by its number.
    pub vector: u32,
    /// The bit's index.
    pub index: u16,
}

/// Where the last opening bracket is.
#[inline(never)]
fn last_open(bytes: &[u8]) -> Option<usize>
    ensures place { result ≡ last_open bytes.now }
    ensures within { IfSome result (λ place. place < length bytes.now) }
{
    let mut found = None;
    for (i, byte) in bytes.iter().enumerate() {
        if *byte == b'[' {
            found = Some(i);
        }
    }
    found
}

/// Whether bytes end with a closing bracket, as the name of a bit does.
fn is_closed(bytes: &[u8]) -> bool
    ensures { result ≡ false → (front : List ℕ) → bytes.now ≢ front ++ codes "]" }
{
    match bytes.strip_suffix(b"]".as_slice()) {
        Some(_) => true,
        None => false,
    }
}

/// Whether bytes are what stands behind the opening bracket of this index.
fn is_index(tail: &[u8], index: u32) -> bool
    requires { index ≡ numbers.number_of tail.now }
    ensures { result ≡ is_index tail.now }
{
    let mut buffer = Buffer::new();
    match tail.strip_suffix(b"]".as_slice()) {
        Some(digits) => index <= MAX_INDEX && digits == buffer.format(index).as_bytes(),
        None => false,
    }
}

impl<'a> Names<'a> {
    /// The bit that a name is of, with what stands before and behind its last opening bracket.
    fn bit_between(&self, name: u32, base: &[u8], tail: &[u8]) -> Option<BitName>
        ensures { result ≡ bit_between self.now name base.now tail.now }
    {
        let index = number_value(tail);
        if !is_index(tail, index) {
            return None;
        }
        let vector = self.find(base)?;
        Some(BitName {
            name,
            vector,
            index: index as u16,
        })
    }

    /// The bit that a name is of, whose last opening bracket is at this place.
    #[inline(never)]
    fn bit_at(&self, name: u32, bytes: &[u8], place: usize) -> Option<BitName>
        requires { place < length bytes.now }
        ensures { result ≡ bit_at self.now name bytes.now place }
    {
        self.bit_between(name, &bytes[..place], &bytes[place + 1..])
    }

    /// The bit that a name is of, if the vector's name is one of the text.
    #[inline(always)]
    pub fn bit(&self, name: u32) -> Option<BitName>
        ensures { result ≡ bit_of self.now name (name_at self.now name) }
    {
        let bytes = self.text(name);
        if !is_closed(bytes) {
            return None;
        }
        let place = last_open(bytes)?;
        self.bit_at(name, bytes, place)
    }
}

/// The bits that the names of a text are of.
pub fn bits_of(alloc: Global, names: &Names) -> Result<Vec<BitName>, AllocError>
    ensures { IfOk result (λ bits. bits.items ≡ bit_names names.now) }
{
    let mut bits = Vec::new(alloc);
    for name in 0..names.len() {
        if let Some(bit) = names.bit(name as u32) {
            bits.push(bit)?;
        }
    }
    Ok(bits)
}

impl Draft {
    /// Whether one of the nets is a vector that has this bit.
    fn is_bit_of(&self, bit: BitName) -> bool
        ensures { result ≡ is_bit_of (view self.now).nets bit }
    {
        match self.net(bit.vector) {
            Some(net) => net.has_bit(bit.index),
            None => false,
        }
    }

    /// Whether the name of a scalar is that of a bit of one of the nets.
    pub fn is_named_bit(&self, names: &Names, name: u32) -> bool
        ensures { result ≡ is_named_bit names.now (view self.now).nets name }
    {
        match names.bit(name) {
            Some(bit) => self.is_bit_of(bit),
            None => false,
        }
    }

    /// Whether a name is that of a scalar, and of a bit of a vector of this name and range.
    fn names_bit_of(&self, vector: u32, range: Range, bit: BitName) -> bool
        ensures { result ≡ names_bit_of (view self.now).nets vector range bit }
    {
        if vector != bit.vector || !range.contains(bit.index) {
            return false;
        }
        match self.net(bit.name) {
            Some(net) => net.is_scalar(),
            None => false,
        }
    }

    /// Whether one of the bits of a text is named like a scalar, and of a vector of this name and range.
    pub fn has_named_bit(&self, bits: &[BitName], vector: u32, range: Range) -> bool
        ensures { result ≡ list_any (names_bit_of (view self.now).nets vector range) bits.now }
    {
        bits.iter()
            .any(|bit| self.names_bit_of(vector, range, *bit))
    }
}
