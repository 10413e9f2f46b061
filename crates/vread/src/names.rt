//! Names of a text as names of a design.

ghost use Rattle.std.specs.Prelude.{◌≡◌, ◌++◌, IfOk, IsTrue};
ghost use Rattle.design.specs.Names.{is_name};
ghost use Rattle.vtext.specs.Bits.{bit_bytes};

use design::Name;
use design::laws::names_print;
use itoa::Buffer;
use smallvec::SmallVec;
use std::alloc::{AllocError, Global};

/// How many bytes an index has at most, with its brackets.
const MOST_BRACKETED: usize = 7;
/// How many bytes of a name below the top are joined without memory being asked for (own).
const INLINE_BYTES: usize = 64;

/// The name that these bytes are.
pub fn name_from(alloc: Global, bytes: &[u8]) -> Result<Name, AllocError>
    requires { IsTrue (is_name bytes.now) }
    ensures { IfOk result (λ name. name ≡ bytes.now) }
{
    Name::new(alloc, text_of(bytes))
}

/// The text that these bytes are.
#[tactic(auto, using(crate::proofs::NameLemmas::printed_is_text))]
fn text_of(bytes: &[u8]) -> &str
    requires { IsTrue (is_name bytes.now) }
    ensures { result.now ≡ bytes.now }
{
    names_print();
    let Ok(text) = str::from_utf8(bytes) else {
        unreachable!()
    };
    text
}

/// The name that a name in a scope has in the design.
pub fn name_in(alloc: Global, path: &[u8], name: &[u8]) -> Result<Name, AllocError>
    requires { IsTrue (is_name (path.now ++ name.now)) }
    ensures { IfOk result (λ made. made ≡ path.now ++ name.now) }
{
    if path.is_empty() {
        return name_from(alloc, name);
    }
    let mut bytes = SmallVec::<u8, INLINE_BYTES>::new(alloc);
    bytes.extend_from_slice(path)?;
    bytes.extend_from_slice(name)?;
    name_from(alloc, bytes.as_slice())
}

/// The name that the bit of an index has in the design, of a vector of this name in a scope.
pub fn bit_in(alloc: Global, path: &[u8], base: &[u8], index: u16) -> Result<Name, AllocError>
    requires { IsTrue (is_name (path.now ++ bit_bytes base.now index)) }
    ensures { IfOk result (λ made. made ≡ path.now ++ bit_bytes base.now index) }
{
    let bytes = bit_text(alloc, path, base, index)?;
    name_from(alloc, bytes.as_slice())
}

fn bit_text(alloc: Global, path: &[u8], base: &[u8], index: u16) -> Result<Vec<u8>, AllocError>
    ensures { IfOk result (λ text. text.items ≡ path.now ++ bit_bytes base.now index) }
{
    let mut buffer = Buffer::new();
    let room = path
        .len()
        .saturating_add(base.len())
        .saturating_add(MOST_BRACKETED);
    let mut text = Vec::with_capacity(alloc, room)?;
    text.extend_from_slice(path)?;
    text.extend_from_slice(base)?;
    text.push(b'[')?;
    text.extend_from_slice(buffer.format(index).as_bytes())?;
    text.push(b']')?;
    Ok(text)
}
