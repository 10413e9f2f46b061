//! Names of nets, gates and designs.

ghost use Rattle.std.specs.Prelude.{◌≡◌, IsTrue, IfOk};
ghost use Rattle.std.specs.List.{list_all};
ghost use Rattle.design.specs.Names.{is_name, is_name_byte, is_part, parts};

use crate::limits::MAX_NAME;
use crate::name_text::NameText;
use std::alloc::{AllocError, Global};
use std::marker::Model;

/// A name: 1 to 1,024 bytes, each 33 to 126 without the apostrophe. A dot parts scopes: what stands between the dots is
/// not empty and not `$end` (own). The type keeps this.
#[derive(Debug, Drop)]
pub struct Name {
    text: NameText,
}

impl Model for Name {
    ghost use Rattle.std.specs.Prelude.{ℕ, List, IsTrue};
    ghost use Rattle.design.specs.Names.{is_name};

    ghost Value = { List ℕ };

    ghost view = { λ a. a.text };

    ghost invariant = { λ a. IsTrue (is_name a.text) };
}

impl Name {
    /// Whether a text may be a name.
    pub fn is_valid(text: &str) -> bool
        ensures { result ≡ is_name text.now }
    {
        text.len() <= MAX_NAME && are_parts(text)
    }

    /// The name that a text is.
    pub fn new(alloc: Global, text: &str) -> Result<Name, AllocError>
        requires { IsTrue (is_name text.now) }
        ensures { IfOk result (λ name. name ≡ text.now) }
    {
        let text = NameText::new(alloc, text)?;
        Ok(Name { text })
    }

    /// The name as text.
    pub fn as_str(&self) -> &str
        ensures { result.now ≡ self.now }
    {
        self.text.as_str()
    }

    /// The law of every name; nothing runs.
    pub fn lawful(&self)
        ensures { IsTrue (is_name self.now) }
    {
        let _text = &self.text;
    }
}

impl Clone for Name {
    ghost use Rattle.std.specs.Prelude.{◌≡◌};

    ghost is_clone = { λ old new. new ≡ old };

    fn clone(&self) -> Result<Name, AllocError> {
        let text = self.text.clone()?;
        Ok(Name { text })
    }
}

fn are_parts(text: &str) -> bool
    ensures { result ≡ list_all is_part (parts text.now) }
{
    text.split('.').all(|part| is_part(part))
}

fn is_part(text: &str) -> bool
    ensures { result ≡ is_part text.now }
{
    1 <= text.len() && are_name_bytes(text.as_bytes()) && text != "$end"
}

fn are_name_bytes(bytes: &[u8]) -> bool
    ensures { result ≡ list_all is_name_byte bytes.now }
{
    bytes.iter().all(|byte| 33 <= *byte && *byte <= 126 && *byte != b'\'' && *byte != b'.')
}
