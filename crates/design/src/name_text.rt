//! The texts of names.

ghost use Rattle.std.specs.Prelude.{◌≡◌, IfOk};

use arrayvec::ArrayString;
use std::alloc::{AllocError, Global};
use std::marker::Model;

/// How many bytes a text may have that stands in the value itself; only a longer one takes memory (own).
const SHORT: usize = 15;

/// A text. Contracts see its bytes.
#[derive(Debug, Drop)]
pub struct NameText {
    text: Text,
}

#[derive(Debug, Drop)]
enum Text {
    Short(ArrayString<SHORT>),
    Long(String),
}

impl Model for NameText {
    ghost use Rattle.std.specs.Prelude.{ℕ, List};

    ghost Value = { List ℕ };

    ghost use Rattle.design.specs.kept.NameTexts.{bytes_in};

    ghost view = { λ a. bytes_in a.text };
}

impl NameText {
    /// The same text.
    pub fn new(alloc: Global, text: &str) -> Result<NameText, AllocError>
        ensures { IfOk result (λ kept. kept ≡ text.now) }
    {
        let text = match ArrayString::from(text) {
            Ok(text) => Text::Short(text),
            Err(_) => Text::Long(String::from_str(alloc, text)?),
        };
        Ok(NameText { text })
    }

    /// The text.
    pub fn as_str(&self) -> &str
        ensures { result.now ≡ self.now }
    {
        match &self.text {
            Text::Short(text) => text.as_str(),
            Text::Long(text) => text.as_str(),
        }
    }
}

impl Clone for NameText {
    ghost use Rattle.std.specs.Prelude.{◌≡◌};

    ghost is_clone = { λ old new. new ≡ old };

    fn clone(&self) -> Result<NameText, AllocError> {
        let text = match &self.text {
            Text::Short(text) => Text::Short(*text),
            Text::Long(text) => Text::Long(text.clone()?),
        };
        Ok(NameText { text })
    }
}
