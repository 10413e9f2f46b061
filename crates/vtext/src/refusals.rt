//! The module list of a text, or the place of its first fault among the text's tokens.

ghost use Rattle.std.specs.Prelude.{◌≤◌, IfErr, IfOk, length};
ghost use Rattle.lexing.specs.declared.limits.TheConstants.{MAX_TEXT};
ghost use Rattle.vtext.specs.Reads.{Says};
ghost use Rattle.vtext.specs.kept.Refusals.{IsRefusedBy};

use crate::module_list::Modules;
use crate::walks::{Refusal, walk};
use crate::words::words;
use design::NameHasher;
use std::alloc::Global;

/// The modules of a text that is not over its limit, or the first of its tokens that is refused, by its place among them: what
/// `modules` says by lines.
pub fn modules_or_refusal<'a>(
    alloc: Global,
    hasher: NameHasher,
    text: &'a [u8],
    default: Option<u32>,
) -> Result<Modules<'a>, Refusal>
    requires { length text.now ≤ MAX_TEXT }
    ensures list { IfOk result (Says default text.now) }
    ensures refused { IfErr result (IsRefusedBy default text.now) }
{
    let (names, words) = words(alloc, hasher, text)?;
    let draft = walk(alloc, default, &names, words.as_slice())?;
    Ok(Modules::new(names, draft))
}
