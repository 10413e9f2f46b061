//! The design that a text spells, or the text's fault.

ghost use Rattle.std.specs.Prelude.{◌≡◌, ◌<◌, ◌⊎◌, Err, IfErr, IfOk, length};
ghost use Rattle.design.specs.Keys.{netlist};
ghost use Rattle.lexing.specs.declared.limits.TheConstants.{MAX_TEXT};
ghost use Rattle.vread.specs.Reads.{IsReadFault, Spells};
ghost use Rattle.vtext.specs.ReadFaults.{out_of_memory, too_long};

use crate::build::design_of;
use design::{Design, NameHasher};
use std::alloc::Global;
use vtext::laws::modules_are_sound;
use vtext::{ReadFault, modules};

/// The design that a text spells, with the horizon 0 and no points; or the text's fault, the first one in the order of
/// passes, with its line. `default` is the delay, in time units, of gate items without one.
pub fn read(
    alloc: Global,
    hasher: NameHasher,
    text: &[u8],
    default: Option<u32>,
) -> Result<Design, ReadFault>
    ensures ok { IfOk result (λ design. Spells default text.now (netlist design)) }
    ensures err { IfErr result (λ fault. (fault ≡ out_of_memory) ⊎ IsReadFault default text.now fault) }
    // A text over its limit is looked at no further.
    ensures long { MAX_TEXT < length text.now → result ≡ Err too_long }
{
    modules_are_sound();
    let modules = modules(alloc, hasher, text, default)?;
    design_of(alloc, hasher, text, &modules)
}
