//! Laws of reading: each contract is the law, and no function gives anything.

ghost use Rattle.std.specs.Prelude.{◌≡◌, ◌⊎◌, ℕ, Option};
ghost use Rattle.design.specs.Netlist.{Netlist};
ghost use Rattle.vread.specs.Details.{IsFaultDetail};
ghost use Rattle.vread.specs.kept.Details.{IsOnLine};
ghost use Rattle.vread.specs.Reads.{IsReadFault, Spells};
ghost use Rattle.vread.specs.declared.detail.FaultDetail as details;
ghost use Rattle.vtext.specs.declared.fault.ReadFault as faults;

use elaboration::laws::{faultless_has_top, faults_are_at_places};
use vtext::laws::{one_reading, some_reading};

/// A text spells one design, or has one fault, and not both.
pub fn one_answer(text: &[u8])
    ensures design { (default : Option ℕ) (a b : Netlist) → Spells default text.now a → Spells default text.now b → a ≡ b }
    ensures fault { (default : Option ℕ) (f g : faults.ReadFault) → IsReadFault default text.now f → IsReadFault default text.now g → f ≡ g }
    ensures apart { (default : Option ℕ) (a : Netlist) (f : faults.ReadFault) → Spells default text.now a → IsReadFault default text.now f → ⊥ }
{
    one_reading(text);
}

/// Each text spells a design or has a fault.
pub fn some_answer(text: &[u8])
    ensures { (default : Option ℕ) → ((netlist : Netlist) × Spells default text.now netlist) ⊎ ((fault : faults.ReadFault) × IsReadFault default text.now fault) }
{
    some_reading(text);
    faultless_has_top();
}

/// The fault of a text lies on the line of the word by which it is told.
pub fn words_are_on_lines(text: &[u8])
    ensures { (default : Option ℕ) (detail : details.FaultDetail) (fault : faults.ReadFault) → IsFaultDetail default text.now detail → IsReadFault default text.now fault →
        IsOnLine text.now fault detail.word }
{
    one_reading(text);
    one_answer(text);
    faults_are_at_places();
}
