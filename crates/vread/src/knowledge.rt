//! What laws say of the design of a text.

ghost use Rattle.std.specs.Prelude.{◌≡◌, ℕ, List, All};
ghost use Rattle.elaboration.specs.kept.Elaborations.{IsElaboration};
ghost use Rattle.vread.specs.kept.Known.{Known};
ghost use Rattle.vtext.specs.kept.Sound.{IsSoundModule};

use design::laws::parts_are_names;
use elaboration::Elaboration;
use elaboration::laws::{
    flat_names, flat_names_are_parts, gate_terminals_are_single, scopes_are_sound,
    terminals_are_nodes,
};
use vtext::Modules;

/// What laws say of the design that modules make. Nothing runs.
pub fn know(modules: &Modules, elaboration: &Elaboration)
    requires sound { All (IsSoundModule modules.now.names) modules.now.modules }
    requires elaborated { (text : List ℕ) × IsElaboration text modules.now elaboration.now }
    ensures { Known modules.now elaboration.now.top.1 }
{
    flat_names();
    flat_names_are_parts();
    gate_terminals_are_single();
    scopes_are_sound();
    terminals_are_nodes();
    parts_are_names();
}
