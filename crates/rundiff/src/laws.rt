//! Laws of runs beside an old one: each function does nothing, and its contract is the law.

ghost use Rattle.std.specs.Prelude.{◌≡◌, ◌<◌, ◌≤◌, ◌||◌, ℕ, suc, false, not, [], length, map};
ghost use Rattle.std.specs.List.{slice_index_or};
ghost use Rattle.design.specs.kept.Lawful.{IsDesign};
ghost use Rattle.design.specs.Netlist.{GateEntry, Netlist};
ghost use Rattle.waveform.specs.Changes.{wave_at};
ghost use Rattle.waveform.specs.kept.Changes.{state_at, trace_below};
ghost use Rattle.scratch.specs.kept.Kept.{input_of, input_value};
ghost use Rattle.scratch.specs.Run.{state_before};
ghost use Rattle.scratch.specs.Work.{inputs_at, task_at};
ghost use Rattle.rundiff.specs.Dirty.{is_dirty, is_new, same_task};
ghost use Rattle.rundiff.specs.kept.OldRuns.{AreOldRun, OldRunRecord, state_till};
ghost use Rattle.rundiff.specs.kept.Places.{gate_at};

use fourstate::Value;
use gatestep::{Driver, Stepper};
use waveform::laws;

/// What the lines of the old run, by the places of the new design, say of its gates: of a gate of both designs its state in the
/// old run before each moment, of each gate what it reads there, and that its trace is that of the states that it gives. A gate
/// is dirty at a moment of the old run where it is new or its task differs.
pub fn dirty_by_lines<S: Stepper>()
    ensures states { (old new : Netlist) (run : OldRunRecord) → IsDesign old → AreOldRun S.answer old new run → (p : ℕ) → p < length new.gates → is_new old (gate_at new p) ≡ false
        → (t : ℕ) → t ≤ suc old.horizon → state_till (slice_index_or run.traces p []) t ≡ state_before S.answer old t (gate_at new p) }
    ensures inputs { (old new : Netlist) (run : OldRunRecord) → IsDesign new → AreOldRun S.answer old new run → (p : ℕ) → p < length new.gates → (t : ℕ) → t ≤ old.horizon
        → map (λ input. input_value (map (λ wave. wave_at wave t) run.waves) input) (map (input_of new) (gate_at new p).inputs) ≡ inputs_at S.answer old (gate_at new p) t }
    ensures trace { (old new : Netlist) (run : OldRunRecord) → IsDesign old → AreOldRun S.answer old new run → (p : ℕ) → p < length new.gates
        → slice_index_or run.traces p [] ≡ trace_below (state_at (slice_index_or run.traces p [])) (suc old.horizon) }
    ensures dirty { (old new : Netlist) (g : GateEntry) (t : ℕ) → t ≤ old.horizon
        → is_dirty S.answer old new g t ≡ (is_new old g || not (same_task (task_at S.answer old g t) (task_at S.answer new g t))) }
{
    laws::value_of_changes::<Value>();
    laws::value_of_changes::<Driver>();
    laws::same_changes::<Driver>();
}
