//! Laws of runs and dumps: each function does nothing, and its contract is the law.

ghost use Rattle.std.specs.Prelude.{◌≡◌, ℕ, List, Result, option_map};
ghost use Rattle.gatestep.specs.Step.{advance};
ghost use Rattle.design.specs.Netlist.{net_named};
ghost use Rattle.edits.specs.declared.edit.Edit as declared;
ghost use Rattle.scratch.specs.Run.{wave_of};
ghost use Rattle.bench.specs.declared.fault.CommitFault.{CommitFault};
ghost use Rattle.bench.specs.Benches.{SnapshotRecord};
ghost use Rattle.bench.specs.Commits.{after};
ghost use Rattle.bench.specs.Histories.{LeadOn, accepted};
ghost use Rattle.vcd.specs.Text.{vcd_of};

use bench::laws;

/// After any commits, accepted and refused for whatever cause, the wave of each net and the dump are those of simulating from
/// scratch the design that the accepted ones make of the first one.
pub fn any_commits()
    ensures waves { (first last : SnapshotRecord) (commits : List (List declared.Edit × Result ℕ CommitFault)) (net : List ℕ)
        → LeadOn first commits last → let d = after first.design (accepted commits) in
        option_map (wave_of advance last.design) (net_named last.design net) ≡ option_map (wave_of advance d) (net_named d net) }
    ensures dump { (first last : SnapshotRecord) (commits : List (List declared.Edit × Result ℕ CommitFault))
        → LeadOn first commits last → vcd_of last.design ≡ vcd_of (after first.design (accepted commits)) }
{
    laws::any_commits();
}
