//! What each gate did in the run of an old design, beside which a new one is run.

ghost use Rattle.std.specs.Prelude.{◌≡◌, ◌<◌, length};
ghost use Rattle.std.specs.Option.{ForSome};
ghost use Rattle.gateline.specs.kept.OldLines.{line_if, line_seen};
ghost use Rattle.ordering.specs.kept.OldRuns.{line_at, line_of};

use gateline::OldLine;
use rundiff::OldRun;

/// What the gate at a place did in the old run.
fn line_at<'b, 'c>(old: &'b OldRun<'c>, place: usize) -> OldLine<'b, 'c>
    requires traces { place < length old.now.traces }
    requires others { place < length old.now.others }
    ensures { line_seen result ≡ line_at old.now place }
{
    OldLine {
        is_other: old.others[place],
        trace: old.traces[place],
        waves: old.waves.as_slice(),
    }
}

/// What the gate at a place did in the old run, if there is one.
pub fn line_of<'b, 'c>(old: Option<&'b OldRun<'c>>, place: usize) -> Option<OldLine<'b, 'c>>
    requires traces { ForSome old (λ run. place < length run.now.traces) }
    requires others { ForSome old (λ run. place < length run.now.others) }
    ensures { line_if result ≡ line_of old.entry place }
{
    match old {
        None => None,
        Some(run) => Some(line_at(run, place)),
    }
}
