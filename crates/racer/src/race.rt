//! A race of two editors, who commit a script's edits to one design, and of viewers who look at it.

ghost use Rattle.std.specs.Prelude.{◌≡◌, ◌≤◌, ◌<◌, ◌+◌, ◌^◌, Ok, IfErr, IfOk, length};
ghost use Rattle.design.specs.Keys.{netlist};
ghost use Rattle.bench.specs.Benches.{snapshot_of};
ghost use Rattle.racer.specs.Races.{IsDesignEnd, IsEnd, IsFaultEnd};
ghost use Rattle.racer.specs.kept.Races.{AreDealt, BeginsWith, IsStart, end_by};
ghost use Rattle.racer.specs.Scripts.{ScriptRecord, script_of};

use crate::arguments::Args;
use crate::commit::Commit;
use crate::hand::Hand;
use crate::script::{Script, ScriptFault};
use crate::take_turns::take_turns;
use crate::tally::Tally;
use crate::threads;
use bench::Bench;
use design::{Design, NameHasher};
use edits::EditFault;
use gatestep::Serial;
use hub::Parts;
use std::alloc::{AllocError, Global};
use std::random::RandomSource;
use std::sync::Wait;
use std::thread::Threads;
use vread::read;
use vtext::{ReadFault, ReadFaultKind};

/// The last moment of the runs of a race, in time units.
const HORIZON: u64 = 1000;

/// How a race ends.
#[derive(Debug, Drop)]
pub enum RaceEnd {
    /// All viewers looked as often as they had to, and all commits were submitted. A look is wrong where its waves differ from
    /// those of a run of its design from scratch, or where either is refused. One more look of a viewer is wrong, as long as one
    /// is right, where it saw what was not published, or where the editors were not told of the whole log.
    Looks(Tally),
    /// The line of this number, the first one being 1, is the first line of the script that can't be read or can't stand
    /// where it stands.
    Script(u64),
    /// The design text is refused.
    Design(ReadFault),
    /// An allocation was refused, or there is no hub of so many viewers.
    Memory,
}

/// Runs a race: two editors take turns at the commits of the script, each in a thread of its own, and each of the viewers that the
/// words ask for looks as often as they say in a thread of its own, while the design that the text spells changes. Runs go up to
/// `HORIZON`, and gates have no delay of their own accord. The script is read before any thread starts. Commits that are
/// refused are passed over.
pub fn race<R: RandomSource + Threads + Wait + Sync>(
    rt: &R,
    alloc: Global,
    args: &Args,
    design: &[u8],
    script: &[u8],
) -> RaceEnd
    ensures { IsEnd design.now script.now args.now.viewers args.now.looks result }
{
    match made_of(rt, alloc, design, script, args.viewers) {
        Ok((parts, hands)) => match threads::run(rt, alloc, parts, hands, args.looks) {
            Ok(tally) => RaceEnd::Looks(tally),
            Err(_) => RaceEnd::Memory,
        },
        Err(end) => end,
    }
}

// What the hub is made of, which begins with the design that the text spells, and the commits of the script in the hands of two
// editors; where one has a fault, the end of the race.
fn made_of<R: RandomSource + Wait>(
    rt: &R,
    alloc: Global,
    design: &[u8],
    script: &[u8],
    viewers: u32,
) -> Result<(Parts<Serial>, (Hand, Hand)), RaceEnd>
    ensures begins { IfOk result (λ made. BeginsWith design.now made.0.origin) }
    ensures viewers { IfOk result (λ made. (made.0.viewers ≡ viewers) × (1 ≤ viewers) × (viewers ≤ 64)) }
    ensures hands { IfOk result (λ made. AreDealt script.now made.1.0 made.1.1) }
    ensures room { IfOk result (λ made. length made.1.0.commits + length made.1.1.commits < 2 ^ 64) }
    ensures fault { IfErr result (λ end. IsFaultEnd design.now script.now end) }
{
    let (design, commits) = read_both(rt, alloc, design, script)?;
    let Ok(hands) = take_turns(alloc, commits) else {
        return Err(RaceEnd::Memory);
    };
    match parts_of(rt, alloc, design, viewers) {
        Ok(parts) => Ok((parts, hands)),
        Err(_) => Err(RaceEnd::Memory),
    }
}

// The design and the commits of the script; where one has a fault, the end of the race.
fn read_both<R: RandomSource>(
    rt: &R,
    alloc: Global,
    design: &[u8],
    script: &[u8],
) -> Result<(Design, Vec<Commit>), RaceEnd>
    ensures design { IfOk result (λ both. IsStart design.now (netlist both.0)) }
    ensures script { IfOk result (λ both. (whole : ScriptRecord) × (script_of script.now ≡ Ok whole) × (whole.commits ≡ both.1.items)) }
    ensures fault { IfErr result (λ end. IsFaultEnd design.now script.now end) }
{
    let design = spelled(rt, alloc, design)?;
    match Script::read(alloc, script) {
        Ok(script) => Ok((design, script.into_commits())),
        Err(ScriptFault::Line(number)) => Err(RaceEnd::Script(number)),
        Err(ScriptFault::OutOfMemory) => Err(RaceEnd::Memory),
    }
}

// The design that a text spells, up to the horizon.
fn spelled<R: RandomSource>(rt: &R, alloc: Global, text: &[u8]) -> Result<Design, RaceEnd>
    ensures design { IfOk result (λ design. IsStart text.now (netlist design)) }
    ensures fault { IfErr result (IsDesignEnd text.now) }
{
    match read(alloc, NameHasher::new(rt), text, None) {
        Ok(design) => Ok(design.set_horizon(HORIZON)),
        Err(fault) => Err(design_end(fault)),
    }
}

fn design_end(fault: ReadFault) -> RaceEnd
    ensures { result ≡ end_by fault.kind fault }
{
    match fault.kind {
        ReadFaultKind::Edit(EditFault::OutOfMemory) => RaceEnd::Memory,
        _ => RaceEnd::Design(fault),
    }
}

// What the hub is made of that the design begins.
fn parts_of<R: Wait>(
    rt: &R,
    alloc: Global,
    design: Design,
    viewers: u32,
) -> Result<Parts<Serial>, AllocError>
    ensures origin { IfOk result (λ parts. parts.origin ≡ snapshot_of 0 (netlist design)) }
    ensures viewers { IfOk result (λ parts. (parts.viewers ≡ viewers) × (1 ≤ viewers) × (viewers ≤ 64)) }
{
    let Ok(bench) = Bench::open(alloc, design, Serial::new()) else {
        return Err(AllocError);
    };
    match Parts::new(rt, alloc, bench, viewers) {
        Ok(parts) => Ok(parts),
        Err(_) => Err(AllocError),
    }
}
