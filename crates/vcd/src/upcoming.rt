//! The changes to come: what is left of each net's wave, the time of its next change, of each block of nets the least of
//! these, and of each group of blocks the least of those, in tables of fixed size.

ghost use Rattle.std.specs.Prelude.{◌≡◌, ◌≤◌, ◌<◌, ◌+◌, ◌-◌, ◌*◌, ℕ, true, length, min, slice_index};
ghost use Rattle.devices.specs.Outgoing.{Adds};
ghost use Rattle.vcd.specs.Changes.{change_line, change_lines, some_changes_at};
ghost use Rattle.vcd.specs.kept.Kept.{AreBlocksAhead, ArePassing, IsAhead, IsNext, IsPassing, IsSameBlockBut, IsSameBut, lefts, lines_from, time_of};
ghost use Rattle.vcd.specs.kept.Waves.{wave_in};

use crate::lines::value_line;
use crate::waves::Waves;
use design::MAX_NETS;
use devices::{Sink, Writer};
use waveform::Change;

/// No moment.
pub(crate) const NEVER: u64 = u64::MAX;

/// How many nets a block has; the last one may have fewer.
const NETS_IN_BLOCK: usize = 16;

const BLOCKS: usize = (MAX_NETS + NETS_IN_BLOCK - 1) / NETS_IN_BLOCK;

/// How many blocks a group has; the last one may have fewer.
const BLOCKS_IN_GROUP: usize = 16;

const NETS_IN_GROUP: usize = NETS_IN_BLOCK * BLOCKS_IN_GROUP;

const GROUPS: usize = (MAX_NETS + NETS_IN_GROUP - 1) / NETS_IN_GROUP;

/// When the next changes are. It takes no memory but its own place.
#[derive(Drop)]
pub(crate) struct Upcoming {
    times: [u64; MAX_NETS],
    least: [u64; BLOCKS],
    first: [u64; GROUPS],
}

// Writes the line at `t` of a net that changes there, and answers what is left of its wave after that.
fn pass_change<'a, W: Sink>(
    waves: &Waves<'a>,
    place: usize,
    left: &'a [Change],
    t: u64,
    writer: &mut Writer<'_, W>,
) -> &'a [Change]
    requires moment { t < NEVER }
    requires place { place < length waves.now.waves }
    requires next { IsNext (wave_in waves.now.waves place) t t left.now }
    ensures next { IsNext (wave_in waves.now.waves place) (t + 1) (time_of result.now) result.now }
    ensures text { Adds writer.old writer.new (change_line place (wave_in waves.now.waves place) t) }
{
    waves.lawful();
    let change = left[0];
    value_line(writer, place, change.value());
    let (_, later) = left.split_at(1);
    later
}

// The time of the first of some changes.
fn first_time(changes: &[Change]) -> u64
    ensures { result ≡ time_of changes.now }
{
    match changes.first() {
        Some(change) => change.time(),
        None => NEVER,
    }
}

impl Upcoming {
    /// Before moment 0, at which each net has a change. Each wave is looked up here, once: all of it is left.
    pub(crate) fn at_start<'a>(waves: &Waves<'a>, left: &mut [&'a [Change]]) -> Upcoming
        requires { length waves.now.waves ≤ length left.old }
        ensures { IsAhead waves.now.waves 0 0 result left.new }
    {
        waves.lawful();
        for place in 0..waves.count() {
            left[place] = waves.wave(place).changes();
        }
        Upcoming {
            times: [0; MAX_NETS],
            least: [0; BLOCKS],
            first: [0; GROUPS],
        }
    }

    // Writes the line at `t` of a net, if it changes there, and moves it on.
    #[inline(always)]
    fn pass_net<'a, W: Sink>(
        &mut self,
        waves: &Waves<'a>,
        left: &mut [&'a [Change]],
        place: usize,
        t: u64,
        writer: &mut Writer<'_, W>,
    )
        requires moment { t < NEVER }
        requires place { place < length waves.now.waves }
        requires room { length waves.now.waves ≤ length left.old }
        requires next { IsNext (wave_in waves.now.waves place) t (slice_index self.old.times place) (wave_in (lefts left.old) place) }
        ensures next { IsNext (wave_in waves.now.waves place) (t + 1) (slice_index self.new.times place) (wave_in (lefts left.new) place) }
        ensures others { IsSameBut place self.old self.new left.old left.new }
        ensures text { Adds writer.old writer.new (change_line place (wave_in waves.now.waves place) t) }
    {
        waves.lawful();
        if self.times[place] != t {
            return;
        }
        let later = pass_change(waves, place, left[place], t, writer);
        left[place] = later;
        self.times[place] = first_time(later);
    }

    // Writes the lines at `t` of `count` nets from net `first` on, moves them on, and answers the first time at which one of
    // them changes then.
    fn pass_nets<'a, W: Sink>(
        &mut self,
        waves: &Waves<'a>,
        left: &mut [&'a [Change]],
        first: usize,
        count: usize,
        t: u64,
        writer: &mut Writer<'_, W>,
    ) -> u64
        requires moment { t < NEVER }
        requires within { first + count ≤ length waves.now.waves }
        requires room { length waves.now.waves ≤ length left.old }
        requires next { (k : ℕ) → k < count → IsNext (wave_in waves.now.waves (first + k)) t
            (slice_index self.old.times (first + k)) (wave_in (lefts left.old) (first + k)) }
        ensures { IsPassing waves.now.waves first t count self.old self.new left.old left.new result writer.old writer.new }
    {
        waves.lawful();
        let mut least = NEVER;
        for i in 0..count {
            self.pass_net(waves, left, first + i, t, writer);
            least = least.min(self.times[first + i]);
        }
        least
    }

    // Writes the lines at `t` of a block of nets, and moves them on.
    fn pass_block<'a, W: Sink>(
        &mut self,
        waves: &Waves<'a>,
        left: &mut [&'a [Change]],
        block: usize,
        t: u64,
        writer: &mut Writer<'_, W>,
    )
        requires moment { t < NEVER }
        requires block { block * NETS_IN_BLOCK < length waves.now.waves }
        requires ahead { AreBlocksAhead waves.now.waves t block self.old left.old }
        ensures ahead { AreBlocksAhead waves.now.waves t (block + 1) self.new left.new }
        ensures others { IsSameBlockBut block self.old self.new }
        ensures text { Adds writer.old writer.new (lines_from waves.now.waves t (block * NETS_IN_BLOCK)
            (min NETS_IN_BLOCK (length waves.now.waves - block * NETS_IN_BLOCK))) }
    {
        waves.lawful();
        if self.least[block] != t {
            return;
        }
        let first = block * NETS_IN_BLOCK;
        let count = NETS_IN_BLOCK.min(waves.count() - first);
        self.least[block] = self.pass_nets(waves, left, first, count, t, writer);
    }

    // Writes the lines at `t` of `count` blocks from block `first` on, moves their nets on, and answers the first time at which
    // one of these changes then.
    fn pass_blocks<'a, W: Sink>(
        &mut self,
        waves: &Waves<'a>,
        left: &mut [&'a [Change]],
        first: usize,
        count: usize,
        t: u64,
        writer: &mut Writer<'_, W>,
    ) -> u64
        requires moment { t < NEVER }
        requires within { (i : ℕ) → i < count → (first + i) * NETS_IN_BLOCK < length waves.now.waves }
        requires ahead { AreBlocksAhead waves.now.waves t first self.old left.old }
        ensures { ArePassing waves.now.waves first t count self.old self.new left.new result writer.old writer.new }
    {
        waves.lawful();
        let mut least = NEVER;
        for i in 0..count {
            self.pass_block(waves, left, first + i, t, writer);
            least = least.min(self.least[first + i]);
        }
        least
    }

    // Writes the lines at `t` of a group of blocks, and moves their nets on.
    fn pass_group<'a, W: Sink>(
        &mut self,
        waves: &Waves<'a>,
        left: &mut [&'a [Change]],
        group: usize,
        t: u64,
        writer: &mut Writer<'_, W>,
    )
        requires moment { t < NEVER }
        requires group { group * NETS_IN_GROUP < length waves.now.waves }
        requires ahead { IsAhead waves.now.waves t group self.old left.old }
        ensures ahead { IsAhead waves.now.waves t (group + 1) self.new left.new }
        ensures text { Adds writer.old writer.new (lines_from waves.now.waves t (group * NETS_IN_GROUP)
            (min NETS_IN_GROUP (length waves.now.waves - group * NETS_IN_GROUP))) }
    {
        waves.lawful();
        if self.first[group] != t {
            return;
        }
        let first = group * BLOCKS_IN_GROUP;
        let blocks = waves.count().div_ceil(NETS_IN_BLOCK);
        let count = BLOCKS_IN_GROUP.min(blocks - first);
        self.first[group] = self.pass_blocks(waves, left, first, count, t, writer);
    }

    /// Writes the lines at `t` of all nets, and moves them on.
    pub(crate) fn pass<'a, W: Sink>(
        &mut self,
        waves: &Waves<'a>,
        left: &mut [&'a [Change]],
        t: u64,
        writer: &mut Writer<'_, W>,
    )
        requires moment { t < NEVER }
        requires ahead { IsAhead waves.now.waves t 0 self.old left.old }
        ensures ahead { IsAhead waves.now.waves (t + 1) 0 self.new left.new }
        ensures text { Adds writer.old writer.new (change_lines waves.now.waves t) }
    {
        for group in 0..waves.count().div_ceil(NETS_IN_GROUP) {
            self.pass_group(waves, left, group, t, writer);
        }
    }

    /// The first moment at which a net changes, `last` if there is none before that one.
    pub(crate) fn first_time(&self, waves: &Waves<'_>, last: u64) -> u64
        requires { (group : ℕ) → group * NETS_IN_GROUP < length waves.now.waves → slice_index self.now.first group < NEVER →
            some_changes_at waves.now.waves (slice_index self.now.first group) ≡ true }
        ensures within { result ≤ last }
        ensures each { (group : ℕ) → group * NETS_IN_GROUP < length waves.now.waves → result ≤ slice_index self.now.first group }
        ensures no_earlier { (t : ℕ) → t ≤ last → ((group : ℕ) → group * NETS_IN_GROUP < length waves.now.waves → t ≤ slice_index self.now.first group) → t ≤ result }
        ensures change { result < last → some_changes_at waves.now.waves result ≡ true }
    {
        waves.lawful();
        let mut first = last;
        for group in 0..waves.count().div_ceil(NETS_IN_GROUP) {
            first = first.min(self.first[group]);
        }
        first
    }
}
