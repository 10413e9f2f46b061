//! The way of all text from a source.
ghost use Rattle.std.specs.Prelude.{◌≡◌, ◌<◌, [], ◌++◌, length};
ghost use Rattle.std.specs.Io.KnownBytes.{Consumes};
ghost use Rattle.devices.specs.kept.Incoming.{Reads, text_of};

use crate::history::History;
use crate::source::Source;
use std::marker::Model;
use std::snapshot::Snapshot;

/// Reads text from a source, and contracts know all pieces that came so far. No call takes memory.
#[derive(Drop)]
pub struct Reader<'a, R: Source> {
    source: &'a mut R,
    start: Snapshot<R>,
    came: History,
}

impl<'a, R: Source> Model for Reader<'a, R> {
    ghost use Rattle.std.specs.Prelude.{◌≡◌, ◌++◌};
    ghost use Rattle.std.specs.List.{concat};
    ghost use Rattle.std.specs.Io.KnownBytes.{Consumes};
    ghost use Rattle.devices.specs.kept.Incoming.{Incoming};

    ghost Value = { Incoming };

    ghost view = { λ a. record {
      loan = a.source.ghost_name;
      before = R.remaining a.start.value;
      taken_before = R.taken a.start.value;
      failures = R.failures a.source.now;
      pieces = a.came.pieces;
    } };

    ghost invariant = { λ a.
        Consumes (R.remaining a.start.value) (R.remaining a.source.now) (concat a.came.pieces)
        × (R.taken a.source.now ≡ R.taken a.start.value ++ a.came.pieces) };
}

impl<'a, R: Source> Reader<'a, R> {
    /// A reader to which nothing came yet.
    pub fn new(source: &'a mut R) -> Reader<'a, R>
        ensures { result ≡ record {
          loan = source.entry.ghost_name;
          before = R.remaining source.old;
          taken_before = R.taken source.old;
          failures = R.failures source.old;
          pieces = [];
        } }
    {
        let start = Snapshot::of(&*source);
        Reader {
            source,
            start,
            came: History::new(),
        }
    }

    /// Fills the front of `buffer`, and answers how many bytes came: 0 only at the end. `None` where
    /// the source failed; then nothing came, and a later call may bring more.
    #[tactic(auto, using(crate::proofs::HistoryLemmas::concat_last))]
    pub fn read(&mut self, buffer: &mut [u8]) -> Option<usize>
        requires { 0 < length buffer.old }
        ensures { Reads self.old self.new buffer.new result }
    {
        match self.source.take(buffer) {
            Some(n) => {
                self.came.add(&buffer[..n]);
                Some(n)
            }
            None => None,
        }
    }

    /// Ends the reader, and gives the source back.
    pub fn finish(self) -> &'a mut R
        ensures consumed { Consumes self.entry.before (R.remaining result.now) (text_of self.entry) }
        ensures taken { R.taken result.now ≡ self.entry.taken_before ++ self.entry.pieces }
        ensures failures { R.failures result.now ≡ self.entry.failures }
        ensures same_reference { result.ghost_name ≡ self.entry.loan }
    {
        let Reader {
            source,
            start: _,
            came: _,
        } = self;
        source
    }
}
