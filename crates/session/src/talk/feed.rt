//! Input in pieces, cut into lines, each answered.

ghost use Rattle.std.specs.Prelude.{◌≡◌, ◌<◌, List, ℕ, ◌++◌, ◌∷◌, [], length, true, false, MatchBool};
ghost use Rattle.session.specs.Lines.{lines};
ghost use Rattle.session.specs.State.{SessionState, Transcript};
ghost use Rattle.session.specs.kept.Talk.{Going, HasQuit, SameSink, Stands, is_finished};

use crate::machine::Machine;
use crate::talk::line_buffer::LineBuffer;
use devices::{Sink, Writer};
use gatestep::Stepper;

/// How a session goes on.
#[derive(Clone, Copy, Debug, PartialEq, Eq)]
pub enum Turn {
    /// It waits for more input.
    More,
    /// A line has ended it.
    Quit,
    /// The input's end has ended it.
    Finished,
}

/// A session: the line that is being read, and the design.
#[derive(Drop)]
pub struct Session<S: Stepper + Drop> {
    pub line: LineBuffer,
    pub machine: Machine<S>,
}

impl<S: Stepper + Drop> Session<S> {
    /// Takes the next piece of the input, an empty one at its end.
    pub fn take<W: Sink>(&mut self, piece: &[u8], writer: &mut Writer<'_, W>) -> Turn
        ensures stands { (first : SessionState) (input : List ℕ) → Going first input self.old.line self.old.machine writer.old.text
            → Stands result first (input ++ piece.now) self.new.line self.new.machine writer.new.text }
        ensures sink { SameSink writer.old writer.new }
        ensures end { is_finished result ≡ true → length piece.now ≡ 0 }
        ensures some { is_finished result ≡ false → 0 < length piece.now }
    {
        if piece.is_empty() {
            self.close(writer);
            return Turn::Finished;
        }
        self.feed(piece, writer)
    }

    fn feed<W: Sink>(&mut self, piece: &[u8], writer: &mut Writer<'_, W>) -> Turn
        ensures stands { (first : SessionState) (input : List ℕ) → Going first input self.old.line self.old.machine writer.old.text
            → Stands result first (input ++ piece.now) self.new.line self.new.machine writer.new.text }
        ensures sink { SameSink writer.old writer.new }
        ensures end { is_finished result ≡ false }
    {
        for byte in piece {
            if self.take_byte(*byte, writer) {
                return Turn::Quit;
            }
        }
        Turn::More
    }

    // Tells whether a line has ended the session.
    fn take_byte<W: Sink>(&mut self, byte: u8, writer: &mut Writer<'_, W>) -> bool
        ensures stands { (first : SessionState) (input : List ℕ) → Going first input self.old.line self.old.machine writer.old.text
            → MatchBool result (HasQuit first (input ++ byte ∷ []) writer.new.text)
            (Going first (input ++ byte ∷ []) self.new.line self.new.machine writer.new.text) }
        ensures sink { SameSink writer.old writer.new }
    {
        if byte != b'\n' {
            self.line.add(byte);
            return false;
        }
        let ended = self.machine.answer(self.line.as_slice(), writer);
        self.line.clear();
        ended
    }

    fn close<W: Sink>(&mut self, writer: &mut Writer<'_, W>)
        ensures transcript { (first : SessionState) (input : List ℕ) → Going first input self.old.line self.old.machine writer.old.text
            → Transcript first (lines input) writer.new.text }
        ensures sink { SameSink writer.old writer.new }
    {
        let line = self.line.as_slice();
        if !line.is_empty() {
            let _ended = self.machine.answer(line, writer);
        }
    }
}
