//! What a session has: the bench, a batch, and snapshots that are held.

ghost use Rattle.std.specs.Prelude.{◌≡◌, ℕ, List, Ok, None, IfOk, MatchResult, true, false, is_some, option_map};
ghost use Rattle.devices.specs.Outgoing.{Adds};
ghost use Rattle.gatestep.specs.Step.{advance};
ghost use Rattle.design.specs.Keys.{netlist};
ghost use Rattle.session.specs.Held.{held_as};
ghost use Rattle.session.specs.Refused.{Comes};
ghost use Rattle.session.specs.kept.Refused.{MayRefuseCommit, refusal_of};
ghost use Rattle.session.specs.Standing.{opened_with};
ghost use Rattle.session.specs.State.{done_result, ends, held_result, question_result, reply_text};
ghost use Rattle.session.specs.kept.State.{asks_diff, is_diff};
ghost use Rattle.session.specs.Steps.{commit_step};
ghost use Rattle.session.specs.kept.Talk.{Answered, CarriedOut, Committed, Replied};
ghost use Rattle.session.specs.ToolAnswers.{diff_result};
ghost use Rattle.session.specs.kept.ToolAnswers.{Tells};
ghost use Rattle.session.specs.WordsAtFault.{asked_word, held_word};
ghost use Rattle.session.specs.kept.WordsAtFault.{commits_edits, shown};

use crate::asking::answer_question;
use crate::at_fault::{FaultWord, commit_word, hold_word, question_word, unreadable_word};
use crate::batch::Batch;
use crate::commands::{Command, EditLine, Question, Request, read_by};
use crate::held::Held;
use crate::replies::{Refusal, no, ok};
use crate::tool_asking::answer_diff_since;
use crate::words::{RawWords, WordRef};
use bench::laws::present_is_past;
use bench::{Bench, CommitFault};
use design::Design;
use devices::{Sink, Writer};
use differences::Room;
use edits::{Edit, EditFault};
use gatestep::{StepFault, Stepper};
use std::alloc::{AllocError, Global};
use std::marker::Model;
use std::slice;

/// The bench with the design, the edits of a batch, inside one, and the snapshots that are held by name. Where the questions of
/// tools are known there is room for differences.
#[derive(Drop)]
pub struct Machine<S: Stepper + Drop> {
    alloc: Global,
    room: Option<Room>,
    bench: Bench<S>,
    batch: Option<Batch>,
    held: Held,
}

impl<S: Stepper + Drop> Model for Machine<S> {
    ghost use Rattle.std.specs.Prelude.{is_some};
    ghost use Rattle.session.specs.kept.Held.{AreFromPast};
    ghost use Rattle.session.specs.State.{SessionState};

    ghost Value = { SessionState };

    ghost view = { λ m. record { tools = is_some m.room; present = m.bench.snapshot; batch = m.batch; held = m.held } };

    ghost invariant = { λ m. AreFromPast m.bench m.held };
}

impl<S: Stepper + Drop> Machine<S> {
    /// The design at version 0, with its run, and whether the questions of tools are known.
    pub fn open(
        alloc: Global,
        tools: bool,
        design: Design,
        stepper: S,
    ) -> Result<Machine<S>, StepFault>
        requires { S.answer ≡ advance }
        ensures { IfOk result (λ machine. machine ≡ opened_with tools (netlist design)) }
    {
        let room = open_room(alloc, tools)?;
        let bench = Bench::open(alloc, design, stepper)?;
        Ok(Machine {
            alloc,
            room,
            bench,
            batch: None,
            held: Held::new(alloc),
        })
    }

    /// Answers a line, which comes without its line feed, and tells whether it ends the session.
    #[tactic(auto, using(crate::proofs::AnswerLemmas::answers_line, crate::proofs::AnswerLemmas::ends_plain, crate::proofs::AnswerLemmas::ends_naming, crate::proofs::ToolLemmas::diff_plain, crate::proofs::ToolLemmas::diff_naming))]
    pub fn answer<W: Sink>(&mut self, bytes: &[u8], writer: &mut Writer<'_, W>) -> bool
        ensures answered { Answered self.old self.new bytes.now writer.old writer.new }
        ensures ends { result ≡ ends self.old.tools bytes.now }
    {
        match read_by(self.room.is_some(), bytes) {
            Request::Plain(command) => {
                self.answer_plainly(&command, writer);
                command.is_quit()
            }
            Request::Naming(command, words) => {
                self.answer_naming(&command, words, writer);
                command.is_quit()
            }
        }
    }

    // Answers a command. A refusal names no word.
    #[tactic(auto, using(crate::proofs::AnswerLemmas::plainly_done, crate::proofs::AnswerLemmas::plainly_refused))]
    fn answer_plainly<W: Sink>(&mut self, command: &Command<'_>, writer: &mut Writer<'_, W>)
        requires { asks_diff command.now ≡ true → self.old.tools ≡ true }
        ensures { Replied self.old self.new (Request.Plain command.now) writer.old writer.new }
    {
        match self.carry_out(command, writer) {
            Ok(()) => {}
            Err(refusal) => no(writer, refusal, None),
        }
    }

    // Answers a command of these words. A refusal names the word at fault.
    fn answer_naming<W: Sink>(
        &mut self,
        command: &Command<'_>,
        words: RawWords<'_>,
        writer: &mut Writer<'_, W>,
    )
        requires { asks_diff command.now ≡ true → self.old.tools ≡ true }
        ensures { Replied self.old self.new (Request.Naming command.now words.entry) writer.old writer.new }
    {
        match command {
            Command::Change(edit) => self.change_naming(edit, writer),
            Command::Commit => self.commit_naming(writer),
            _ => self.ask_naming(command, words, writer),
        }
    }

    // The same for a command that commits no edits.
    #[tactic(auto, using(crate::proofs::AnswerLemmas::naming_done, crate::proofs::AnswerLemmas::naming_refused))]
    fn ask_naming<W: Sink>(
        &mut self,
        command: &Command<'_>,
        words: RawWords<'_>,
        writer: &mut Writer<'_, W>,
    )
        requires edits { commits_edits command.now ≡ false }
        requires diff { asks_diff command.now ≡ true → self.old.tools ≡ true }
        ensures { Replied self.old self.new (Request.Naming command.now words.entry) writer.old writer.new }
    {
        match self.carry_out(command, writer) {
            Ok(()) => {}
            Err(refusal) => no(writer, refusal, self.asked_word(command, words, refusal)),
        }
    }

    // The word at fault of a command that commits no edits and was refused.
    fn asked_word<'w>(
        &self,
        command: &'w Command<'_>,
        words: RawWords<'w>,
        refusal: Refusal,
    ) -> Option<FaultWord<'w>>
        ensures { option_map shown result ≡ asked_word self.now command.now words.entry refusal }
    {
        match command {
            Command::Ask(question) => question_word(self.bench.snapshot(), question, refusal),
            Command::At { name, question } => self.held_word(name, question, refusal),
            Command::Hold(name) => hold_word(name, refusal),
            Command::Free(name) => Some(FaultWord::Text(name.as_bytes())),
            Command::Unreadable => Some(FaultWord::Text(unreadable_word(words)?)),
            _ => None,
        }
    }

    fn held_word<'w>(
        &self,
        name: &'w WordRef<'_>,
        question: &'w Question<'_>,
        refusal: Refusal,
    ) -> Option<FaultWord<'w>>
        ensures { option_map shown result ≡ held_word name.now question.now (held_as self.now.held name.now) refusal }
    {
        match self.held.get(name.as_str()) {
            Some(snapshot) => question_word(snapshot, question, refusal),
            None => Some(FaultWord::Text(name.as_bytes())),
        }
    }

    // Carries out a command, or tells why it is refused.
    #[tactic(auto, using(crate::proofs::AnswerLemmas::concludes, crate::proofs::AnswerLemmas::skipped, crate::proofs::AnswerLemmas::has_quit, crate::proofs::AnswerLemmas::unread, crate::proofs::AnswerLemmas::too_long))]
    fn carry_out<W: Sink>(
        &mut self,
        command: &Command<'_>,
        writer: &mut Writer<'_, W>,
    ) -> Result<(), Refusal>
        requires { asks_diff command.now ≡ true → self.old.tools ≡ true }
        ensures { CarriedOut self.old self.new command.now writer.old writer.new result }
    {
        match command {
            Command::Skip => Ok(()),
            Command::Change(edit) => {
                let result = self.change(edit);
                self.conclude(result, writer)
            }
            Command::Begin => {
                let result = self.begin();
                self.conclude(result, writer)
            }
            Command::Commit => {
                let result = self.commit();
                self.conclude(result, writer)
            }
            Command::Abort => {
                let result = self.abort();
                self.conclude(result, writer)
            }
            Command::Ask(question) => self.ask(question, writer),
            Command::Hold(name) => {
                let result = self.hold(name);
                self.conclude(result, writer)
            }
            Command::Free(name) => {
                let result = self.free(name);
                self.conclude(result, writer)
            }
            Command::At { name, question } => self.ask_held(name, question, writer),
            Command::Quit => {
                ok(writer, self.version());
                Ok(())
            }
            Command::Unreadable => Err(Refusal::BadCommand),
            Command::TooLong => Err(Refusal::LongLine),
        }
    }

    // The reply to a command that was carried out; none to one that was refused.
    fn conclude<W: Sink>(
        &self,
        outcome: Result<(), Refusal>,
        writer: &mut Writer<'_, W>,
    ) -> Result<(), Refusal>
        ensures { Tells (done_result self.now.present.version outcome) writer.old writer.new result }
    {
        match outcome {
            Ok(()) => {
                ok(writer, self.version());
                Ok(())
            }
            Err(refusal) => Err(refusal),
        }
    }

    // An edit whose refusal names the word at fault.
    #[tactic(auto, using(crate::proofs::AnswerLemmas::change_named, crate::proofs::AnswerLemmas::keep_named, crate::proofs::AnswerLemmas::no_memory))]
    fn change_naming<W: Sink>(&mut self, line: &EditLine<'_>, writer: &mut Writer<'_, W>)
        ensures { (ws : List (List ℕ)) → Replied self.old self.new (Request.Naming (Command.Change line.now) ws) writer.old writer.new }
    {
        if self.batch.is_some() {
            let result = self.change(line);
            self.conclude_nameless(result, writer);
            return;
        }
        match line.to_edit(self.alloc) {
            Ok(edit) => self.commit_edits_naming(slice::from_ref(&edit), writer),
            Err(_) => no(writer, Refusal::Edit(EditFault::OutOfMemory), None),
        }
    }

    // The commit of the batch, whose refusal names the word at fault. The batch ends.
    #[tactic(auto, using(crate::proofs::AnswerLemmas::commit_named, crate::proofs::AnswerLemmas::no_batch))]
    fn commit_naming<W: Sink>(&mut self, writer: &mut Writer<'_, W>)
        ensures { (ws : List (List ℕ)) → Replied self.old self.new (Request.Naming Command.Commit ws) writer.old writer.new }
    {
        match self.batch.take() {
            Some(batch) => self.commit_edits_naming(batch.as_slice(), writer),
            None => no(writer, Refusal::NoBatch, None),
        }
    }

    fn conclude_nameless<W: Sink>(&self, outcome: Result<(), Refusal>, writer: &mut Writer<'_, W>)
        ensures { Adds writer.old writer.new (reply_text (λ refused. None) (done_result self.now.present.version outcome)) }
    {
        match outcome {
            Ok(()) => ok(writer, self.version()),
            Err(refusal) => no(writer, refusal, None),
        }
    }

    #[tactic(auto, using(crate::proofs::AnswerLemmas::committed, crate::proofs::AnswerLemmas::not_committed, crate::proofs::AnswerLemmas::no_memory, crate::proofs::HeldLemmas::all_past))]
    fn commit_edits_naming<W: Sink>(&mut self, edits: &[Edit], writer: &mut Writer<'_, W>)
        ensures { Committed self.old self.new edits.now writer.old writer.new }
    {
        let made = self.bench.commit(edits);
        match made {
            Ok(version) => ok(writer, version),
            Err(fault) => match commit_word(self.alloc, self.bench.snapshot(), edits, fault) {
                Ok(word) => no(writer, commit_refusal(fault), word),
                Err(_) => no(writer, Refusal::Edit(EditFault::OutOfMemory), None),
            },
        }
    }

    fn version(&self) -> u64
        ensures { result ≡ self.now.present.version }
    {
        self.bench.snapshot().version()
    }

    // Outside a batch an edit is a commit by itself; in a batch it is kept.
    fn change(&mut self, edit: &EditLine<'_>) -> Result<(), Refusal>
        ensures { Comes self.old self.new (Command.Change edit.now) result }
    {
        match &mut self.batch {
            Some(batch) => batch.keep(self.alloc, edit),
            None => {
                let Ok(edit) = edit.to_edit(self.alloc) else {
                    return Err(Refusal::Edit(EditFault::OutOfMemory));
                };
                self.commit_edits(slice::from_ref(&edit))
            }
        }
    }

    fn begin(&mut self) -> Result<(), Refusal>
        ensures { Comes self.old self.new Command.Begin result }
    {
        if self.batch.is_some() {
            return Err(Refusal::InBatch);
        }
        self.batch = Some(Batch::new(self.alloc));
        Ok(())
    }

    // The batch ends, whether its commit is taken or refused.
    fn commit(&mut self) -> Result<(), Refusal>
        ensures { Comes self.old self.new Command.Commit result }
    {
        match self.batch.take() {
            Some(batch) => self.commit_edits(batch.as_slice()),
            None => Err(Refusal::NoBatch),
        }
    }

    fn abort(&mut self) -> Result<(), Refusal>
        ensures { Comes self.old self.new Command.Abort result }
    {
        match self.batch.take() {
            Some(_) => Ok(()),
            None => Err(Refusal::NoBatch),
        }
    }

    // Where it is refused nothing changes.
    #[tactic(auto, using(crate::proofs::HeldLemmas::all_past))]
    fn commit_edits(&mut self, edits: &[Edit]) -> Result<(), Refusal>
        ensures { MatchResult result
            (λ _. commit_step self.old edits.now ≡ Ok self.new)
            (λ refusal. (self.new ≡ self.old) × MayRefuseCommit self.old edits.now refusal) }
    {
        match self.bench.commit(edits) {
            Ok(_) => Ok(()),
            Err(fault) => Err(commit_refusal(fault)),
        }
    }

    #[tactic(auto, using(crate::proofs::HeldLemmas::one_more))]
    fn hold(&mut self, name: &WordRef<'_>) -> Result<(), Refusal>
        ensures { Comes self.old self.new (Command.Hold name.now) result }
    {
        present_is_past();
        let held = &mut self.held;
        match held.hold(self.alloc, name.as_str(), self.bench.snapshot()) {
            Ok(()) => Ok(()),
            Err(fault) => Err(Refusal::Edit(fault)),
        }
    }

    #[tactic(auto, using(crate::proofs::HeldLemmas::freed))]
    fn free(&mut self, name: &WordRef<'_>) -> Result<(), Refusal>
        ensures { Comes self.old self.new (Command.Free name.now) result }
    {
        if self.held.free(name.as_str()) {
            Ok(())
        } else {
            Err(Refusal::UnknownHold)
        }
    }

    fn ask<W: Sink>(
        &mut self,
        question: &Question<'_>,
        writer: &mut Writer<'_, W>,
    ) -> Result<(), Refusal>
        requires { is_diff question.now ≡ true → self.old.tools ≡ true }
        ensures asked { Tells (question_result self.old.held question.now self.old.present) writer.old writer.new result }
        ensures state { self.new ≡ self.old }
    {
        if let Question::Diff(name) = question {
            return self.ask_diff(name, writer);
        }
        let present = self.bench.snapshot();
        answer_question(present, &self.held, &mut self.room, question, writer)
    }

    // What differs at present from a snapshot that is held.
    fn ask_diff<W: Sink>(
        &mut self,
        name: &WordRef<'_>,
        writer: &mut Writer<'_, W>,
    ) -> Result<(), Refusal>
        requires { self.old.tools ≡ true }
        ensures asked { Tells (diff_result self.old.present (held_as self.old.held name.now)) writer.old writer.new result }
        ensures state { self.new ≡ self.old }
    {
        match &mut self.room {
            Some(room) => answer_diff_since(&self.bench, &self.held, name, room, writer),
            None => unreachable!(),
        }
    }

    fn ask_held<W: Sink>(
        &mut self,
        name: &WordRef<'_>,
        question: &Question<'_>,
        writer: &mut Writer<'_, W>,
    ) -> Result<(), Refusal>
        requires { is_diff question.now ≡ true → self.old.tools ≡ true }
        ensures asked { Tells (held_result self.old.held question.now (held_as self.old.held name.now)) writer.old writer.new result }
        ensures state { self.new ≡ self.old }
    {
        match self.held.get(name.as_str()) {
            Some(snapshot) => {
                answer_question(snapshot, &self.held, &mut self.room, question, writer)
            }
            None => Err(Refusal::UnknownHold),
        }
    }
}

// Room for differences, where the questions of tools are known.
fn open_room(alloc: Global, tools: bool) -> Result<Option<Room>, AllocError>
    ensures { IfOk result (λ room. is_some room ≡ tools) }
{
    if tools {
        Ok(Some(Room::open(alloc)?))
    } else {
        Ok(None)
    }
}

fn commit_refusal(fault: CommitFault) -> Refusal
    ensures { result ≡ refusal_of fault }
{
    match fault {
        CommitFault::Edit(_, fault) => Refusal::Edit(fault),
        CommitFault::OutOfMemory => Refusal::Edit(EditFault::OutOfMemory),
        CommitFault::WorkerLost => Refusal::WorkerLost,
    }
}
