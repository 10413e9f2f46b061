//! The scripts of a race.

ghost use Rattle.std.specs.Prelude.{◌≡◌, ◌++◌, ◌∷◌, [], true, false, None, Some, Ok, Err, IfErr, IfOk, OnOk};
ghost use Rattle.session.specs.Steps.{has_room};
ghost use Rattle.racer.specs.Scripts.{IsScriptFault, empty, script_of, with_line, with_said};

use crate::commit::Commit;
use crate::lines::first_line;
use edits::Edit;
use session::{Line, LineFault, line};
use std::alloc::{AllocError, Global};
use std::marker::Model;

/// What lines have said so far: the commits, in order, and the edits of the batch that is open.
#[derive(Drop)]
pub struct Script {
    commits: Vec<Commit>,
    batch: Option<Commit>,
}

impl Model for Script {
    ghost use Rattle.racer.specs.Scripts.{ScriptRecord};

    ghost Value = { ScriptRecord };

    ghost view = { λ s. record { commits = s.commits.items; batch = s.batch } };
}

/// Why a line adds nothing to a script.
#[derive(Clone, Copy, Debug, PartialEq, Eq)]
pub enum LineRefusal {
    /// The line can't be read, or can't stand where it stands.
    BadLine,
    /// An allocation was refused.
    OutOfMemory,
}

impl From<AllocError> for LineRefusal {
    ghost use Rattle.std.specs.Prelude.{◌≡◌};
    ghost use Rattle.racer.specs.declared.script.LineRefusal.TheVariants.{OutOfMemory};

    ghost from_gives = { λ _ refusal. refusal ≡ OutOfMemory };

    fn from(_error: AllocError) -> LineRefusal {
        LineRefusal::OutOfMemory
    }
}

/// Why a text is no script.
#[derive(Clone, Copy, Debug, PartialEq, Eq)]
pub enum ScriptFault {
    /// The line of this number, the first one being 1, is the first that can't be read or can't stand where it stands.
    Line(u64),
    /// An allocation was refused.
    OutOfMemory,
}

impl Script {
    fn new(alloc: Global) -> Script
        ensures { result ≡ empty }
    {
        Script {
            commits: Vec::new(alloc),
            batch: None,
        }
    }

    /// The script that a text writes, or the number of its first bad line.
    pub fn read(alloc: Global, text: &[u8]) -> Result<Script, ScriptFault>
        ensures ok { IfOk result (λ script. script_of text.now ≡ Ok script) }
        ensures fault { IfErr result (IsScriptFault text.now) }
    {
        let mut script = Script::new(alloc);
        let mut rest = text;
        let mut number = 1;
        'lines: while let Some((line, behind)) = first_line(rest) {
            match script.take_in(alloc, line) {
                Ok(()) => {}
                Err(LineRefusal::BadLine) => return Err(ScriptFault::Line(number)),
                Err(LineRefusal::OutOfMemory) => return Err(ScriptFault::OutOfMemory),
            }
            rest = behind;
            number += 1;
        }
        Ok(script)
    }

    /// The commits. A batch that is left open is dropped.
    pub fn into_commits(self) -> Vec<Commit>
        ensures { result.items ≡ self.commits }
    {
        let Script { commits, batch: _ } = self;
        commits
    }

    // Takes in the next line, which comes without its line feed.
    fn take_in(&mut self, alloc: Global, text: &[u8]) -> Result<(), LineRefusal>
        ensures ok { OnOk result (with_line self.old text.now ≡ Some self.new) }
        ensures bad { result ≡ Err LineRefusal.BadLine → with_line self.old text.now ≡ None }
    {
        match line(alloc, text) {
            Ok(said) => self.take_said(alloc, said),
            Err(LineFault::OutOfMemory) => Err(LineRefusal::OutOfMemory),
            Err(_) => Err(LineRefusal::BadLine),
        }
    }

    fn take_said(&mut self, alloc: Global, said: Line) -> Result<(), LineRefusal>
        ensures ok { OnOk result (with_said self.old (Ok said) ≡ Some self.new) }
        ensures bad { result ≡ Err LineRefusal.BadLine → with_said self.old (Ok said) ≡ None }
    {
        match said {
            Line::Skip | Line::Other => Ok(()),
            Line::Edit(edit) => self.edit(alloc, edit),
            Line::Begin => self.begin(alloc),
            Line::Commit => self.commit(),
            Line::Abort => self.abort(),
        }
    }

    // Outside a batch an edit is a commit by itself; in a batch it is kept, as long as there is room.
    fn edit(&mut self, alloc: Global, edit: Edit) -> Result<(), LineRefusal>
        ensures ok { OnOk result (with_said self.old (Ok (Line.Edit edit)) ≡ Some self.new) }
        ensures bad { result ≡ Err LineRefusal.BadLine → with_said self.old (Ok (Line.Edit edit)) ≡ None }
    {
        match &mut self.batch {
            Some(batch) => add(batch, edit),
            None => self.commit_one(alloc, edit),
        }
    }

    fn commit_one(&mut self, alloc: Global, edit: Edit) -> Result<(), LineRefusal>
        requires { self.old.batch ≡ None }
        ensures ok { OnOk result (with_said self.old (Ok (Line.Edit edit)) ≡ Some self.new) }
        ensures memory { IfErr result (λ refusal. refusal ≡ LineRefusal.OutOfMemory) }
    {
        let commit = Commit::of(alloc, edit)?;
        self.push(commit)
    }

    fn begin(&mut self, alloc: Global) -> Result<(), LineRefusal>
        ensures ok { OnOk result (with_said self.old (Ok Line.Begin) ≡ Some self.new) }
        ensures bad { IfErr result (λ _. with_said self.old (Ok Line.Begin) ≡ None) }
    {
        if self.batch.is_some() {
            return Err(LineRefusal::BadLine);
        }
        self.batch = Some(Commit::new(alloc));
        Ok(())
    }

    fn commit(&mut self) -> Result<(), LineRefusal>
        ensures ok { OnOk result (with_said self.old (Ok Line.Commit) ≡ Some self.new) }
        ensures bad { result ≡ Err LineRefusal.BadLine → with_said self.old (Ok Line.Commit) ≡ None }
    {
        match self.batch.take() {
            Some(batch) => self.push(batch),
            None => Err(LineRefusal::BadLine),
        }
    }

    fn abort(&mut self) -> Result<(), LineRefusal>
        ensures ok { OnOk result (with_said self.old (Ok Line.Abort) ≡ Some self.new) }
        ensures bad { IfErr result (λ _. with_said self.old (Ok Line.Abort) ≡ None) }
    {
        match self.batch.take() {
            Some(_batch) => Ok(()),
            None => Err(LineRefusal::BadLine),
        }
    }

    // One commit more.
    fn push(&mut self, commit: Commit) -> Result<(), LineRefusal>
        ensures ok { OnOk result (self.new ≡ record self.old { commits = self.old.commits ++ commit ∷ [] }) }
        ensures memory { IfErr result (λ refusal. refusal ≡ LineRefusal.OutOfMemory) }
    {
        match self.commits.push(commit) {
            Ok(()) => Ok(()),
            Err(_) => Err(LineRefusal::OutOfMemory),
        }
    }
}

// Keeps an edit of a batch too, if there is room.
fn add(batch: &mut Commit, edit: Edit) -> Result<(), LineRefusal>
    ensures ok { OnOk result ((has_room batch.old ≡ true) × (batch.new ≡ batch.old ++ edit ∷ [])) }
    ensures bad { result ≡ Err LineRefusal.BadLine → has_room batch.old ≡ false }
{
    if !batch.has_room() {
        return Err(LineRefusal::BadLine);
    }
    batch.add(edit)?;
    Ok(())
}
