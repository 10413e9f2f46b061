//! The tasks of a moment, dealt in pieces, and their answers put together in order.

ghost use Rattle.std.specs.Prelude.{◌≡◌, ◌<◌, ◌≤◌, ◌+◌, ◌-◌, ◌++◌, take, drop, ℕ, length, IfOk, IfErr, Ok, option_map, OnOk, Err};
ghost use Rattle.floor.specs.kept.Pieces.{opened, next_piece, answer_reply, fail_reply, finished, after, first_task, first_waiting, all_answered};
ghost use Rattle.floor.specs.kept.Pieces.{Deal, Answer, Fail, Finish};

use crate::cut::first_task;
use crate::fault::FloorFault;
use crate::piece::Piece;
use crate::stage::Stage;
use gatestep::Driver;
use std::alloc::Global;
use std::marker::Model;

/// The tasks of a moment in pieces, and what has become of each. Word of a piece is taken once, in whatever order it comes.
#[derive(Drop)]
pub struct Floor {
    tasks: usize,
    stages: Vec<Stage>,
    // The answers of all pieces, in order; none once they were given on.
    answers: Option<Vec<Driver>>,
}

impl Model for Floor {
    ghost use Rattle.std.specs.Prelude.{◌≡◌, ◌<◌, ◌^◌, All, length, is_none, IfSome, IfNone, []};
    ghost use Rattle.std.specs.Option.{option_map_or};
    ghost use Rattle.floor.specs.kept.Pieces.{Dealing};
    ghost use Rattle.floor.specs.kept.Held.{pieces_from};
    ghost use Rattle.floor.specs.declared.stage.Stage.TheVariants as stage;

    ghost Value = { Dealing };

    ghost view = { λ a. record { tasks = a.tasks; pieces = pieces_from a.tasks (length a.stages.items) 0 a.stages.items (option_map_or (λ v. v.items) a.answers []); given = is_none a.answers } };

    ghost invariant = { λ a. record { some : 0 < a.tasks → 0 < length a.stages.items; few : length a.stages.items < 2 ^ 32; whole : IfSome a.answers (λ v. length v.items ≡ a.tasks); given : IfNone a.answers (All (λ s. s ≡ stage.Answered) a.stages.items) } };
}

impl Floor {
    /// So many tasks in so many pieces, all waiting. Nothing else takes memory.
    #[tactic(auto, using(crate::proofs::Standing::all_wait, crate::proofs::Standing::count_of_pieces))]
    pub fn open(alloc: Global, tasks: usize, pieces: u32) -> Result<Floor, FloorFault>
        requires some { 0 < tasks → 0 < pieces }
        ensures opened { IfOk result (λ floor. floor ≡ opened tasks pieces) }
        ensures fault { IfErr result (λ fault. fault ≡ FloorFault.OutOfMemory) }
    {
        let stages = vec![in alloc; Stage::Waiting; pieces as usize]?;
        let answers = vec![in alloc; Driver::start(); tasks]?;
        Ok(Floor {
            tasks,
            stages,
            answers: Some(answers),
        })
    }

    /// Deals the first piece that waits.
    #[tactic(auto, using(crate::proofs::Standing::count_of_pieces, crate::proofs::Standing::piece_set))]
    pub fn deal(&mut self) -> Option<Piece>
        ensures piece { result ≡ next_piece self.old }
        ensures state { self.new ≡ after self.old Deal }
    {
        let number = self.first_waiting();
        if number == self.stages.len() {
            return None;
        }
        self.stages[number] = Stage::Out;
        Some(self.piece(number as u32))
    }

    /// Takes the answers of a piece, in the order of its tasks.
    #[tactic(auto, using(crate::proofs::Standing::count_of_pieces, crate::proofs::Standing::piece_written))]
    pub fn answer(&mut self, number: u32, drivers: &[Driver]) -> Result<(), FloorFault>
        ensures reply { result ≡ answer_reply self.old number drivers.now }
        ensures state { self.new ≡ after self.old (Answer number drivers.now) }
    {
        let piece = self.awaited(number)?;
        if drivers.len() != piece.end - piece.first {
            return Err(FloorFault::WrongLength);
        }
        if let Some(answers) = &mut self.answers {
            write(answers, piece.first, piece.end, drivers);
        }
        self.stages[number as usize] = Stage::Answered;
        Ok(())
    }

    /// Takes word that a piece has no answers.
    #[tactic(auto, using(crate::proofs::Standing::count_of_pieces, crate::proofs::Standing::piece_set))]
    pub fn fail(&mut self, number: u32) -> Result<(), FloorFault>
        ensures reply { result ≡ fail_reply self.old number }
        ensures state { self.new ≡ after self.old (Fail number) }
    {
        self.awaited(number)?;
        self.stages[number as usize] = Stage::Failed;
        Ok(())
    }

    /// Gives the answers to all tasks, in order: once, where each piece was answered.
    #[tactic(auto, using(crate::proofs::Standing::joined_are, crate::proofs::Standing::stages_of_all, crate::proofs::Standing::all_emptied, crate::proofs::Cuts::first_ends))]
    pub fn finish(&mut self) -> Option<Vec<Driver>>
        ensures answers { option_map (λ v. v.items) result ≡ finished self.old }
        ensures state { self.new ≡ after self.old Finish }
    {
        if !self.all_answered() {
            return None;
        }
        self.answers.take()
    }

    /// The number of the first piece that waits; the number of pieces where none does.
    #[tactic(auto, using(crate::proofs::Standing::count_of_pieces, crate::proofs::Standing::first_waits, crate::proofs::Standing::none_waits))]
    fn first_waiting(&self) -> usize
        ensures number { result ≡ first_waiting self.now.pieces }
        ensures within { result ≤ length self.now.pieces }
    {
        for number in 0..self.stages.len() {
            if self.stages[number] == Stage::Waiting {
                return number;
            }
        }
        self.stages.len()
    }

    /// Whether each piece was answered.
    #[tactic(auto, using(crate::proofs::Standing::all_are_answered, crate::proofs::Standing::one_is_not))]
    fn all_answered(&self) -> bool
        ensures { result ≡ all_answered self.now.pieces }
    {
        for stage in self.stages.as_slice() {
            if *stage != Stage::Answered {
                return false;
            }
        }
        true
    }

    /// The tasks of a piece.
    #[tactic(auto, using(crate::proofs::Standing::count_of_pieces, crate::proofs::Cuts::first_rises, crate::proofs::Cuts::first_within))]
    fn piece(&self, number: u32) -> Piece
        requires { number < length self.now.pieces }
        ensures number { result.number ≡ number }
        ensures first { result.first ≡ first_task self.now.tasks (length self.now.pieces) number }
        ensures end { result.end ≡ first_task self.now.tasks (length self.now.pieces) (number + 1) }
        ensures ordered { result.first ≤ result.end }
        ensures within { result.end ≤ self.now.tasks }
    {
        let pieces = self.stages.len() as u32;
        Piece {
            number,
            first: first_task(self.tasks, pieces, number),
            end: first_task(self.tasks, pieces, number + 1),
        }
    }

    /// The tasks of a piece of which word is awaited.
    #[tactic(auto, using(crate::proofs::Standing::count_of_pieces, crate::proofs::Changes::awaited_at, crate::proofs::Changes::awaited_past))]
    fn awaited(&self, number: u32) -> Result<Piece, FloorFault>
        ensures ok { OnOk result (fail_reply self.now number ≡ Ok tt) }
        ensures err { IfErr result (λ fault. fail_reply self.now number ≡ Err fault) }
        ensures within { OnOk result (number < length self.now.pieces) }
        ensures first { IfOk result (λ piece. piece.first ≡ first_task self.now.tasks (length self.now.pieces) number) }
        ensures end { IfOk result (λ piece. piece.end ≡ first_task self.now.tasks (length self.now.pieces) (number + 1)) }
        ensures ordered { IfOk result (λ piece. piece.first ≤ piece.end) }
        ensures end_within { IfOk result (λ piece. piece.end ≤ self.now.tasks) }
    {
        if number as usize >= self.stages.len() {
            return Err(FloorFault::Stranger);
        }
        match self.stages[number as usize] {
            Stage::Waiting => Err(FloorFault::Stranger),
            Stage::Out => Ok(self.piece(number)),
            Stage::Answered => Err(FloorFault::Double),
            Stage::Failed => Err(FloorFault::Double),
        }
    }
}

/// Writes drivers over a part of the answers.
fn write(answers: &mut Vec<Driver>, first: usize, end: usize, drivers: &[Driver])
    requires ordered { first ≤ end }
    requires within { end ≤ length answers.old.items }
    requires fits { length drivers.now ≡ end - first }
    ensures { answers.new.items ≡ take first answers.old.items ++ (drivers.now ++ drop end answers.old.items) }
{
    answers.as_mut_slice()[first..end].copy_from_slice(drivers);
}
