//! What the caller's side of a pool keeps of a worker.

ghost use Rattle.std.specs.Prelude.{◌≡◌, ◌<◌, ◌≤◌, ◌+◌, length, map, All, IfOk, IfErr, OnOk};
ghost use Rattle.fourstate.specs.declared.limits.TheConstants.{MAX_TIME};
ghost use Rattle.gatestep.specs.Step.{advance};
ghost use Rattle.gatestep.specs.Tasks.{IsReady, PendingFrom};
ghost use Rattle.parstep.specs.kept.Sends.{send_fault};

use crate::compare::same_tasks;
use crate::message::{Answered, Errand, errand_of};
use crossbeam_channel::{Receiver, SendError, Sender};
use gatestep::{Driver, StepFault, Task};
use std::alloc::{AllocError, Global};
use std::mem;
use std::sync::Wait;
use std::thread::JoinHandle;

/// The caller's ends of a worker's two channels, and the lists that came back with its last answers.
#[derive(Drop)]
pub struct Seat {
    errands: Sender<Errand>,
    answers: Receiver<Answered>,
    tasks: Vec<Task>,
    room: Vec<Driver>,
    // A piece was sent whose answers did not come yet.
    is_busy: bool,
}

impl Seat {
    /// The seat of a worker that was started and sent nothing. The handle of its thread is dropped.
    pub fn new(
        alloc: Global,
        errands: Sender<Errand>,
        answers: Receiver<Answered>,
        worker: JoinHandle<()>,
    ) -> Seat {
        drop(worker);
        Seat {
            errands,
            answers,
            tasks: Vec::new(alloc),
            room: Vec::new(alloc),
            is_busy: false,
        }
    }

    /// Sends a piece of a step to the worker. Answers that are left over from a refused step are waited for and dropped
    /// first, so that no more than one piece is out and no channel is ever full.
    pub fn send<R: Wait>(
        &mut self,
        rt: &R,
        alloc: Global,
        number: u32,
        tasks: &[Task],
        t: u64,
    ) -> Result<(), StepFault>
        requires some { 0 < length tasks.now }
        requires ready { All (IsReady t) tasks.now }
        requires within { t ≤ MAX_TIME }
    {
        if self.is_busy {
            let left_over = self.take(rt)?;
            self.keep(left_over);
        }
        let errand = self.errand(alloc, number, tasks, t)?;
        match self.errands.send(rt, errand) {
            Ok(()) => {
                self.is_busy = true;
                Ok(())
            }
            Err(error) => Err(fault_of(error)),
        }
    }

    // The piece as a message, in the lists that came back last.
    fn errand(
        &mut self,
        alloc: Global,
        number: u32,
        tasks: &[Task],
        t: u64,
    ) -> Result<Errand, AllocError>
        requires some { 0 < length tasks.now }
        requires ready { All (IsReady t) tasks.now }
        requires within { t ≤ MAX_TIME }
    {
        let copies = mem::replace(&mut self.tasks, Vec::new(alloc));
        let room = mem::replace(&mut self.room, Vec::new(alloc));
        errand_of(number, t, tasks, copies, room)
    }

    /// Waits for the answers to these tasks at this moment. Answers to others are dropped.
    pub fn receive<R: Wait>(
        &mut self,
        rt: &R,
        number: u32,
        tasks: &[Task],
        t: u64,
    ) -> Result<Answered, StepFault>
        ensures number { IfOk result (λ answered. answered.number ≡ number) }
        ensures answers { IfOk result (λ answered. answered.drivers.items ≡ map (λ task. advance task t) tasks.now) }
        ensures later { IfOk result (λ answered. All (PendingFrom (t + 1)) answered.drivers.items) }
        ensures fault { IfErr result (λ fault. fault ≡ StepFault.WorkerLost) }
    {
        for _ in rt.forever() {
            let answered = self.take(rt)?;
            if answered.number == number
                && answered.t == t
                && same_tasks(answered.tasks.as_slice(), tasks)
            {
                return Ok(answered);
            }
        }
        unreachable!()
    }

    /// Keeps the lists of answers for the next piece.
    pub fn keep(&mut self, answered: Answered) {
        let Answered { tasks, drivers, .. } = answered;
        self.tasks = tasks;
        self.room = drivers;
    }

    fn take<R: Wait>(&mut self, rt: &R) -> Result<Answered, StepFault>
        ensures fault { IfErr result (λ fault. fault ≡ StepFault.WorkerLost) }
    {
        match self.answers.recv(rt) {
            Ok(answered) => {
                self.is_busy = false;
                Ok(answered)
            }
            Err(_) => Err(StepFault::WorkerLost),
        }
    }
}

// Why a message could not be sent: the worker is lost where its channel is closed.
fn fault_of(error: SendError<Errand>) -> StepFault
    ensures { result ≡ send_fault error }
{
    match error {
        SendError::OutOfMemory(_) => StepFault::OutOfMemory,
        SendError::Disconnected(_) => StepFault::WorkerLost,
    }
}
