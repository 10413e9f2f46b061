//! A session whose stepper loses its worker.

ghost use Rattle.std.specs.Prelude.{◌≡◌, false, nat_lt};
ghost use Rattle.gatestep.specs.Step.{advance};
ghost use Rattle.gatestep.specs.kept.StepLaws.{advance_current, advance_later, advance_near, advance_stays};

use crate::compare::equal;
use devices::Device;
use gatestep::{Driver, Job, Record, Serial, StepFault, Stepper, Task, next};
use session::{Options, SessionFault, run};
use std::alloc::{AllocError, Global};
use std::process::Abort;
use std::random::RandomSource;
use std::sync::Wait;

// Answers as `Serial` does. It deals the steps of so many tasks or more, and makes so many steps before its worker is lost; from
// then on it deals all steps, and each is answered so.
#[derive(Drop)]
struct Losing {
    serial: Serial,
    history: Record,
    is_lost: bool,
    least_dealt: usize,
    left: u32,
    ghost lost: { is_lost ≡ nat_lt 0 history.losses },
}

impl Losing {
    fn new(least_dealt: usize, left: u32) -> Losing {
        Losing {
            serial: Serial::new(),
            history: Record::new(),
            is_lost: false,
            least_dealt,
            left,
        }
    }
}

impl Stepper for Losing {
    ghost answer = { advance };

    ghost asked = { λ s. s.history.asked };

    ghost losses = { λ s. s.history.losses };

    fn step(&mut self, tasks: &[Task], t: u64, out: &mut Vec<Driver>) -> Result<(), StepFault> {
        let lost = self.is_lost || self.left == 0;
        self.is_lost = lost;
        self.left = self.left.saturating_sub(1);
        self.history.add(tasks, t, lost);
        if lost {
            return Err(StepFault::WorkerLost);
        }
        match self.serial.step(tasks, t, out) {
            Ok(()) => Ok(()),
            Err(_) => Err(StepFault::OutOfMemory),
        }
    }

    fn deals(&self, tasks: usize) -> bool {
        self.is_lost || tasks >= self.least_dealt
    }

    fn evaluate(&mut self, task: &Task, t: u64) -> Driver {
        self.history.add_one(task, t);
        next(task, t)
    }

    fn takes_jobs(&self) -> bool {
        false
    }

    fn run_jobs<J: Job + Sync>(
        &mut self,
        alloc: Global,
        jobs: &[J],
    ) -> Result<Vec<J::Output>, AllocError> {
        let mut alone = Serial::new();
        let outputs = alone.run_jobs(alloc, jobs);
        self.history.append(&alone.into_record());
        outputs
    }

    ghost answer_current = { advance_current };

    ghost answer_pending = { advance_later };

    ghost answer_near = { advance_near };

    ghost answer_stays = { advance_stays };
}

// How a session ends with this stepper, what it has not read, and its replies.
fn ended<'a>(
    rt: &(impl Wait + RandomSource),
    alloc: Global,
    design: &[u8],
    stepper: Losing,
    input: &'a [u8],
) -> (Result<(), SessionFault>, &'a [u8], Vec<u8>) {
    let mut source = Device::new(input);
    let mut sink = Device::new(Vec::new(alloc));
    let options = Options {
        horizon: 0,
        delay: None,
        tools: false,
    };
    let result = run(rt, alloc, design, &options, &mut source, &mut sink, stepper);
    (result, source.inner, sink.inner)
}

// The session ends so, with these replies.
fn check(
    rt: &(impl Wait + RandomSource + Abort),
    alloc: Global,
    design: &[u8],
    stepper: Losing,
    input: &[u8],
    want: (Result<(), SessionFault>, &[u8]),
) {
    let (result, _, replies) = ended(rt, alloc, design, stepper, input);
    equal(rt, "result", result, want.0);
    equal(rt, "replies", replies.as_slice(), want.1);
    drop(replies);
}

#[test]
fn a_lost_worker_changes_nothing(rt: HostRuntime) {
    let input = b"input a\nnet y wire\ngate g not 1 1 y a\nstim a 0 0\nwave y\nquit\n";
    let want = b"ok 1\nok 2\nok 3\nno 15 WorkerLost\n0 x\nok 3\nok 3\n";
    check(
        &rt,
        rt.alloc(),
        b"module m; endmodule",
        Losing::new(0, 1),
        input,
        (Ok(()), want),
    );
}

const GATE: &[u8] = b"module m(input a, output y); not #1 g(y, a); endmodule";

const TWENTY_GATES: &[u8] = b"module m(input a, output y);
    not #1 g0(y, a), g1(y, a), g2(y, a), g3(y, a), g4(y, a), g5(y, a), g6(y, a), g7(y, a), g8(y, a);
    not #1 g9(y, a), g10(y, a), g11(y, a), g12(y, a), g13(y, a), g14(y, a), g15(y, a), g16(y, a);
    not #1 g17(y, a), g18(y, a), g19(y, a);
    endmodule";

#[test]
fn a_worker_lost_at_the_opening_opens_nothing(rt: HostRuntime) {
    let input = b"wave y\n".as_slice();
    for (design, least_dealt) in [(GATE, 0), (TWENTY_GATES, 20)] {
        let stepper = Losing::new(least_dealt, 0);
        let (result, unread, replies) = ended(&rt, rt.alloc(), design, stepper, input);
        equal(&rt, "result", result, Err(SessionFault::WorkerLost));
        equal(&rt, "what is not read", unread, input);
        assert!(rt; replies.is_empty());
        drop(replies);
    }
}

#[test]
fn an_opening_of_one_moment_takes_one_step(rt: HostRuntime) {
    let want = b"0 x\nok 0\nno 15 WorkerLost\n";
    check(
        &rt,
        rt.alloc(),
        GATE,
        Losing::new(0, 1),
        b"wave y\nstim a 0 0\n",
        (Ok(()), want),
    );
}

#[test]
fn a_commit_that_loses_a_worker_ends_its_batch(rt: HostRuntime) {
    let input = b"begin\nstim a 0 0\ncommit\ncommit\nwave y\n";
    let want = b"ok 0\nok 0\nno 15 WorkerLost\nno 19 NoBatch\n0 x\nok 0\n";
    check(
        &rt,
        rt.alloc(),
        GATE,
        Losing::new(0, 1),
        input,
        (Ok(()), want),
    );
}
