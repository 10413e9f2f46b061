//! What a worker of a pool does.

use crate::message::{Answered, Errand, answer};
use crossbeam_channel::{Receiver, Sender};
use std::sync::Wait;

/// What is called round each piece that a worker computes.
pub trait Probe {
    /// Called before a piece is computed, with its number. `false` ends the worker.
    fn at(&self, piece: u32) -> bool;

    /// Called after a piece was computed, before its answers are sent.
    fn done(&self, piece: u32);
}

/// The probe that lets every piece pass.
#[derive(Clone, Copy, Debug, Drop)]
pub struct Quiet;

impl Probe for Quiet {
    ghost use Rattle.std.specs.Prelude.{◌≡◌, true};

    fn at(&self, _piece: u32) -> bool
        ensures { result ≡ true }
    {
        true
    }

    fn done(&self, _piece: u32) {}
}

/// Answers pieces until a channel is closed or the probe ends it.
pub fn work<R: Wait, P: Probe>(
    rt: &R,
    probe: &P,
    errands: &Receiver<Errand>,
    answers: &Sender<Answered>,
) {
    for _ in rt.forever() {
        let Ok(errand) = errands.recv(rt) else {
            return;
        };
        let number = errand.number;
        if !probe.at(number) {
            return;
        }
        let answered = answer(errand);
        probe.done(number);
        if answers.send(rt, answered).is_err() {
            return;
        }
    }
}
