//! What is evaluated of one gate at one moment, and how.

ghost use Rattle.std.specs.Prelude.{◌≡◌, ◌≤◌, ◌+◌, IsTrue, length};
ghost use Rattle.fourstate.specs.Gates.{takes_inputs};
ghost use Rattle.fourstate.specs.declared.limits.TheConstants.{MAX_DELAY, MAX_TIME};
ghost use Rattle.gatestep.specs.Step.{advance};
ghost use Rattle.gatestep.specs.Tasks.{IsReady, PendingFrom};
ghost use Rattle.gatestep.specs.kept.Tasks.{IsTask, PendingBefore};

use crate::driver::Driver;
use fourstate::{Delays, GateKind, Inputs, delay, gate_value, laws};
use std::marker::Model;
use std::mem::size_of;

const _: () = prove!(size_of::<Task>() == 56);

/// What is asked of one gate at one moment: its kind and delays, its state before the moment, and its inputs at the
/// moment. The type keeps that the inputs fit. It takes no memory.
#[derive(Clone, Copy, Debug)]
pub struct Task {
    kind: GateKind,
    delays: Delays,
    state: Driver,
    inputs: Inputs,
}

impl Model for Task {
    ghost use Rattle.gatestep.specs.Step.{Evaluation};
    ghost use Rattle.gatestep.specs.kept.Tasks.{IsTask};

    ghost Value = { Evaluation };

    ghost view = { λ a. record { kind = a.kind; delays = a.delays; state = a.state; inputs = a.inputs } };

    ghost invariant = { λ a. IsTask (record { kind = a.kind; delays = a.delays; state = a.state; inputs = a.inputs }) };

    ghost inverse = { λ e. record { kind = e.kind; delays = e.delays; state = e.state; inputs = e.inputs } };
}

impl Task {
    /// The task of a gate of these inputs.
    #[inline(always)]
    pub fn new(kind: GateKind, delays: Delays, state: Driver, inputs: Inputs) -> Task
        requires { IsTrue (takes_inputs kind (length inputs)) }
        ensures task { IsTask result }
        ensures value { result ≡ record { kind = kind; delays = delays; state = state; inputs = inputs } }
    {
        laws::delays_in_range(&delays);
        Task {
            kind,
            delays,
            state,
            inputs,
        }
    }

    /// The gate's kind.
    #[inline(always)]
    pub fn kind(&self) -> GateKind
        ensures { result ≡ self.now.kind }
    {
        self.kind
    }

    /// The gate's delays.
    #[inline(always)]
    pub fn delays(&self) -> Delays
        ensures { result ≡ self.now.delays }
    {
        self.delays
    }

    /// The state of the gate's driver before the moment.
    #[inline(always)]
    pub fn state(&self) -> Driver
        ensures { result ≡ self.now.state }
    {
        self.state
    }

    /// The values of the gate's inputs at the moment.
    #[inline(always)]
    pub fn inputs(&self) -> Inputs
        ensures { result ≡ self.now.inputs }
    {
        self.inputs
    }

    /// What every task keeps. It does nothing.
    pub fn lawful(&self)
        ensures { IsTask self.now }
    {
        let _inputs = &self.inputs;
    }
}

/// The gate's state after the moment `t`, in time units: first a due event becomes current, then the gate is evaluated
/// and its new value scheduled. An event that is pending with this value keeps its time, another one is descheduled,
/// and the current value schedules nothing (IEEE 1364-2005, 6.1.3; own).
#[inline(always)]
pub fn next(task: &Task, t: u64) -> Driver
    requires ready { IsReady t task.now }
    requires within { t ≤ MAX_TIME }
    ensures next { result ≡ advance task.now t }
    ensures later { PendingFrom (t + 1) result }
    ensures near { PendingBefore (t + MAX_DELAY) task.now.state → PendingBefore (t + 1 + MAX_DELAY) result }
{
    let state = task.state.due(t);
    let value = gate_value(task.kind, &task.inputs);
    match state.pending() {
        Some((pending, _)) if pending == value => state,
        _ if value == state.current() => Driver::steady(value),
        _ => Driver::waiting(
            state.current(),
            value,
            t + u64::from(delay(&task.delays, value)),
        ),
    }
}
