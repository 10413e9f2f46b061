//! Gates that threads follow ahead of a run, beside each other.

ghost use Rattle.std.specs.Prelude.{◌≡◌, ◌<◌, [], true, All, length};
ghost use Rattle.design.specs.Keys.{netlist};
ghost use Rattle.gatestep.specs.Step.{advance};
ghost use Rattle.scratch.specs.kept.Kept.{IsWiring};
ghost use Rattle.ordering.specs.kept.Begins.{IsBegin};
ghost use Rattle.ordering.specs.kept.Helpers.{IsHelper};
ghost use Rattle.ordering.specs.kept.Order.{is_order};

use crate::ahead::Ahead;
use crate::following::Begin;
use crate::looking::look_along;
use crate::progress::{Progress, open_progress};
use design::Design;
use gatestep::{Job, Outcome, Record, Stepper};
use scratch::Wiring;
use std::alloc::{AllocError, Global};
use std::thread;
use std::thread::Threads;

/// So many helpers there are at most (own), each in a thread where the stepper has as many: those that come late find all done.
const HELPERS: usize = 16;

/// So far along the order a helper looks for a gate that can be followed (own).
const LOOK: usize = 128;

/// So often a helper looks and finds nothing to do before it leaves the rest to others (own).
const PATIENCE: usize = 1_000_000;

/// One who follows gates ahead of a run: the first that waits for none and that no other has taken, again and again. What it finds
/// stands in what `begin` shares; it asks and gives nothing by itself.
#[derive(Clone, Copy)]
pub struct Helper<'a, 'b, 'c, 'd> {
    /// Where lines are made.
    pub alloc: Global,
    /// The design.
    pub design: &'d Design,
    /// Its connections.
    pub wiring: &'d Wiring,
    /// From where on it is run, and what the threads share.
    pub begin: Begin<'a, 'b, 'c>,
    /// The places of its gates, in an order.
    pub order: &'d [u32],
}

impl<'a, 'b, 'c, 'd> Job for Helper<'a, 'b, 'c, 'd> {
    type Output = ();

    ghost ready = { IsHelper };

    ghost work = { λ _ _. [] };

    ghost gives = { λ _ _ _. Unit {0} };

    fn run(&self) -> Outcome<()> {
        if let Some(ahead) = self.begin.ahead {
            let _left = help(
                self.alloc,
                self.design,
                self.wiring,
                self.begin,
                self.order,
                ahead,
            );
            ahead.stop();
        }
        Outcome {
            output: Ok(()),
            record: Record::new(),
        }
    }

    fn run_all<R: Threads + Sync>(
        rt: &R,
        threads: usize,
        jobs: &[Helper<'a, 'b, 'c, 'd>],
        places: &mut [Option<Outcome<()>>],
    ) {
        thread::for_each_mut(
            rt,
            places,
            threads,
            &|at, place| {
                *place = Some(jobs[at].run());
            },
        );
    }
}

/// Follows gates until all are found, or it is told to stop, or it found nothing to do for long. It fails where memory runs out.
fn help(
    alloc: Global,
    design: &Design,
    wiring: &Wiring,
    begin: Begin,
    order: &[u32],
    ahead: &Ahead,
) -> Result<(), AllocError>
    requires wired { IsWiring (netlist design.now) wiring.now }
    requires begin { IsBegin advance design.now begin }
    requires within { All (λ place. place < length (netlist design.now).gates) order.now }
{
    if ahead.is_stopped() {
        return Ok(());
    }
    let mut progress = open_progress(alloc, design)?;
    let mut first = 0usize;
    for _ in 0..order.len().saturating_add(PATIENCE) {
        first = first_left(order, &progress, first);
        if first >= order.len() || ahead.is_stopped() {
            return Ok(());
        }
        let end = order.len().min(first.saturating_add(LOOK));
        if !look_along(
            alloc,
            design,
            wiring,
            begin,
            &order[first..end],
            &mut progress,
        )? {
            thread::yield_now();
        }
    }
    Ok(())
}

/// The place in the order, from `first` on, of the first gate that has not come.
fn first_left(order: &[u32], progress: &Progress, first: usize) -> usize {
    for at in first..order.len() {
        if !progress.has_come(order[at]) {
            return at;
        }
    }
    order.len()
}

/// Lets threads follow gates ahead of the run, as many as the stepper has. Nothing counts as asked of it. It fails where memory runs out.
pub fn let_help<S: Stepper>(
    alloc: Global,
    design: &Design,
    wiring: &Wiring,
    begin: Begin,
    order: &[u32],
    stepper: &mut S,
) -> Result<(), AllocError>
    requires none_lost { S.losses stepper.old ≡ 0 }
    requires wired { IsWiring (netlist design.now) wiring.now }
    requires begin { IsBegin S.answer design.now begin }
    requires order { is_order (netlist design.now) order.now ≡ true }
    ensures asked { S.asked stepper.new ≡ S.asked stepper.old }
    ensures lost { S.losses stepper.new ≡ S.losses stepper.old }
{
    let mut helpers = Vec::with_capacity(alloc, HELPERS)?;
    for _ in 0..HELPERS {
        helpers.push(Helper {
            alloc,
            design,
            wiring,
            begin,
            order,
        })?;
    }
    stepper.run_jobs(alloc, helpers.as_slice())?;
    Ok(())
}
