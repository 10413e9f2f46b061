//! What a run that follows what differs has taken so far, and when that is too much.

use crate::wide::all_entries;
use design::Design;
use rundiff::Front;
use waveform::Run;

/// To look at a net or a gate beside the old run, or at one driver more of a net, takes about as long as a run from scratch takes
/// for so many of the states that it keeps of gates (own).
const LOOK_COST: u64 = 15;

/// A run goes on through the whole design once looks took one of so many parts of a run from scratch too much (own).
const RUN_SHARE: u64 = 5;

/// When a run that follows what differs goes on through the whole design. The run is the same in any case.
#[derive(Clone, Copy)]
pub enum Limit {
    /// Once looks, from some moment on, took a fifth of a run from scratch more than such a run takes on average over the moments
    /// since.
    Cost,
    /// Once so many nets and gates were looked at, each counted at each moment.
    Looks(u64),
}

/// The looks of a run that follows what differs.
#[derive(Drop)]
pub struct Spending {
    limit: Limit,
    /// How many nets and gates were looked at.
    looks: u64,
    /// By how much the looks from some moment on, the worst one, took longer than a run from scratch takes on average over the
    /// moments since: in states that a run keeps, times the horizon.
    excess: u64,
    /// About how many states of gates and points of inputs a run from scratch keeps, once that was counted.
    whole: Option<u64>,
}

impl Spending {
    /// Nothing was looked at.
    pub fn new(limit: Limit) -> Spending {
        Spending {
            limit,
            looks: 0,
            excess: 0,
            whole: None,
        }
    }

    /// Adds what the front has looked at in a moment, the first of so many at which nothing else is looked at, and says whether the
    /// run is to go on through the whole design behind them.
    pub fn add(&mut self, front: &Front, run: &Run, new: &Design, moments: u64) -> bool {
        let nets = match self.limit {
            Limit::Cost => net_looks(new, front.net_places.as_slice()),
            Limit::Looks(_) => front.net_places.len() as u64,
        };
        let gates = front.gates.len() as u64;
        let looks = nets.saturating_add(gates);
        self.looks = self.looks.saturating_add(looks);
        match self.limit {
            Limit::Cost => self.is_dear(run, new, looks, moments),
            Limit::Looks(most) => self.looks >= most,
        }
    }

    /// Whether looks cost too much, with so many more in so many moments. Each gate has an entry at least, so these are not counted
    /// before that may be so.
    fn is_dear(&mut self, run: &Run, new: &Design, looks: u64, moments: u64) -> bool {
        let all = new.horizon();
        let spent = looks.saturating_mul(LOOK_COST).saturating_mul(all);
        self.excess = self.excess.saturating_add(spent);
        let most = self.looks.saturating_mul(LOOK_COST);
        if most.saturating_mul(RUN_SHARE) < new.gate_count() as u64 {
            return false;
        }
        let whole = self.whole(run, new);
        let spared = whole.saturating_mul(moments);
        self.excess = self.excess.saturating_sub(spared);
        self.excess.saturating_mul(RUN_SHARE) >= whole.saturating_mul(all)
    }

    /// About how many states of gates and points of inputs a run from scratch keeps.
    fn whole(&mut self, run: &Run, new: &Design) -> u64 {
        if let Some(whole) = self.whole {
            return whole;
        }
        let states = all_entries(run, new) as u64;
        let whole = states.saturating_add(new.point_count() as u64);
        self.whole = Some(whole);
        whole
    }
}

/// The looks that some nets take: one for each, and one more for each driver but the first, since the states of all are read.
fn net_looks(new: &Design, places: &[usize]) -> u64 {
    let mut looks = 0u64;
    for place in places {
        looks = looks.saturating_add(net_look(new, *place));
    }
    looks
}

/// The looks that the net at a place takes.
fn net_look(new: &Design, place: usize) -> u64 {
    if place >= new.net_count() {
        return 1;
    }
    let drivers = new.drivers(new.net_key_at(place));
    (drivers.len() as u64).max(1)
}
