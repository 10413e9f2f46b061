//! Tests of the crates that a run stands on: what they answer, worked out by hand.
#![tactic(auto)]

#[cfg(test)]
mod bytes;
#[cfg(test)]
mod catalogs;
#[cfg(test)]
mod chunks;
#[cfg(test)]
mod compare;
#[cfg(test)]
mod designs;
#[cfg(test)]
mod dice;
#[cfg(test)]
mod event_queues;
#[cfg(test)]
mod floors;
#[cfg(test)]
mod lookups;
#[cfg(test)]
mod partings;
#[cfg(test)]
mod patches;
#[cfg(test)]
mod steps;
#[cfg(test)]
mod tables;
#[cfg(test)]
mod timelines;
#[cfg(test)]
mod tokens;
