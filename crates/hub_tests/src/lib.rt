//! Tests of hubs: editors and viewers on one thread and in threads of their own.
#![tactic(auto)]

#[cfg(test)]
mod buffers;
#[cfg(test)]
mod closing;
#[cfg(test)]
mod commits;
#[cfg(test)]
mod compare;
#[cfg(test)]
mod held;
#[cfg(test)]
mod looks;
#[cfg(test)]
mod lost;
#[cfg(test)]
mod receipts;
#[cfg(test)]
mod rows;
#[cfg(test)]
mod threads;
#[cfg(test)]
mod turns;
