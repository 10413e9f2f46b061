//! Tests of the crates from edits to commits: what no run of a program shows, and a call of each function, worked out by hand.
#![tactic(auto)]

#[cfg(test)]
mod benches;
#[cfg(test)]
mod calls;
#[cfg(test)]
mod compare;
#[cfg(test)]
mod counting;
#[cfg(test)]
mod dice;
#[cfg(test)]
mod dumps;
#[cfg(test)]
mod edit_lists;
#[cfg(test)]
mod editors;
#[cfg(test)]
mod orders;
#[cfg(test)]
mod pools;
#[cfg(test)]
mod reruns;
#[cfg(test)]
mod runs;
#[cfg(test)]
mod shortened;
#[cfg(test)]
mod twenty;
#[cfg(test)]
mod waves;
