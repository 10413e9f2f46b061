//! Steppers in several threads, beside the one on the caller's thread.

mod ahead;
mod asking;
mod dumps;
mod jobs;
mod lost;
mod meeting;
mod probes;
mod replaced;
mod steps;
mod tasks;
mod threads;
