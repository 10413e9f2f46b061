//! Tests of what no run of a program shows of texts and sessions: the modules of a text, what each call gives, devices that fail
//! and a stepper that loses its worker. What a program says of texts and lines is tested over the program, in `tests`.
#![tactic(auto)]

#[cfg(test)]
mod compare;
#[cfg(test)]
mod instances;
#[cfg(test)]
mod lines;
#[cfg(test)]
mod lost_worker;
#[cfg(test)]
mod modules;
#[cfg(test)]
mod readings;
#[cfg(test)]
mod sessions;
#[cfg(test)]
mod vectors;
