//! Stored waves of nets and traces of drivers: functions of time, kept as the entries at which they change.
#![tactic(auto)]

mod apart;
mod change;
mod currents;
mod digits;
mod entries;
mod entry;
pub mod laws;
mod lines;
mod lookup;
mod marks;
mod patch;
mod run;
mod sample;
mod table;
mod timeline;
mod times;
mod trace;
mod wave;
mod writing;

pub use change::Change;
pub use currents::append_currents;
pub use entry::TraceEntry;
pub use lines::Lines;
pub use lookup::Lookup;
pub use patch::Patch;
pub use run::Run;
pub use sample::Sample;
pub use timeline::Timeline;
pub use times::TIME_END;
pub use trace::Trace;
pub use wave::Wave;
