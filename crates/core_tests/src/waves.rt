//! Waves as texts.

use crate::compare::equal;
use design::Design;
use scratch::wave_named;
use std::alloc::Global;
use std::process::Abort;
use waveform::{Run, Wave};

/// The changes of a wave, each with a blank in front.
pub fn text_of(rt: &impl Abort, alloc: Global, wave: &Wave) -> String {
    let mut text = String::new(alloc);
    for change in wave.changes() {
        let symbol = char::from(change.value().symbol());
        write!(text, " {}:{}", change.time(), symbol).expect(rt, "a change");
    }
    text
}

/// A net's name and its wave.
pub type Named<'a> = (&'a str, &'a str);

/// These nets have these waves in the run.
pub fn check_waves(
    rt: &impl Abort,
    alloc: Global,
    design: &Design,
    run: &Run,
    waves: &[Named<'_>],
) {
    for (net, wanted) in waves {
        let wave = wave_named(design, run, net).expect(rt, "a net of this name");
        let text = text_of(rt, alloc, wave);
        equal(rt, *net, text.as_str(), *wanted);
        drop(text);
    }
}
