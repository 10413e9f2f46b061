//! What is written.

ghost use Rattle.scratch.specs.kept.Run.{IsSomeRun};

use bench::Snapshot;
use design::Design;
use devices::{Sink, Writer};
use scratch::wave_at;
use waveform::{Change, Run};

/// A line with a number behind a word.
pub fn show_number<W: Sink>(out: &mut Writer<'_, W>, word: &[u8], number: u64) {
    out.text(word);
    out.number(number);
    out.text(b"\n");
}

/// A line of a net: its name, and the changes of its wave.
fn show_wave<W: Sink>(out: &mut Writer<'_, W>, name: &str, changes: &[Change]) {
    out.text(name.as_bytes());
    for change in changes {
        out.text(b" ");
        out.number(change.time());
        out.text(&[b' ', change.value().symbol()]);
    }
    out.text(b"\n");
}

/// The waves of a run of a design.
pub fn show_run<W: Sink>(out: &mut Writer<'_, W>, design: &Design, run: &Run)
    requires { IsSomeRun design.now run.now }
{
    for place in 0..design.net_count() {
        let wave = wave_at(design, run, place);
        show_wave(out, design.net_at(place).name().as_str(), wave.changes());
    }
}

/// The version of a snapshot, and its waves.
pub fn show_snapshot<W: Sink>(out: &mut Writer<'_, W>, snapshot: &Snapshot) {
    show_number(out, b"version ", snapshot.version());
    let design = snapshot.design();
    for place in 0..design.net_count() {
        let wave = snapshot.wave_at(place);
        show_wave(out, design.net_at(place).name().as_str(), wave.changes());
    }
}
