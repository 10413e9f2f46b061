//! A dump over any writer.

ghost use Rattle.std.specs.Prelude.{◌≡◌, OnOk, IfErr};
ghost use Rattle.std.specs.Io.KnownBytes.{Appends};
ghost use Rattle.devices.specs.Outgoing.{Adds};
ghost use Rattle.vcd.specs.Text.{vcd_of};
ghost use Rattle.vcd.specs.Written.{IsCut};

use crate::fault::VcdFault;
use crate::head::head;
use crate::moments::moments;
use crate::waves::Waves;
use bench::Snapshot;
use devices::{Sink, Writer};

/// Adds the dump of a snapshot to a text. It takes no memory.
pub fn text<W: Sink>(snapshot: &Snapshot, writer: &mut Writer<'_, W>)
    ensures { Adds writer.old writer.new (vcd_of snapshot.now.design) }
{
    head(writer, snapshot.design());
    moments(writer, &Waves::of(snapshot));
}

/// Writes the dump of a snapshot. `Write` where the sink failed, with the number of bytes that went out. It takes no
/// memory.
pub fn write<W: Sink>(snapshot: &Snapshot, sink: &mut W) -> Result<(), VcdFault>
    ensures ok { OnOk result (Appends (W.contents sink.old) (W.contents sink.new) (vcd_of snapshot.now.design)
        × (W.failures sink.new ≡ W.failures sink.old)) }
    ensures err { IfErr result (IsCut (W.contents sink.old) (W.contents sink.new)
        (W.failures sink.old) (W.failures sink.new) (vcd_of snapshot.now.design)) }
{
    let mut writer = Writer::new(sink);
    text(snapshot, &mut writer);
    let result = writer.flush();
    let _sink = writer.finish();
    match result {
        Ok(()) => Ok(()),
        Err(sent) => Err(VcdFault::Write(sent)),
    }
}
