//! A whole conversation, from the first byte to the end.

ghost use Rattle.std.specs.Prelude.{◌≡◌, [], Some, false};
ghost use Rattle.session.specs.kept.Outcomes.{Serves};
ghost use Rattle.session.specs.kept.Talk.{Ends, SameSink, SameSource, read_failures};
ghost use Rattle.session.specs.Traffic.{sink_traffic, source_traffic};

use crate::talk::exchange::{End, PIECE, exchange};
use crate::talk::feed::Session;
use devices::{Reader, Sink, Source, Writer};
use gatestep::Stepper;
use std::sync::Wait;

/// Answers the lines of the source until one of them or the input's end ends the session. It waits for the source.
pub fn serve<T: Wait, R: Source, W: Sink, S: Stepper + Drop>(
    rt: &T,
    session: &mut Session<S>,
    source: &mut R,
    sink: &mut W,
) -> End
    requires { session.old.line ≡ [] }
    ensures { Serves result session.old.machine
        (source_traffic R.remaining R.taken R.failures source.old source.new)
        (sink_traffic W.contents W.failures sink.old sink.new) }
{
    let mut reader = Reader::new(source);
    let mut writer = Writer::new(sink);
    let end = talk(rt, session, &mut reader, &mut writer);
    let _source = reader.finish();
    let _sink = writer.finish();
    end
}

#[tactic(auto, using(crate::proofs::ExchangeLemmas::begins_at))]
fn talk<T: Wait, R: Source, W: Sink, S: Stepper + Drop>(
    rt: &T,
    session: &mut Session<S>,
    reader: &mut Reader<'_, R>,
    writer: &mut Writer<'_, W>,
) -> End
    requires line { session.old.line ≡ [] }
    requires input { reader.old.pieces ≡ [] }
    requires text { writer.old.text ≡ [] }
    requires gone { writer.old.gone ≡ [] }
    requires stopped { writer.old.stopped ≡ false }
    ensures ends { Ends result session.old.machine reader.new writer.new }
    ensures sink { SameSink writer.old writer.new }
    ensures source { SameSource reader.old reader.new (read_failures (Some result)) }
{
    let mut buffer = [0; PIECE];
    for _ in rt.forever() {
        if let Some(end) = exchange(session, reader, writer, &mut buffer) {
            return end;
        }
    }
    unreachable!()
}
