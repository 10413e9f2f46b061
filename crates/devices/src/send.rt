//! Sending a whole slice through a sink.
ghost use Rattle.std.specs.Prelude.{◌≡◌};
ghost use Rattle.devices.specs.kept.Traffic.{Sends};

use crate::sink::Sink;

/// Sends all of `bytes`, and answers how many of them went out: fewer only where the device failed.
#[tactic(auto, using(crate::proofs::DeviceLemmas::appends_more, crate::proofs::DeviceLemmas::appends_then_keeps, crate::proofs::DeviceLemmas::appends_nothing))]
pub(crate) fn send<W: Sink>(sink: &mut W, bytes: &[u8]) -> usize
    ensures { Sends (record { contents = W.contents sink.old; failures = W.failures sink.old })
        (record { contents = W.contents sink.new; failures = W.failures sink.new }) bytes.now result }
{
    let mut sent = 0;
    while sent < bytes.len() {
        match sink.put(&bytes[sent..]) {
            Some(n) => sent += n,
            None => return sent,
        }
    }
    sent
}
