//! The way of all text to a sink.
ghost use Rattle.std.specs.Prelude.{◌≡◌, ◌+◌, ◌<◌, ◌≤◌, ◌++◌, true, false, length, take, decimal, [], OnOk, IfErr};
ghost use Rattle.std.specs.Io.{StartsWith};
ghost use Rattle.std.specs.Io.KnownBytes.{Appends};
ghost use Rattle.devices.specs.Traffic.{failures_after};
ghost use Rattle.devices.specs.Outgoing.{Adds};
ghost use Rattle.devices.specs.kept.Outgoing.{MovesOn, StaysStopped, byte_count};

use crate::block::{Block, CAPACITY};
use crate::ghost_text::GhostText;
use crate::send::send;
use crate::sink::Sink;
use itoa::Buffer;
use std::marker::Model;
use std::snapshot::Snapshot;

/// Writes text to a sink. The bytes are gathered, and go out at a `flush` or when the room for
/// 4,096 of them is full. Once the sink failed, nothing more goes out, and the calls still return.
/// No call takes memory. A writer isn't dropped: `flush` it, and end it by `finish`.
pub struct Writer<'a, W: Sink> {
    sink: &'a mut W,
    waiting: Block,
    stopped: bool,
    sent: u64,
    start: Snapshot<W>,
    written: GhostText,
    gone: GhostText,
}

impl<'a, W: Sink> Model for Writer<'a, W> {
    ghost use Rattle.devices.specs.Outgoing.{Outgoing};
    ghost use Rattle.devices.specs.kept.Outgoing.{IsGoingOut};

    ghost Value = { Outgoing };

    ghost view = { λ a. record {
      loan = a.sink.ghost_name;
      before = W.contents a.start.value;
      failures_before = W.failures a.start.value;
      text = a.written;
      gone = a.gone;
      stopped = a.stopped;
    } };

    ghost invariant = { λ a. IsGoingOut (record {
      loan = a.sink.ghost_name;
      before = W.contents a.start.value;
      failures_before = W.failures a.start.value;
      text = a.written;
      gone = a.gone;
      stopped = a.stopped;
    }) (record { contents = W.contents a.sink.now; failures = W.failures a.sink.now }) a.waiting a.sent };
}

impl<'a, W: Sink> Writer<'a, W> {
    /// A writer of the empty text.
    pub fn new(sink: &'a mut W) -> Writer<'a, W>
        ensures { result ≡ record {
          loan = sink.entry.ghost_name;
          before = W.contents sink.old;
          failures_before = W.failures sink.old;
          text = [];
          gone = [];
          stopped = false;
        } }
    {
        let start = Snapshot::of(&*sink);
        Writer {
            sink,
            waiting: Block::new(),
            stopped: false,
            sent: 0,
            start,
            written: GhostText::new(),
            gone: GhostText::new(),
        }
    }

    /// Whether the sink failed since this writer began.
    pub fn is_stopped(&self) -> bool
        ensures { result ≡ self.now.stopped }
    {
        self.stopped
    }

    /// Adds `bytes` to the text.
    pub fn text(&mut self, bytes: &[u8])
        ensures adds { Adds self.old self.new bytes.now }
        ensures stays_stopped { StaysStopped self.old self.new }
    {
        let mut at = 0;
        while at < bytes.len() {
            let n = self.take_in(&bytes[at..]);
            at += n;
        }
    }

    /// Adds the decimal digits of `n` to the text.
    pub fn number(&mut self, n: u64)
        ensures adds { Adds self.old self.new (decimal n) }
        ensures stays_stopped { StaysStopped self.old self.new }
    {
        let mut buffer = Buffer::new();
        self.text(buffer.format(n).as_bytes());
    }

    /// Sends what waits. `Err` where the sink failed, now or before, with the number of bytes of the
    /// text that went out (at most `u64::MAX`).
    pub fn flush(&mut self) -> Result<(), u64>
        ensures moves_on { MovesOn self.old self.new }
        ensures stays_stopped { StaysStopped self.old self.new }
        ensures ok { OnOk result ((self.new.stopped ≡ false) × (self.new.gone ≡ self.new.text)) }
        ensures err { IfErr result (λ n. (self.new.stopped ≡ true) × StartsWith self.new.text self.new.gone
            × (n ≡ byte_count self.new.gone)) }
    {
        self.send_waiting();
        if self.stopped {
            return Err(self.sent);
        }
        Ok(())
    }

    /// Ends the writer, and gives the sink back. It does not flush.
    pub fn finish(self) -> &'a mut W
        ensures out { Appends self.entry.before (W.contents result.now) self.entry.gone }
        ensures beginning { StartsWith self.entry.text self.entry.gone }
        ensures failed { W.failures result.now ≡ failures_after self.entry.failures_before self.entry.stopped }
        ensures same_reference { result.ghost_name ≡ self.entry.loan }
    {
        let Writer {
            sink,
            waiting: _,
            stopped: _,
            sent: _,
            start: _,
            written: _,
            gone: _,
        } = self;
        sink
    }

    // Adds the first of the bytes to the text, as many as there is room for, and answers how many.
    fn take_in(&mut self, bytes: &[u8]) -> usize
        requires { 0 < length bytes.now }
        ensures some { 0 < result }
        ensures within { result ≤ length bytes.now }
        ensures adds { Adds self.old self.new (take result bytes.now) }
        ensures stays_stopped { StaysStopped self.old self.new }
    {
        if self.waiting.room() == 0 {
            self.send_waiting();
        }
        self.hold(bytes)
    }

    // Adds the first of the bytes to what waits. Once the sink failed, they only count as said.
    fn hold(&mut self, bytes: &[u8]) -> usize
        requires some { 0 < length bytes.now }
        requires room { self.old.stopped ≡ false → length self.old.text < length self.old.gone + CAPACITY }
        ensures some { 0 < result }
        ensures within { result ≤ length bytes.now }
        ensures held { self.new ≡ record self.old { text = self.old.text ++ take result bytes.now } }
    {
        if self.stopped {
            self.written.add(bytes);
            return bytes.len();
        }
        let n = bytes.len().min(self.waiting.room());
        let front = &bytes[..n];
        self.waiting.add(front);
        self.written.add(front);
        n
    }

    // Sends what waits, unless the sink failed.
    fn send_waiting(&mut self)
        ensures moves_on { MovesOn self.old self.new }
        ensures stays_stopped { StaysStopped self.old self.new }
        ensures all { self.new.stopped ≡ false → self.new.gone ≡ self.new.text }
    {
        if self.stopped {
            return;
        }
        let bytes = self.waiting.as_slice();
        let n = send(self.sink, bytes);
        self.gone.add(&bytes[..n]);
        self.sent = self.sent.saturating_add(n as u64);
        self.stopped = n < bytes.len();
        self.waiting.clear();
    }
}
