//! Writers and readers over devices that take pieces, and that fail.

ghost use Rattle.std.specs.Prelude.{◌≡◌, ◌+◌, ◌<◌, List, ℕ, ◌++◌, OnOk, IfErr, decimal, codes};
ghost use Rattle.std.specs.Io.{StartsWith};
ghost use Rattle.std.specs.Io.KnownBytes.{Appends};
ghost use Rattle.devices.specs.Outgoing.{Adds};
ghost use Rattle.devices.specs.kept.Outgoing.{byte_count};

use crate::compare::equal;
use devices::faulty::{Failing, Pieces, Stuck};
use devices::{Device, Reader, Sink, Source, Writer};
use std::alloc::Global;
use std::io::Write;
use std::process::Abort;

// A line by the calls of a layer above, which proves with no file.
fn say_ok<W: Sink>(writer: &mut Writer<'_, W>, n: u64)
    ensures { Adds writer.old writer.new (codes "ok " ++ decimal n ++ codes "\n") }
{
    writer.text(b"ok ");
    writer.number(n);
    writer.text(b"\n");
}

// All of a text through a writer.
fn send_text<W: Sink>(sink: &mut W, text: &[u8]) -> Result<(), u64>
    ensures ok { OnOk result (Appends (W.contents sink.old) (W.contents sink.new) text.now
        × (W.failures sink.new ≡ W.failures sink.old)) }
    ensures err { IfErr result (λ n. (gone : List ℕ) × Appends (W.contents sink.old) (W.contents sink.new) gone
        × StartsWith text.now gone × (n ≡ byte_count gone) × (W.failures sink.new ≡ W.failures sink.old + 1)) }
{
    let mut writer = Writer::new(sink);
    writer.text(text);
    let result = writer.flush();
    let _sink = writer.finish();
    result
}

// A text of this length, whose bytes tell their places apart.
fn text_of(rt: &impl Abort, alloc: Global, length: usize) -> Vec<u8> {
    let mut text = Vec::new(alloc);
    for i in 0..length {
        text.push((i % 251) as u8).expect(rt, "room");
    }
    text
}

// The text arrives whole through a device that takes so many bytes at a time.
fn check_pieces(rt: &impl Abort, alloc: Global, text: &[u8], most: usize)
    requires { 0 < most }
{
    let mut device = Device::new(Pieces::new(Vec::new(alloc), most));
    equal(rt, "sent", send_text(&mut device, text), Ok(()));
    let length = text.len();
    equal(rt, (length, most), device.inner.inner.as_slice(), text);
    drop(device);
}

#[test]
fn a_text_in_pieces_arrives_whole(rt: HostRuntime) {
    for length in [0, 1, 4095, 4096, 4097, 10_000] {
        let text = text_of(&rt, rt.alloc(), length);
        check_pieces(&rt, rt.alloc(), text.as_slice(), 1);
        check_pieces(&rt, rt.alloc(), text.as_slice(), 2);
        check_pieces(&rt, rt.alloc(), text.as_slice(), 4096);
        drop(text);
    }
}

// Writes the text, and then more, and asks after each.
fn send_twice<W: Sink>(sink: &mut W, text: &[u8]) -> (Result<(), u64>, Result<(), u64>, bool) {
    let mut writer = Writer::new(sink);
    writer.text(text);
    let first = writer.flush();
    writer.text(b"more");
    let second = writer.flush();
    let stopped = writer.is_stopped();
    let _sink = writer.finish();
    (first, second, stopped)
}

// A device that fails at a place has the text up to it, also where more is written, and the writer has stopped.
fn check_failing(rt: &impl Abort, alloc: Global, text: &[u8], place: usize) {
    let length = text.len();
    assert!(rt; place <= length);
    let mut device = Device::new(Failing::new(Vec::new(alloc), place));
    let (first, second, stopped) = send_twice(&mut device, text);
    assert!(rt; device.inner.flush().is_ok());
    let failed = Err(place as u64);
    let wanted = if place == length { Ok(()) } else { failed };
    equal(rt, (length, place), first, wanted);
    equal(rt, (length, place), second, failed);
    assert!(rt; stopped);
    equal(
        rt,
        (length, place),
        device.inner.inner.as_slice(),
        &text[..place],
    );
    drop(device);
}

#[test]
fn a_failure_leaves_exactly_a_beginning(rt: HostRuntime) {
    for (length, places) in [
        (5, [0, 1, 2, 3, 4, 5]),
        (4096, [0, 1, 2, 4094, 4095, 4096]),
        (10_000, [0, 4095, 4096, 4097, 8192, 10_000]),
    ] {
        let text = text_of(&rt, rt.alloc(), length);
        for place in places {
            check_failing(&rt, rt.alloc(), text.as_slice(), place);
        }
        drop(text);
    }
}

#[test]
fn a_device_that_takes_no_byte_has_failed(rt: HostRuntime) {
    let mut device = Device::new(Stuck::new(Pieces::new(Vec::new(rt.alloc()), 2), 5));
    let (first, second, stopped) = send_twice(&mut device, b"hello, world");
    assert!(rt; device.inner.flush().is_ok());
    equal(&rt, "first", first, Err(5));
    equal(&rt, "second", second, Err(5));
    assert!(rt; stopped);
    equal(
        &rt,
        "bytes that arrived",
        device.inner.inner.inner.as_slice(),
        b"hello".as_slice(),
    );
    drop(device);
}

// Numbers through a writer: whether it stopped before its end, and its end.
fn send_numbers<W: Sink>(sink: &mut W, numbers: &[u64]) -> (bool, Result<(), u64>) {
    let mut writer = Writer::new(sink);
    for n in numbers {
        say_ok(&mut writer, *n);
    }
    let stopped = writer.is_stopped();
    let result = writer.flush();
    let _sink = writer.finish();
    (stopped, result)
}

#[test]
fn numbers_are_decimal(rt: HostRuntime) {
    let mut device = Device::new(Vec::new(rt.alloc()));
    let sent = send_numbers(&mut device, &[0, 9, 10, 18_446_744_073_709_551_615]);
    equal(&rt, "numbers", sent, (false, Ok(())));
    let want = b"ok 0\nok 9\nok 10\nok 18446744073709551615\n";
    equal(
        &rt,
        "bytes that arrived",
        device.inner.as_slice(),
        want.as_slice(),
    );
    drop(device);
}

// The bytes up to the end or the first failure, and the answer there.
fn read_text<R: Source + Drop>(
    rt: &impl Abort,
    alloc: Global,
    source: &mut R,
) -> (Vec<u8>, Option<usize>) {
    let mut reader = Reader::new(source);
    let mut text = Vec::new(alloc);
    let mut buffer = [0; 4];
    let mut last = None;
    for _ in 0..20 {
        last = reader.read(&mut buffer);
        match last {
            Some(n) if n > 0 => text.extend_from_slice(&buffer[..n]).expect(rt, "room"),
            _ => break,
        }
    }
    let _source = reader.finish();
    (text, last)
}

const ALL: &[u8] = b"hello, world";

fn check_read<R: Source + Drop>(
    rt: &impl Abort,
    alloc: Global,
    source: &mut R,
    wanted: &[u8],
    end: Option<usize>,
) {
    let (text, last) = read_text(rt, alloc, source);
    equal(rt, "text", text.as_slice(), wanted);
    equal(rt, wanted, last, end);
    drop(text);
}

#[test]
fn pieces_are_read_in_order(rt: HostRuntime) {
    for most in [1, 2, 4096] {
        let mut device = Device::new(Pieces::new(ALL, most));
        check_read(&rt, rt.alloc(), &mut device, ALL, Some(0));
    }
}

#[test]
fn a_failed_read_keeps_what_came(rt: HostRuntime) {
    for place in 0..=12 {
        let mut device = Device::new(Failing::new(ALL, place));
        check_read(&rt, rt.alloc(), &mut device, &ALL[..place], None);
    }
}
