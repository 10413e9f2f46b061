//! Sessions over devices that fail once, take no byte, or cut: what stands written then.

ghost use Rattle.std.specs.Prelude.{◌<◌};

use super::once::FailsOnce;
use super::{add, up_to};
use crate::compare::equal;
use devices::faulty::{Pieces, Stuck};
use devices::{Device, Sink, Source};
use gatestep::Serial;
use session::{SessionFault, run};
use std::alloc::Global;
use std::process::Abort;
use std::random::RandomSource;
use std::sync::Wait;

const BUFFER: &[u8] = b"module m(a,y); input a; output y; buf #(3,3) g(y,a); endmodule";

// A pulse, a snapshot that is held, and a batch whose third edit has a delay of 0: the lines, and what each is answered.
const TALK: [(&[u8], &[u8]); 14] = [
    (b"stim a 0 0", b"ok 1\n"),
    (b"stim a 10 1", b"ok 2\n"),
    (b"stim a 12 0", b"ok 3\n"),
    (b"hold old", b"ok 3\n"),
    (b"begin", b"ok 3\n"),
    (b"stim a 20 1", b"ok 3\n"),
    (b"stim a 25 0", b"ok 3\n"),
    (b"delay g 0 3", b"ok 3\n"),
    (b"horizon 50", b"ok 3\n"),
    (b"stim a 30 1", b"ok 3\n"),
    (b"value y 23", b"0\nok 3\n"),
    (b"commit", b"no 5 ZeroDelay\n"),
    (b"wave y", b"0 x\n3 0\nok 3\n"),
    (b"at old wave y", b"0 x\n3 0\nok 3\n"),
];

// The lines of rows, each with an end, and the replies to them.
fn joined(rt: &impl Abort, alloc: Global, rows: &[(&[u8], &[u8])]) -> (Vec<u8>, Vec<u8>) {
    let mut lines = Vec::new(alloc);
    let mut want = Vec::new(alloc);
    for (line, reply) in rows {
        add(rt, &mut lines, line);
        add(rt, &mut lines, b"\n");
        add(rt, &mut want, reply);
    }
    (lines, want)
}

// How the session of the buffer up to 30 ends over these devices.
fn ended<R: Source, W: Sink>(
    rt: &(impl Wait + RandomSource),
    alloc: Global,
    source: &mut R,
    sink: &mut W,
) -> Result<(), SessionFault> {
    run(rt, alloc, BUFFER, &up_to(30), source, sink, Serial::new())
}

// The replies to the whole lines among so many bytes of the input.
fn replies_before(rt: &impl Abort, alloc: Global, place: usize) -> Vec<u8> {
    let mut end = 0usize;
    let mut replies = Vec::new(alloc);
    for (line, reply) in TALK {
        end = end.saturating_add(line.len()).saturating_add(1);
        if end <= place {
            add(rt, &mut replies, reply);
        }
    }
    replies
}

// A read behind so many bytes fails. The replies to the whole lines before it stand written, and nothing more is read.
fn check_read(rt: &(impl Wait + RandomSource + Abort), alloc: Global, input: &[u8], place: usize) {
    let mut source = Device::new(FailsOnce::new(input, place));
    let mut sink = Device::new(Vec::new(alloc));
    let result = ended(rt, alloc, &mut source, &mut sink);
    let want = replies_before(rt, alloc, place);
    equal(rt, place, result, Err(SessionFault::Read));
    equal(rt, place, sink.inner.as_slice(), want.as_slice());
    equal(
        rt,
        place,
        source.inner.inner,
        &input[place.min(input.len())..],
    );
    drop(want);
    drop(sink);
}

#[test]
fn a_read_that_fails_leaves_the_replies_to_whole_lines(rt: HostRuntime) {
    let (input, replies) = joined(&rt, rt.alloc(), &TALK);
    for place in 0..input.len() {
        check_read(&rt, rt.alloc(), input.as_slice(), place);
    }
    check_read(&rt, rt.alloc(), input.as_slice(), input.len());
    drop(input);
    drop(replies);
}

// A write behind so many bytes fails, and exactly these stand written, though later ones would not fail.
fn check_write(
    rt: &(impl Wait + RandomSource + Abort),
    alloc: Global,
    input: &[u8],
    replies: &[u8],
    place: usize,
) {
    let mut source = Device::new(input);
    let mut sink = Device::new(FailsOnce::new(Vec::new(alloc), place));
    let result = ended(rt, alloc, &mut source, &mut sink);
    let want = &replies[..place.min(replies.len())];
    equal(rt, place, result, Err(SessionFault::Write));
    equal(rt, place, sink.inner.inner.as_slice(), want);
    drop(sink);
}

// The same of a writer that takes no byte more.
fn check_stuck(
    rt: &(impl Wait + RandomSource + Abort),
    alloc: Global,
    input: &[u8],
    replies: &[u8],
    place: usize,
) {
    let mut source = Device::new(input);
    let mut sink = Device::new(Stuck::new(Vec::new(alloc), place));
    let result = ended(rt, alloc, &mut source, &mut sink);
    let want = &replies[..place.min(replies.len())];
    equal(rt, place, result, Err(SessionFault::Write));
    equal(rt, place, sink.inner.inner.as_slice(), want);
    drop(sink);
}

#[test]
fn a_write_that_fails_leaves_exactly_a_beginning(rt: HostRuntime) {
    let (input, replies) = joined(&rt, rt.alloc(), &TALK);
    for place in 0..replies.len() {
        check_write(&rt, rt.alloc(), input.as_slice(), replies.as_slice(), place);
        check_stuck(&rt, rt.alloc(), input.as_slice(), replies.as_slice(), place);
    }
    drop(input);
    drop(replies);
}

// Reads bring so many bytes at most, and writes take so many.
fn check_pieces(
    rt: &(impl Wait + RandomSource + Abort),
    alloc: Global,
    input: &[u8],
    replies: &[u8],
    read: usize,
    written: usize,
)
    requires read { 0 < read }
    requires written { 0 < written }
{
    let mut source = Device::new(Pieces::new(input, read));
    let mut sink = Device::new(Pieces::new(Vec::new(alloc), written));
    let result = ended(rt, alloc, &mut source, &mut sink);
    equal(rt, (read, written), result, Ok(()));
    equal(rt, (read, written), sink.inner.inner.as_slice(), replies);
    drop(sink);
}

#[test]
fn pieces_make_no_difference(rt: HostRuntime) {
    let (input, replies) = joined(&rt, rt.alloc(), &TALK);
    for most in [1, 2, 4096] {
        check_pieces(
            &rt,
            rt.alloc(),
            input.as_slice(),
            replies.as_slice(),
            most,
            1,
        );
        check_pieces(
            &rt,
            rt.alloc(),
            input.as_slice(),
            replies.as_slice(),
            most,
            4096,
        );
    }
    drop(input);
    drop(replies);
}

// A source that would fail behind the line `quit` is not asked again.
#[test]
fn nothing_is_read_after_quit(rt: HostRuntime) {
    let input = b"stim a 0 0\nquit\n".as_slice();
    let mut source = Device::new(FailsOnce::new(input, input.len()));
    let mut sink = Device::new(Vec::new(rt.alloc()));
    let result = ended(&rt, rt.alloc(), &mut source, &mut sink);
    equal(&rt, "result", result, Ok(()));
    equal(
        &rt,
        "replies",
        sink.inner.as_slice(),
        b"ok 1\nok 1\n".as_slice(),
    );
    drop(sink);
}
