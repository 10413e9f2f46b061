//! Sessions over devices that bring and take few bytes at a time, and what is left unread. `check` and its like compare the
//! replies to an input, so that a test owns nothing.

ghost use Rattle.std.specs.Prelude.{◌<◌};

mod faulty;
mod once;
mod openings;

use crate::compare::equal;
use devices::Device;
use devices::faulty::Pieces;
use edits::EditFault;
use gatestep::Serial;
use session::{Options, SessionFault, run};
use std::alloc::Global;
use std::process::Abort;
use std::random::RandomSource;
use std::sync::Wait;

const EMPTY: &[u8] = b"module m; endmodule";

fn up_to(horizon: u64) -> Options {
    Options {
        horizon,
        delay: None,
        tools: false,
    }
}

// What a session of a text with gates that have this delay where it writes none writes for this input.
fn opened(
    rt: &(impl Wait + RandomSource),
    alloc: Global,
    design: &[u8],
    options: &Options,
    input: &[u8],
) -> (Result<(), SessionFault>, Vec<u8>) {
    let mut source = Device::new(input);
    let mut sink = Device::new(Vec::new(alloc));
    let result = run(
        rt,
        alloc,
        design,
        options,
        &mut source,
        &mut sink,
        Serial::new(),
    );
    (result, sink.inner)
}

// The same of an empty design and no delay, where reads and writes go at most so many bytes at a time.
fn answered_in_pieces(
    rt: &(impl Wait + RandomSource),
    alloc: Global,
    horizon: u64,
    input: &[u8],
    most: usize,
) -> (Result<(), SessionFault>, Vec<u8>)
    requires { 0 < most }
{
    let mut source = Device::new(Pieces::new(input, most));
    let mut sink = Device::new(Pieces::new(Vec::new(alloc), most));
    let result = run(
        rt,
        alloc,
        EMPTY,
        &up_to(horizon),
        &mut source,
        &mut sink,
        Serial::new(),
    );
    (result, sink.inner.inner)
}

// A session comes to its end, with these replies.
fn check_opened(
    rt: &(impl Wait + RandomSource + Abort),
    alloc: Global,
    design: &[u8],
    options: &Options,
    input: &[u8],
    want: &[u8],
) {
    let (result, replies) = opened(rt, alloc, design, options, input);
    equal(rt, input, result, Ok(()));
    equal(rt, input, replies.as_slice(), want);
    drop(replies);
}

// The same up to this horizon.
fn check(
    rt: &(impl Wait + RandomSource + Abort),
    alloc: Global,
    design: &[u8],
    horizon: u64,
    input: &[u8],
    want: &[u8],
) {
    check_opened(rt, alloc, design, &up_to(horizon), input, want);
}

// The replies in pieces of one byte, of two, and of all.
fn check_in_pieces(
    rt: &(impl Wait + RandomSource + Abort),
    alloc: Global,
    horizon: u64,
    input: &[u8],
    want: &[u8],
) {
    for most in [1, 2, 4096] {
        let (result, replies) = answered_in_pieces(rt, alloc, horizon, input, most);
        equal(rt, most, result, Ok(()));
        equal(rt, most, replies.as_slice(), want);
        drop(replies);
    }
}

const FIRST: &[u8] = b"input a\nnet y wire\ngate g not 2 3 y a\nstim a 0 0\nwave y\n";

const FIRST_REPLIES: &[u8] = b"ok 1\nok 2\nok 3\nok 4\n0 x\n2 1\nok 4\n";

#[test]
fn the_first_wave(rt: HostRuntime) {
    check(&rt, rt.alloc(), EMPTY, 10, FIRST, FIRST_REPLIES);
}

// What a session that reads byte by byte writes for this input, and what it leaves of it.
fn unread<'a>(
    rt: &(impl Wait + RandomSource),
    alloc: Global,
    input: &'a [u8],
) -> (Result<(), SessionFault>, Vec<u8>, &'a [u8]) {
    let mut source = Device::new(Pieces::new(input, 1));
    let mut sink = Device::new(Vec::new(alloc));
    let result = run(
        rt,
        alloc,
        EMPTY,
        &up_to(10),
        &mut source,
        &mut sink,
        Serial::new(),
    );
    (result, sink.inner, source.inner.inner)
}

#[test]
fn lines_after_quit_stay_in_the_source(rt: HostRuntime) {
    let (result, replies, left) = unread(&rt, rt.alloc(), b"input a\nquit\nwave a\n");
    equal(&rt, "result", result, Ok(()));
    equal(
        &rt,
        "replies",
        replies.as_slice(),
        b"ok 1\nok 1\n".as_slice(),
    );
    equal(&rt, "what is not read", left, b"wave a\n".as_slice());
    drop(replies);
}

// A pulse of 3 units through a buffer of 3 and 3: the wave of y is x from 0, 0 from 3, 1 from 13, 0 from 16. The net n has no
// driver and the input b no point, so their waves have the value at 0 alone, z and x.
const PULSE: &[u8] =
    b"input a\nnet y wire\ngate g buf 3 3 y a\nstim a 0 0\nstim a 10 1\nstim a 13 0\nnet n wire\ninput b\n\
next y 3\nprev y 3\nseek y 0 0\nnext y 16\nvalue y 12\nvalue y 101\n";

const PULSE_REPLIES: &[u8] = b"ok 1\nok 2\nok 3\nok 4\nok 5\nok 6\nok 7\nok 8\n\
13 1\nok 8\n0 x\nok 8\n3 0\nok 8\nnone\nok 8\n0\nok 8\nno 11 TimeTooLarge\n";

#[test]
fn pieces_make_no_difference_to_questions(rt: HostRuntime) {
    check_in_pieces(&rt, rt.alloc(), 100, PULSE, PULSE_REPLIES);
}

fn add(rt: &impl Abort, text: &mut Vec<u8>, more: &[u8]) {
    text.extend_from_slice(more).expect(rt, "room");
}

#[test]
fn codes_and_names(rt: HostRuntime) {
    equal(&rt, "code", EditFault::UnknownNet.code(), 1);
    equal(&rt, "code", EditFault::NetInUse.code(), 10);
    equal(&rt, "code", EditFault::OutOfMemory.code(), 14);
    equal(&rt, "code", EditFault::NoTurnOff.code(), 21);
    equal(
        &rt,
        "name",
        EditFault::NoSuchPoint.name().as_bytes(),
        b"NoSuchPoint".as_slice(),
    );
}
