//! What opens no session: options out of their range, and a text with a fault.

use super::{EMPTY, check, check_opened, opened};
use crate::compare::equal;
use edits::EditFault;
use session::{Options, SessionFault};
use std::alloc::Global;
use std::process::Abort;
use std::random::RandomSource;
use std::sync::Wait;
use vtext::{ReadFault, ReadFaultKind};

// The session is not opened: it has this fault and no reply.
fn check_refused(
    rt: &(impl Wait + RandomSource + Abort),
    alloc: Global,
    design: &[u8],
    options: &Options,
    fault: SessionFault,
) {
    let (result, replies) = opened(rt, alloc, design, options, b"quit");
    equal(rt, design, result, Err(fault));
    equal(rt, design, replies.as_slice(), b"".as_slice());
    drop(replies);
}

const GATE: &[u8] = b"module m;\nnot (y, y);\nendmodule";

// A default delay out of its range is a fault of the first gate without one, and of no other.
#[test]
fn default_delays(rt: HostRuntime) {
    for (delay, fault) in [
        (0, EditFault::ZeroDelay),
        (1_000_001, EditFault::DelayTooLarge),
    ] {
        let options = Options {
            horizon: 0,
            delay: Some(delay),
            tools: false,
        };
        let kind = ReadFaultKind::Edit(fault);
        let fault = SessionFault::Design(ReadFault { line: 2, kind });
        check_refused(&rt, rt.alloc(), GATE, &options, fault);
        check_opened(&rt, rt.alloc(), EMPTY, &options, b"", b"");
    }
}

const OVER: Options = Options {
    horizon: 1_099_511_627_777,
    delay: None,
    tools: false,
};

// A fault of the text comes first.
#[test]
fn horizons(rt: HostRuntime) {
    let over = SessionFault::Edit(EditFault::TimeTooLarge);
    check_refused(&rt, rt.alloc(), EMPTY, &OVER, over);
    check(
        &rt,
        rt.alloc(),
        EMPTY,
        1_099_511_627_776,
        b"quit",
        b"ok 0\n",
    );
    let text = SessionFault::Design(ReadFault {
        line: 1,
        kind: ReadFaultKind::Syntax,
    });
    check_refused(&rt, rt.alloc(), b"x", &OVER, text);
}
