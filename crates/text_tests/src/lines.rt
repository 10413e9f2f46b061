//! Lines, each read by itself.

use crate::compare::equal;
use edits::{Edit, EditFault};
use fourstate::Value;
use session::{Line, LineFault, SessionFault, line};
use std::alloc::Global;
use std::process::Abort;

// What a line says, in a word.
fn word_of(said: &Result<Line, LineFault>) -> &'static str {
    match said {
        Ok(Line::Skip) => "skip",
        Ok(Line::Edit(_)) => "edit",
        Ok(Line::Begin) => "begin",
        Ok(Line::Commit) => "commit",
        Ok(Line::Abort) => "abort",
        Ok(Line::Other) => "other",
        Err(LineFault::BadCommand) => "bad command",
        Err(LineFault::LongLine) => "long line",
        Err(LineFault::OutOfMemory) => "out of memory",
    }
}

fn check(rt: &impl Abort, alloc: Global, text: &[u8], word: &str) {
    let said = line(alloc, text);
    equal(rt, text, word_of(&said), word);
    drop(said);
}

// A return at the end is dropped, one byte alone; a comment is not looked at.
const LINES: [(&[u8], &str); 27] = [
    (b"", "skip"),
    (b"\r", "skip"),
    (b" \t ", "skip"),
    (b"# frob", "skip"),
    (b"  #\x80", "skip"),
    (b"stim a 0 0", "edit"),
    (b"\thorizon  50\r", "edit"),
    (b"horizon 50\r\r", "bad command"),
    (b"begin", "begin"),
    (b" commit", "commit"),
    (b"abort\r", "abort"),
    (b"commit now", "bad command"),
    (b"value y 3", "other"),
    (b"wave y", "other"),
    (b"next y 3", "other"),
    (b"prev y 3", "other"),
    (b"seek y 0 1", "other"),
    (b"vcd", "other"),
    (b"hold k", "other"),
    (b"free k", "other"),
    (b"at k wave y", "other"),
    (b"at k at k wave y", "bad command"),
    (b"quit", "other"),
    (b"frob", "bad command"),
    (b"Begin", "bad command"),
    (b"stim a 0 2", "bad command"),
    (b"begin\x80", "bad command"),
];

#[test]
fn lines_are_told_apart(rt: HostRuntime) {
    for (text, word) in LINES {
        check(&rt, rt.alloc(), text, word);
    }
}

// A line may have 4,096 bytes, its return among them.
#[test]
fn long_lines_are_told(rt: HostRuntime) {
    let comment = [b'#'; 4_097];
    check(&rt, rt.alloc(), &comment[..4_096], "skip");
    check(&rt, rt.alloc(), &comment, "long line");
}

#[test]
fn faults_of_sessions_have_numbers(rt: HostRuntime) {
    let horizon = SessionFault::Edit(EditFault::TimeTooLarge);
    equal(&rt, "Edit", horizon.code(), 2);
    equal(&rt, "OutOfMemory", SessionFault::OutOfMemory.code(), 3);
    equal(&rt, "WorkerLost", SessionFault::WorkerLost.code(), 4);
    equal(&rt, "Read", SessionFault::Read.code(), 5);
    equal(&rt, "Write", SessionFault::Write.code(), 6);
}

#[test]
fn faults_of_lines_have_numbers(rt: HostRuntime) {
    equal(&rt, "BadCommand", LineFault::BadCommand as u8, 1);
    equal(&rt, "LongLine", LineFault::LongLine as u8, 2);
    equal(&rt, "OutOfMemory", LineFault::OutOfMemory as u8, 3);
}

fn check_stimulus(rt: &impl Abort, said: &Line) {
    match said {
        Line::Edit(Edit::Stim { net, time, value }) => {
            equal(rt, "net", net.as_str(), "a");
            equal(rt, "time", *time, 18_446_744_073_709_551_615);
            equal(rt, "value", *value, Value::Unknown);
        }
        _ => panic!(rt; "another line"),
    }
}

// An edit has words of its own, and is not checked: no net has to be there.
#[test]
fn an_edit_has_its_words(rt: HostRuntime) {
    let said = line(rt.alloc(), b"stim a 99999999999999999999 x").expect(&rt, "a line of an edit");
    check_stimulus(&rt, &said);
    drop(said);
}
