//! Edits and designs of tests, written as lines.

use crate::compare::equal;
use design::{Design, Name, NameHasher};
use edits::{Edit, EditFault, Pin, Pins, Word, apply_all};
use fourstate::{DelayTimes, GateKind, NetKind, TimeUnit, Value};
use std::alloc::Global;
use std::process::Abort;

fn at<'a>(rt: &impl Abort, words: &[&'a str], place: usize) -> &'a str {
    assert!(rt; place < words.len(), "{place}");
    words[place]
}

fn number(rt: &impl Abort, text: &str) -> u64 {
    text.parse::<u64>().expect(rt, "a number")
}

fn net_kind(rt: &impl Abort, text: &str) -> NetKind {
    NetKind::from_keyword(text.as_bytes()).expect(rt, "a kind of net")
}

fn gate_kind(rt: &impl Abort, text: &str) -> GateKind {
    GateKind::from_keyword(text.as_bytes()).expect(rt, "a kind of gate")
}

fn value(rt: &impl Abort, text: &str) -> Value {
    match text {
        "0" => Value::Zero,
        "1" => Value::One,
        "x" => Value::Unknown,
        _ => {
            equal(rt, "text", text, "z");
            Value::HighZ
        }
    }
}

pub fn word(rt: &impl Abort, alloc: Global, text: &str) -> Word {
    Word::new(alloc, text).expect(rt, "a word")
}

fn pin(rt: &impl Abort, alloc: Global, text: &str) -> Pin {
    match text {
        "1'b0" => Pin::Constant(Value::Zero),
        "1'b1" => Pin::Constant(Value::One),
        _ => Pin::Net(word(rt, alloc, text)),
    }
}

fn pins(rt: &impl Abort, alloc: Global, words: &[&str], from: usize) -> Pins {
    assert!(rt; from <= words.len());
    let mut pins = Pins::new(alloc);
    for text in &words[from..] {
        let pin = pin(rt, alloc, text);
        pins.push(pin).expect(rt, "one pin more");
    }
    pins
}

/// The edit of a line.
pub fn edit(rt: &impl Abort, alloc: Global, line: &str) -> Edit {
    let words: Vec<&str> = line
        .split(' ')
        .collect(alloc)
        .expect(rt, "the words of a line");
    let words = words.as_slice();
    let name = word(rt, alloc, at(rt, words, 1));
    match at(rt, words, 0) {
        "gate" | "wire" => wired(rt, alloc, words, name),
        _ => unwired(rt, words, name),
    }
}

fn wired(rt: &impl Abort, alloc: Global, words: &[&str], name: Word) -> Edit {
    if at(rt, words, 0) == "wire" {
        return Edit::Rewire {
            name,
            output: word(rt, alloc, at(rt, words, 2)),
            inputs: pins(rt, alloc, words, 3),
        };
    }
    Edit::AddGate {
        name,
        kind: gate_kind(rt, at(rt, words, 2)),
        delays: delays(rt, words, 3),
        output: word(rt, alloc, at(rt, words, 5)),
        inputs: pins(rt, alloc, words, 6),
    }
}

/// The delays that two words from this place on write, the second with a turn-off delay behind a slash, if it has one.
fn delays(rt: &impl Abort, words: &[&str], place: usize) -> DelayTimes {
    assert!(rt; place < 4);
    let rise = number(rt, at(rt, words, place));
    let second = at(rt, words, place + 1);
    match second.split_once('/') {
        Some((fall, off)) => { DelayTimes::new(rise, number(rt, fall)).with_off(number(rt, off)) }
        None => DelayTimes::new(rise, number(rt, second)),
    }
}

fn unwired(rt: &impl Abort, words: &[&str], name: Word) -> Edit {
    match at(rt, words, 0) {
        "net" => Edit::AddNet {
            name,
            kind: net_kind(rt, at(rt, words, 2)),
        },
        "input" => Edit::AddInput { name },
        "dropnet" => Edit::DropNet { name },
        "kind" => Edit::SetNetKind {
            name,
            kind: net_kind(rt, at(rt, words, 2)),
        },
        "drop" => Edit::DropGate { name },
        "delay" => Edit::SetDelay {
            name,
            delays: delays(rt, words, 2),
        },
        "type" => Edit::SetGateKind {
            name,
            kind: gate_kind(rt, at(rt, words, 2)),
        },
        _ => timed(rt, words, name),
    }
}

fn timed(rt: &impl Abort, words: &[&str], net: Word) -> Edit {
    match at(rt, words, 0) {
        "stim" => Edit::Stim {
            net,
            time: number(rt, at(rt, words, 2)),
            value: value(rt, at(rt, words, 3)),
        },
        "unstim" => Edit::Unstim {
            net,
            time: number(rt, at(rt, words, 2)),
        },
        verb => {
            equal(rt, "verb", verb, "horizon");
            Edit::Horizon {
                time: number(rt, at(rt, words, 1)),
            }
        }
    }
}

/// The edits of lines.
pub fn edits(rt: &impl Abort, alloc: Global, lines: &[&str]) -> Vec<Edit> {
    let mut edits = Vec::new(alloc);
    for line in lines {
        let edit = edit(rt, alloc, line);
        edits.push(edit).expect(rt, "one edit more");
    }
    edits
}

/// A design with no nets and no gates.
pub fn empty(rt: &impl Abort, alloc: Global) -> Design {
    assert!(rt; Name::is_valid("m"));
    let top = Name::new(alloc, "m").expect(rt, "a name");
    Design::empty(alloc, NameHasher::fixed(), top, TimeUnit::default())
}

/// The design that the edits of lines make of one with no nets and no gates.
pub fn design_of(rt: &impl Abort, alloc: Global, lines: &[&str]) -> Design {
    made_of(rt, alloc, edits(rt, alloc, lines))
}

/// The same of a list of edits.
pub fn made_of(rt: &impl Abort, alloc: Global, edits: Vec<Edit>) -> Design {
    let start = empty(rt, alloc);
    let design = carried_out(rt, alloc, &start, &edits);
    drop(start);
    drop(edits);
    design
}

/// The design with edits, which it accepts.
pub fn carried_out(rt: &impl Abort, alloc: Global, design: &Design, edits: &[Edit]) -> Design {
    apply_all(alloc, design, edits).expect(rt, "accepted edits")
}

/// The place and the fault of the first edit that is refused.
pub fn outcome(alloc: Global, design: &Design, edits: &[Edit]) -> Option<(usize, EditFault)> {
    apply_all(alloc, design, edits).err()
}
