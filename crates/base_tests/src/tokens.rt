//! Texts written out by hand.

ghost use Rattle.std.specs.Prelude.{length, All};
ghost use Rattle.lexing.specs.kept.Texts.{IsInside};

use crate::compare::equal;
use fourstate::{Magnitude, TimeUnit, Unit, Value};
use lexing::{MAX_TEXT, Shape, Token, constant_value, line, next_token, number_value, timescale};
use std::alloc::Global;
use std::process::Abort;

/// A text, and the shapes and bytes of its tokens.
type Case<'a> = (&'a [u8], &'a [(Shape, &'a [u8])]);

/// The tokens of a text, one after another.
fn tokens(rt: &impl Abort, alloc: Global, text: &[u8]) -> Vec<Token>
    ensures { All (IsInside (length text.now)) result.items }
{
    assert!(rt; text.len() <= MAX_TEXT);
    let mut found = Vec::new(alloc);
    let mut position = 0;
    while let Some(token) = next_token(text, position) {
        found.push(token).expect(rt, "room");
        if token.is_last() {
            return found;
        }
        position = token.end as usize;
    }
    found
}

fn check(rt: &impl Abort, alloc: Global, case: Case<'_>) {
    let (text, want) = case;
    let found = tokens(rt, alloc, text);
    equal(rt, text, found.len(), want.len());
    for (token, (shape, bytes)) in found.iter().zip(want.iter()) {
        equal(rt, text, token.shape, *shape);
        equal(rt, text, token.bytes(text), *bytes);
    }
}

fn check_all(rt: &impl Abort, alloc: Global, cases: &[Case<'_>]) {
    for case in cases {
        check(rt, alloc, *case);
    }
}

const EACH_SHAPE: Case<'static> = (
    b"module _a$1 (\\b+c\t, 1_0);`timescale 1ns/1ps 1'bx3abc[]@",
    &[
        (Shape::Name, b"module"),
        (Shape::Name, b"_a$1"),
        (Shape::Other, b"("),
        (Shape::Escaped, b"\\b+c"),
        (Shape::Other, b","),
        (Shape::Number, b"1_0"),
        (Shape::Other, b")"),
        (Shape::Other, b";"),
        (Shape::Timescale, b"`timescale 1ns/1ps"),
        (Shape::Constant, b"1'bx"),
        (Shape::Number, b"3"),
        (Shape::Name, b"abc"),
        (Shape::Other, b"["),
        (Shape::Other, b"]"),
        (Shape::Other, b"@"),
    ],
);

const LONGEST: [Case<'static>; 6] = [
    (
        b"1'b01",
        &[(Shape::Constant, b"1'b0"), (Shape::Number, b"1")],
    ),
    (
        b"1'b2",
        &[
            (Shape::Number, b"1"),
            (Shape::Other, b"'"),
            (Shape::Name, b"b2"),
        ],
    ),
    (
        b"1'b 0",
        &[
            (Shape::Number, b"1"),
            (Shape::Other, b"'"),
            (Shape::Name, b"b"),
            (Shape::Number, b"0"),
        ],
    ),
    (
        b"\\m;endmodule x",
        &[(Shape::Escaped, b"\\m;endmodule"), (Shape::Name, b"x")],
    ),
    (b"\\a/*b*/c", &[(Shape::Escaped, b"\\a/*b*/c")]),
    (
        b"\\ a\\",
        &[
            (Shape::Other, b"\\"),
            (Shape::Name, b"a"),
            (Shape::Other, b"\\"),
        ],
    ),
];

#[test]
fn each_shape_and_the_longest_tokens(rt: HostRuntime) {
    check(&rt, rt.alloc(), EACH_SHAPE);
    check_all(&rt, rt.alloc(), &LONGEST);
}

const WHITE_SPACE: [Case<'static>; 11] = [
    (b"", &[]),
    (b" \t\r\n\x0c", &[]),
    (b"a// b", &[(Shape::Name, b"a")]),
    (b"// b\nc", &[(Shape::Name, b"c")]),
    (b"// b\rc", &[]),
    (
        b"/* // */a/**/b",
        &[(Shape::Name, b"a"), (Shape::Name, b"b")],
    ),
    (b"/*/ (* */a", &[(Shape::Name, b"a")]),
    (b"(* /* // *)a", &[(Shape::Name, b"a")]),
    (b"(*)*)a", &[(Shape::Name, b"a")]),
    (
        b"(* (* *)a*)",
        &[
            (Shape::Name, b"a"),
            (Shape::Other, b"*"),
            (Shape::Other, b")"),
        ],
    ),
    (b"/* \xff */a(*\x00*)", &[(Shape::Name, b"a")]),
];

const FAULTS: [Case<'static>; 7] = [
    (b"a /*/", &[(Shape::Name, b"a"), (Shape::Unending, b"/*/")]),
    (b"(*)a", &[(Shape::Unending, b"(*)a")]),
    (b"/* *", &[(Shape::Unending, b"/* *")]),
    (b"a\x7fb", &[(Shape::Name, b"a"), (Shape::Stray, b"\x7f")]),
    (b"\x0b", &[(Shape::Stray, b"\x0b")]),
    (
        b"\\abc\x80",
        &[(Shape::Escaped, b"\\abc"), (Shape::Stray, b"\x80")],
    ),
    (b"\\\x80", &[(Shape::Other, b"\\"), (Shape::Stray, b"\x80")]),
];

#[test]
fn white_space_and_faults(rt: HostRuntime) {
    check_all(&rt, rt.alloc(), &WHITE_SPACE);
    check_all(&rt, rt.alloc(), &FAULTS);
}

const DIRECTIVES: [Case<'static>; 3] = [
    (
        b"`timescale/*a*/100 (*b*)us // c\n/\n10\tfs",
        &[(
            Shape::Timescale,
            b"`timescale/*a*/100 (*b*)us // c\n/\n10\tfs",
        )],
    ),
    (
        b"`timescale 1ns/1psmodule m;",
        &[
            (Shape::Timescale, b"`timescale 1ns/1ps"),
            (Shape::Name, b"module"),
            (Shape::Name, b"m"),
            (Shape::Other, b";"),
        ],
    ),
    (
        b"`timescale 2ns/1ps",
        &[
            (Shape::Other, b"`"),
            (Shape::Name, b"timescale"),
            (Shape::Number, b"2"),
            (Shape::Name, b"ns"),
            (Shape::Other, b"/"),
            (Shape::Number, b"1"),
            (Shape::Name, b"ps"),
        ],
    ),
];

/// Beginnings of texts, and the magnitude and the unit of the directive there.
const UNITS: [(&[u8], Option<(Magnitude, Unit)>); 10] = [
    (
        b"`timescale/*a*/100 (*b*)us // c\n/\n10\tfs",
        Some((Magnitude::Hundred, Unit::Microsecond)),
    ),
    (b"`timescale 1s/1fs;", Some((Magnitude::One, Unit::Second))),
    (
        b"`timescale(* a *)10ns// b\n/ // c\n1ps",
        Some((Magnitude::Ten, Unit::Nanosecond)),
    ),
    (b"`timescale 10ns///\n1ps", None),
    (b"`timescale1s/1fs", None),
    (b"`timescale 1000s/1fs", None),
    (b"`timescale 1ns//1ps", None),
    (b"`timescale 1ns/1m", None),
    (b"`timescale 1ns/(*1ps", None),
    (b" `timescale 1ns/1ps", None),
];

#[test]
fn directives(rt: HostRuntime) {
    check_all(&rt, rt.alloc(), &DIRECTIVES);
    for (text, want) in UNITS {
        let want = want.map(|(magnitude, unit)| TimeUnit { magnitude, unit });
        equal(&rt, text, timescale(text), want);
    }
}

const NUMBERS: [(&[u8], u32); 5] = [
    (b"0", 0),
    (b"1_0__2", 102),
    (b"4294967295", 4_294_967_295),
    (b"4294967296", 4_294_967_295),
    (b"99999999999999999999999", 4_294_967_295),
];

const CONSTANTS: [(&[u8], Value); 4] = [
    (b"1'b0", Value::Zero),
    (b"1'B1", Value::One),
    (b"1'bX", Value::Unknown),
    (b"1'bZ", Value::HighZ),
];

#[test]
fn numbers_and_constants(rt: HostRuntime) {
    for (text, want) in NUMBERS {
        equal(&rt, text, number_value(text), want);
    }
    for (text, want) in CONSTANTS {
        equal(&rt, text, constant_value(text), want);
    }
}

#[test]
fn the_token_behind_a_place(rt: HostRuntime) {
    let text = b" a /* b */ +\x01c";
    for (from, shape, start, end) in [
        (0, Shape::Name, 1, 2),
        (2, Shape::Other, 11, 12),
        (12, Shape::Stray, 12, 13),
        (13, Shape::Name, 13, 14),
    ] {
        assert!(&rt; from <= text.len());
        let want = Token { shape, start, end };
        equal(&rt, from, next_token(text, from), Some(want));
        equal(&rt, from, want.is_last(), shape == Shape::Stray);
    }
    equal(&rt, "end", next_token(text, text.len()), None);
}

#[test]
fn names_are_plain_or_escaped(rt: HostRuntime) {
    let text = b"n1 \\n1 ";
    let found = tokens(&rt, rt.alloc(), text);
    equal(&rt, "number of tokens", found.len(), 2);
    for token in &found {
        equal(&rt, "name", token.name(text), b"n1".as_slice());
    }
}

#[test]
fn lines(rt: HostRuntime) {
    let text = b"a\n/* \r\n */ b\n".as_slice();
    for (place, want) in [(0, 1), (1, 1), (2, 2), (11, 3), (13, 4)] {
        assert!(&rt; place <= text.len());
        equal(&rt, place, line(text, place), want);
    }
}

#[test]
fn each_beginning(rt: HostRuntime) {
    let text =
        b"`timescale 1 ns/ 10ps\nmodule \\m+ (a); // b\n not #3 (y, 1'b0); (* c *) /* d */ endmodule\x01";
    for end in 0..text.len() + 1 {
        let found = tokens(&rt, rt.alloc(), &text[..end]);
        for (k, token) in found.iter().enumerate() {
            let is_last = k + 1 == found.len();
            let is_fault = matches!(token.shape, Shape::Unending | Shape::Stray);
            assert!(&rt; is_last || !is_fault);
        }
    }
}
