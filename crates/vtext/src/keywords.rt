//! The words of Verilog.

ghost use Rattle.std.specs.Prelude.{◌≡◌, ℕ, List, Some};
ghost use Rattle.std.specs.List.{list_any};
ghost use Rattle.std.specs.Str.{bytes_eq};
ghost use Rattle.vtext.specs.Keywords.{is_bad_byte, is_misnamed, is_refused, mark_of, name_word, plain_word, unkept_word};
ghost use Rattle.vtext.specs.kept.Keywords.{is_wordlike};
ghost use Rattle.vtext.specs.Names.{number_of};

use crate::word::{Direction, Word};
use design::MAX_NAME;
use fourstate::{GateKind, NetKind};

/// The words of Verilog that are refused.
const REFUSED: [&str; 83] = [
    "always",
    "assign",
    "automatic",
    "begin",
    "case",
    "casex",
    "casez",
    "cmos",
    "deassign",
    "default",
    "defparam",
    "disable",
    "edge",
    "else",
    "end",
    "endcase",
    "endfunction",
    "endgenerate",
    "endprimitive",
    "endspecify",
    "endtable",
    "endtask",
    "event",
    "for",
    "force",
    "forever",
    "fork",
    "function",
    "generate",
    "genvar",
    "if",
    "initial",
    "inout",
    "integer",
    "join",
    "large",
    "localparam",
    "macromodule",
    "medium",
    "negedge",
    "nmos",
    "parameter",
    "pmos",
    "posedge",
    "primitive",
    "pull0",
    "pull1",
    "pulldown",
    "pullup",
    "rcmos",
    "real",
    "realtime",
    "reg",
    "release",
    "repeat",
    "rnmos",
    "rpmos",
    "rtran",
    "rtranif0",
    "rtranif1",
    "scalared",
    "signed",
    "small",
    "specify",
    "specparam",
    "strong0",
    "strong1",
    "supply0",
    "supply1",
    "table",
    "task",
    "time",
    "tran",
    "tranif0",
    "tranif1",
    "trireg",
    "unsigned",
    "uwire",
    "vectored",
    "wait",
    "weak0",
    "weak1",
    "while",
];

/// Whether bytes are one of these words.
fn is_among(bytes: &[u8], words: &[&str]) -> bool
    ensures { result ≡ list_any (λ word. bytes_eq bytes.now word.now) words.now }
{
    words.iter().any(|word| bytes == word.as_bytes())
}

/// Whether a word is one of those that are refused.
fn is_refused(bytes: &[u8]) -> bool
    ensures { result ≡ is_refused bytes.now }
{
    is_among(bytes, &REFUSED)
}

fn has_bad_byte(bytes: &[u8]) -> bool
    ensures { result ≡ list_any is_bad_byte bytes.now }
{
    bytes.iter().any(|byte| *byte == b'.' || *byte == b'\'')
}

/// Whether a name is too long, holds a dot or an apostrophe, or is `$end`.
fn is_misnamed(bytes: &[u8]) -> bool
    ensures { result ≡ is_misnamed bytes.now }
{
    bytes.len() > MAX_NAME || has_bad_byte(bytes) || bytes == b"$end".as_slice()
}

/// A name, by its number in the table.
pub fn name_word(number: u32, bytes: &[u8]) -> Word
    ensures { (names : List (List ℕ)) → number_of names bytes.now ≡ Some number → result ≡ name_word names bytes.now }
{
    if is_misnamed(bytes) {
        Word::Misnamed
    } else {
        Word::Name(number)
    }
}

/// A name that is not escaped and is no word of the grammar.
fn unkept_word(number: u32, bytes: &[u8]) -> Word
    ensures { (names : List (List ℕ)) → number_of names bytes.now ≡ Some number → result ≡ unkept_word names bytes.now }
{
    if is_refused(bytes) {
        Word::Refused
    } else {
        name_word(number, bytes)
    }
}

/// Whether bytes are small letters but for the last one, as those of each word are, and of few names.
fn is_wordlike(bytes: &[u8]) -> bool
    ensures { result ≡ is_wordlike bytes.now }
{
    let head = &bytes[..bytes.len().saturating_sub(1)];
    head.iter().all(|byte| byte.is_ascii_lowercase())
}

/// A word, or a name that is not escaped, by its number in the table (IEEE 1364-2005, annex B).
pub fn plain_word(number: u32, bytes: &[u8]) -> Word
    ensures { (names : List (List ℕ)) → number_of names bytes.now ≡ Some number → result ≡ plain_word names bytes.now }
{
    if !is_wordlike(bytes) {
        return name_word(number, bytes);
    }
    if bytes == b"module".as_slice() {
        return Word::Module;
    }
    if bytes == b"endmodule".as_slice() {
        return Word::Endmodule;
    }
    if bytes == b"input".as_slice() {
        return Word::PortWord(Direction::Input);
    }
    if bytes == b"output".as_slice() {
        return Word::PortWord(Direction::Output);
    }
    match (NetKind::from_keyword(bytes), GateKind::from_keyword(bytes)) {
        (Some(kind), _) => Word::NetWord(kind),
        (None, Some(kind)) => Word::GateWord(kind),
        (None, None) => unkept_word(number, bytes),
    }
}

/// A byte that is a token by itself.
pub fn mark(byte: u8) -> Word
    ensures { result ≡ mark_of byte }
{
    match byte {
        b'(' => Word::Open,
        b')' => Word::Close,
        b',' => Word::Comma,
        b';' => Word::Semicolon,
        b'#' => Word::Hash,
        b'.' => Word::Dot,
        b':' => Word::Colon,
        b'[' => Word::OpenBracket,
        b']' => Word::CloseBracket,
        b'\\' => Word::Broken,
        _ => Word::Refused,
    }
}
