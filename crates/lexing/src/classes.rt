//! Classes of bytes (IEEE 1364-2005, 3.2, 3.5, 3.7).

#![tactic(auto, using(std::proofs::lemmas::Bool::Decides::nat_tests), unfolding(crate::specs::Classes::is_space, crate::specs::Classes::is_letter, crate::specs::Classes::is_digit, crate::specs::Classes::is_name_byte, crate::specs::Classes::is_number_byte, crate::specs::Classes::is_printed, crate::specs::Classes::is_value_digit))]

ghost use Rattle.std.specs.Prelude.{◌≡◌};
ghost use Rattle.lexing.specs.Classes.{is_digit, is_letter, is_name_byte, is_number_byte, is_printed, is_space, is_value_digit};
ghost use Rattle.lexing.specs.kept.Classes.{is_mark};

// What each byte is: `s` is white space, `a` a letter or `_`, `0` a digit, `.` any other byte that prints, and `?` one that
// does not. `(`, `/`, `\` and the grave accent, with which several things begin, stand for themselves.
static CLASSES: [u8; 256] = *b"\
    ?????????ss?ss??????????????????\
    s.......(....../0000000000......\
    .aaaaaaaaaaaaaaaaaaaaaaaaaa.\\..a\
    `aaaaaaaaaaaaaaaaaaaaaaaaaa....?\
    ????????????????????????????????\
    ????????????????????????????????\
    ????????????????????????????????\
    ????????????????????????????????";

// Each byte of a name stands at its own place, and a dot at every other place.
static NAME_BYTES: [u8; 256] = *b"\
    ................................\
    ....$...........0123456789......\
    .ABCDEFGHIJKLMNOPQRSTUVWXYZ...._\
    .abcdefghijklmnopqrstuvwxyz.....\
    ................................\
    ................................\
    ................................\
    ................................";

/// Whether the byte is a blank, a tab, a line feed, a form feed or a carriage return.
#[inline(always)]
pub fn is_space(byte: u8) -> bool
    ensures { result ≡ is_space byte }
{
    CLASSES[byte as usize] == b's'
}

/// Whether the byte is a letter or `_`.
#[inline(always)]
pub fn is_letter(byte: u8) -> bool
    ensures { result ≡ is_letter byte }
{
    CLASSES[byte as usize] == b'a'
}

/// Whether the byte is a decimal digit.
#[inline(always)]
pub fn is_digit(byte: u8) -> bool
    ensures { result ≡ is_digit byte }
{
    CLASSES[byte as usize] == b'0'
}

/// Whether the byte is a token whatever stands behind it: one that prints, save letters, `_`, digits, `(`, `/`, `\` and the
/// grave accent.
#[inline(always)]
pub fn is_mark(byte: u8) -> bool
    ensures { result ≡ is_mark byte }
{
    CLASSES[byte as usize] == b'.'
}

/// Whether the byte may stand in a name: a letter, `_`, a digit or `$`.
#[inline(always)]
pub fn is_name_byte(byte: u8) -> bool
    ensures { result ≡ is_name_byte byte }
{
    NAME_BYTES[byte as usize] != b'.'
}

/// Whether the byte may stand in a number: a digit or `_`.
#[inline(always)]
pub fn is_number_byte(byte: u8) -> bool
    ensures { result ≡ is_number_byte byte }
{
    is_digit(byte) || byte == b'_'
}

/// Whether the byte is one of 33 to 126.
#[inline(always)]
pub fn is_printed(byte: u8) -> bool
    ensures { result ≡ is_printed byte }
{
    matches!(byte, 33..=126)
}

/// Whether the byte writes a value in a constant: `0`, `1`, `x`, `X`, `z` or `Z`.
#[inline(always)]
pub fn is_value_digit(byte: u8) -> bool
    ensures { result ≡ is_value_digit byte }
{
    matches!(byte, b'0' | b'1' | b'x' | b'X' | b'z' | b'Z')
}
