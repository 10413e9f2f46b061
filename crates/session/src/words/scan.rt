//! Where words begin and end in the bytes of a line.

ghost use Rattle.std.specs.Prelude.{◌≡◌, ◌<◌, ◌≤◌, true, false, ◌∷◌, length, position, IfSome};
ghost use Rattle.std.specs.List.{list_all, position_or_len};
ghost use Rattle.session.specs.Words.{is_blank, is_plain, words};
ghost use Rattle.session.specs.kept.Words.{begins_blank};

/// Whether a byte parts words: a blank or a tab.
fn is_blank(byte: u8) -> bool
    ensures { result ≡ is_blank byte }
{
    byte == b' ' || byte == b'\t'
}

/// Whether all bytes of a text are among those that a line may hold, tab and 32 to 126.
pub fn are_plain(text: &[u8]) -> bool
    ensures { result ≡ list_all is_plain text.now }
{
    text.iter()
        .all(|byte| *byte == b'\t' || (32 <= *byte && *byte <= 126))
}

/// The text from its first byte on that is no blank.
#[tactic(auto, using(crate::proofs::WordLemmas::words_past_blank))]
pub fn without_blanks(text: &[u8]) -> &[u8]
    ensures same { words result.now ≡ words text.now }
    ensures plain { list_all is_plain text.now ≡ true → list_all is_plain result.now ≡ true }
    ensures begins { begins_blank result.now ≡ false }
{
    let mut rest = text;
    while let Some((first, more)) = rest.split_first() {
        if !is_blank(*first) {
            return rest;
        }
        rest = more;
    }
    rest
}

#[tactic(auto, using(crate::proofs::WordLemmas::first_word, crate::proofs::WordLemmas::all_taken, crate::proofs::WordLemmas::all_dropped))]
/// The first word of a text that does not begin with a blank, and what stands behind it.
pub fn split_word(text: &[u8]) -> (&[u8], &[u8])
    requires some { 0 < length text.now }
    requires begins { begins_blank text.now ≡ false }
    ensures words { words text.now ≡ result.0.now ∷ words result.1.now }
    ensures plain_word { list_all is_plain text.now ≡ true → list_all is_plain result.0.now ≡ true }
    ensures plain_rest { list_all is_plain text.now ≡ true → list_all is_plain result.1.now ≡ true }
{
    let end = word_length(text);
    text.split_at(end)
}

// How many bytes stand before the first blank.
#[tactic(auto, using(crate::proofs::WordLemmas::position_or_all))]
fn word_length(text: &[u8]) -> usize
    ensures within { result ≤ length text.now }
    ensures length { result ≡ position_or_len is_blank text.now }
{
    first_blank(text).unwrap_or(text.len())
}

fn first_blank(text: &[u8]) -> Option<usize>
    ensures place { result ≡ position is_blank text.now }
    ensures within { IfSome result (λ place. place < length text.now) }
{
    text.iter().position(|byte| is_blank(*byte))
}
