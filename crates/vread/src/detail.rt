//! What a refused text's fault is told by.

ghost use Rattle.std.specs.Prelude.{◌≡◌, ◌≤◌, ◌++◌, [], All, IfOk, List, length, slice_get};
ghost use Rattle.lexing.specs.Texts.{Spells};
ghost use Rattle.lexing.specs.declared.limits.TheConstants.{MAX_TEXT};
ghost use Rattle.lexing.specs.declared.token.Token as tokens;
ghost use Rattle.elaboration.specs.FaultPlaces.{fault_place};
ghost use Rattle.vread.specs.Drivers.{design_party};
ghost use Rattle.vread.specs.Details.{IsFaultDetail, late_party, party_text, place_party, place_word, refused_word, word_from};
ghost use Rattle.vread.specs.kept.Details.{IsOnLine, IsWordInside};
ghost use Rattle.vread.specs.Reads.{IsReadFault};
ghost use Rattle.vtext.specs.kept.Sound.{IsSoundModule};
ghost use Rattle.vtext.specs.declared.fault.ReadFault as faults;

use crate::driver::design_party;
use crate::laws::words_are_on_lines;
use design::NameHasher;
use elaboration::{FaultPlace, Party, fault_place};
use lexing::laws::one_spelling;
use lexing::{MAX_TEXT, Token, tokens};
use std::alloc::{AllocError, Global};
use vtext::laws::modules_are_sound;
use vtext::{Modules, Names, Refusal, modules_or_refusal};

/// The word of a refused text at which its fault lies.
#[derive(Clone, Copy, Debug, PartialEq, Eq)]
pub enum FaultWord {
    /// No word is at fault.
    Nothing,
    /// The text ends.
    End,
    /// The token that is refused, the name of the instance, or the word `module`, at which the fault lies.
    Token(Token),
}

/// What a refused text's fault is told by.
#[derive(Debug, Drop)]
pub struct FaultDetail {
    /// The word at which it lies.
    pub word: FaultWord,
    /// What else it names, as it follows the word: `, module m`, `, port p` or `, net n, gate g`; empty where it names nothing
    /// else.
    pub party: Vec<u8>,
}

/// The word at a place of the list; past the last token, the text's end.
fn refused_word(list: &[Token], place: usize) -> FaultWord
    ensures { result ≡ refused_word (slice_get list.now place) }
{
    match list.get(place) {
        Some(token) => FaultWord::Token(*token),
        None => FaultWord::End,
    }
}

/// The token that begins at a place of the text.
fn word_from(list: &[Token], start: u32) -> FaultWord
    ensures { result ≡ word_from list.now start }
{
    for token in list {
        if token.start == start {
            return FaultWord::Token(*token);
        }
    }
    FaultWord::Nothing
}

fn place_word(list: &[Token], place: Option<FaultPlace>) -> FaultWord
    ensures { result ≡ place_word list.now place }
{
    match place {
        Some(place) => word_from(list, place.start),
        None => FaultWord::Nothing,
    }
}

fn party_text(alloc: Global, names: &Names, party: Party) -> Result<Vec<u8>, AllocError>
    ensures { IfOk result (λ text. text.items ≡ party_text names.now party) }
{
    match party {
        Party::Module(name) => joined(alloc, b", module ", names.text(name)),
        Party::Port(name) => joined(alloc, b", port ", names.text(name)),
    }
}

fn joined(alloc: Global, front: &[u8], back: &[u8]) -> Result<Vec<u8>, AllocError>
    ensures { IfOk result (λ text. text.items ≡ front.now ++ back.now) }
{
    let mut text = Vec::from_slice(alloc, front)?;
    text.extend_from_slice(back)?;
    Ok(text)
}

fn place_party(
    alloc: Global,
    names: &Names,
    place: Option<FaultPlace>,
) -> Result<Vec<u8>, AllocError>
    ensures { IfOk result (λ text. text.items ≡ place_party names.now place) }
{
    let Some(place) = place else {
        return Ok(Vec::new(alloc));
    };
    match place.party {
        Some(party) => party_text(alloc, names, party),
        None => Ok(Vec::new(alloc)),
    }
}

/// What the fault of modules names, which lies at this place.
fn late_party(
    alloc: Global,
    text: &[u8],
    modules: &Modules,
    place: Option<FaultPlace>,
) -> Result<Vec<u8>, AllocError>
    requires { All (IsSoundModule modules.now.names) modules.now.modules }
    ensures { IfOk result (λ party. party.items ≡ place_party modules.now.names place ++ design_party text.now modules.now) }
{
    let mut party = place_party(alloc, modules.names(), place)?;
    let driven = design_party(alloc, text, modules)?;
    party.extend_from_slice(driven.as_slice())?;
    Ok(party)
}

/// The detail of the fault of a token, by its place among the text's tokens.
fn first_detail(alloc: Global, text: &[u8], place: usize) -> Result<FaultDetail, AllocError>
    requires { length text.now ≤ MAX_TEXT }
    ensures word { IfOk result (λ detail. (list : List tokens.Token) → Spells text.now 0 list → detail.word ≡ refused_word (slice_get list place)) }
    ensures party { IfOk result (λ detail. detail.party.items ≡ []) }
    ensures inside { IfOk result (λ detail. IsWordInside (length text.now) detail.word) }
{
    one_spelling(text);
    let list = tokens(alloc, text)?;
    let word = refused_word(list.as_slice(), place);
    Ok(FaultDetail {
        word,
        party: Vec::new(alloc),
    })
}

/// The detail of the fault of modules.
fn late_detail(alloc: Global, text: &[u8], modules: &Modules) -> Result<FaultDetail, AllocError>
    requires short { length text.now ≤ MAX_TEXT }
    requires sound { All (IsSoundModule modules.now.names) modules.now.modules }
    ensures word { IfOk result (λ detail. (list : List tokens.Token) × Spells text.now 0 list × (detail.word ≡ place_word list (fault_place modules.now.modules))) }
    ensures party { IfOk result (λ detail. detail.party.items ≡ late_party text.now modules.now) }
    ensures inside { IfOk result (λ detail. IsWordInside (length text.now) detail.word) }
{
    let place = fault_place(alloc, modules)?;
    let list = tokens(alloc, text)?;
    let party = late_party(alloc, text, modules, place)?;
    let word = place_word(list.as_slice(), place);
    Ok(FaultDetail { word, party })
}

fn detail_of(
    alloc: Global,
    hasher: NameHasher,
    text: &[u8],
    default: Option<u32>,
) -> Result<FaultDetail, AllocError>
    ensures detail { IfOk result (IsFaultDetail default text.now) }
    ensures inside { IfOk result (λ detail. IsWordInside (length text.now) detail.word) }
{
    if text.len() > MAX_TEXT {
        return Ok(FaultDetail {
            word: FaultWord::Nothing,
            party: Vec::new(alloc),
        });
    }
    modules_are_sound();
    match modules_or_refusal(alloc, hasher, text, default) {
        Ok(modules) => late_detail(alloc, text, &modules),
        Err(Refusal::Fault(place, _)) => first_detail(alloc, text, place),
        Err(Refusal::OutOfMemory) => Err(AllocError),
    }
}

/// What the fault of a refused text is told by: the word at which it lies, and what else it names. `default` is the delay, in
/// time units, of gate items without one; the names of the text are hashed by `hasher`.
pub fn fault_detail(
    alloc: Global,
    hasher: NameHasher,
    text: &[u8],
    default: Option<u32>,
) -> Result<FaultDetail, AllocError>
    ensures detail { IfOk result (IsFaultDetail default text.now) }
    // The fault lies on the line of the word.
    ensures line { IfOk result (λ detail. (fault : faults.ReadFault) → IsReadFault default text.now fault → IsOnLine text.now fault detail.word) }
    ensures inside { IfOk result (λ detail. IsWordInside (length text.now) detail.word) }
{
    words_are_on_lines(text);
    let detail = detail_of(alloc, hasher, text, default)?;
    Ok(detail)
}
