//! Laws of the walk: each contract is the law, and no function gives anything.

ghost use Rattle.std.specs.Prelude.{◌≡◌, ◌<◌, ◌≤◌, ◌⊎◌, ◌++◌, ◌+◌, ℕ, Bool, true, false, List, ◌∷◌, Option, None, Some, IsSome, MatchOption, All, length, slice_get};
ghost use Rattle.lexing.specs.Texts.{name_bytes};
ghost use Rattle.lexing.specs.declared.token.Token as tokens;
ghost use Rattle.vtext.specs.Bits.{bit_bytes, bit_of};
ghost use Rattle.vtext.specs.CauseTable.{IsFirst, cause_in, cause_table, first_cause};
ghost use Rattle.vtext.specs.Names.{name_at, number_of};
ghost use Rattle.vtext.specs.Words.{is_named, names_of};
ghost use Rattle.vtext.specs.Modules.{ModuleList};
ghost use Rattle.vtext.specs.Readings.{Reading, unread};
ghost use Rattle.vtext.specs.Reads.{IsFirstFault, Says};
ghost use Rattle.vtext.specs.kept.Sound.{IsSoundModule};
ghost use Rattle.vtext.specs.Trees.{ArePartsAdmitted, AreWritten, Part, after_parts};
ghost use Rattle.vtext.specs.Turns.{Walk, turn};
ghost use Rattle.vtext.specs.Walks.{IsFault, Leads, first_word, start, word_at};
ghost use Rattle.vtext.specs.declared.bits.BitName as bits;
ghost use Rattle.vtext.specs.declared.range.TheConstants.{MAX_INDEX};
ghost use Rattle.vtext.specs.declared.cause.Cause as causes;
ghost use Rattle.vtext.specs.declared.cause.Cause.TheVariants.{Syntax};
ghost use Rattle.vtext.specs.declared.fault.ReadFault as faults;
ghost use Rattle.vtext.specs.declared.parser_state.ParserState.TheVariants.{Outside};
ghost use Rattle.vtext.specs.declared.word.Placed as placed;
ghost use Rattle.vtext.specs.declared.word.Word as words;

use lexing::laws::{one_spelling, some_spelling};

/// Words lead from where a walk stands to one state, with one reading.
#[tactic(auto, using(crate::proofs::WalkLaws::one_walk))]
pub fn one_walk()
    ensures { (default : Option ℕ) (names : List (List ℕ)) (said : List placed.Placed) (from : Walk) (after : Option words.Word) (a b : Walk) →
        Leads default names from said after a → Leads default names from said after b → a ≡ b }
{}

/// Words have one first fault, at one place.
pub fn one_fault()
    ensures { (default : Option ℕ) (names : List (List ℕ)) (said : List placed.Placed) (k j : ℕ) (why because : causes.Cause) →
        IsFault default names said k why → IsFault default names said j because → (k ≡ j) × (why ≡ because) }
{}

/// Words that are read to their end have no fault.
pub fn no_fault()
    ensures { (default : Option ℕ) (names : List (List ℕ)) (said : List placed.Placed) (to : Walk) (k : ℕ) (why : causes.Cause) → to.state ≡ Outside →
        Leads default names start said None to → ¬ (IsFault default names said k why) }
{}

/// What the lines of the grammar write for some parts is read as what these say, where no cause holds at any of them.
pub fn text_is_read()
    ensures { (default : Option ℕ) (names : List (List ℕ)) (said : List placed.Placed) (parts : List Part) →
        AreWritten parts said → ArePartsAdmitted default names unread parts →
        Leads default names start said None (record { state = Outside; so_far = after_parts default names unread parts }) }
{}

/// A text says one list of modules, or has one first fault, and not both.
pub fn one_reading(text: &[u8])
    ensures list { (default : Option ℕ) (a b : ModuleList) → Says default text.now a → Says default text.now b → a ≡ b }
    ensures fault { (default : Option ℕ) (f g : faults.ReadFault) → IsFirstFault default text.now f → IsFirstFault default text.now g → f ≡ g }
    ensures apart { (default : Option ℕ) (a : ModuleList) (f : faults.ReadFault) → Says default text.now a → IsFirstFault default text.now f → ⊥ }
{
    one_spelling(text);
}

/// What is read to its end is what some parts say, at which no cause holds, and which the words write by the lines of the grammar.
pub fn reading_is_written()
    ensures { (default : Option ℕ) (names : List (List ℕ)) (said : List placed.Placed) (last : Reading) →
        Leads default names start said None (record { state = Outside; so_far = last }) →
        (parts : List Part) × AreWritten parts said × ArePartsAdmitted default names unread parts × (last ≡ after_parts default names unread parts) }
{}

/// Where a word is refused, no text that begins so, up to and with this word, and goes on with the same word, is written by parts
/// at which no cause holds.
pub fn no_parts_begin_so()
    ensures { (default : Option ℕ) (names : List (List ℕ)) (before : List placed.Placed) (refused : placed.Placed) (after other : List placed.Placed) (why : causes.Cause) (parts : List Part) →
        IsFault default names (before ++ refused ∷ after) (length before) why → first_word other None ≡ first_word after None →
        AreWritten parts (before ++ refused ∷ other) → ArePartsAdmitted default names unread parts → ⊥ }
{}

/// A word is refused for the first cause of the table that holds there, and a walk goes on where none does, in any state. So the
/// cause of a fault is the first that holds at its word; past the last word it is Syntax.
pub fn first_cause_is_told()
    ensures word { (default : Option ℕ) (names : List (List ℕ)) (at : Walk) (p : placed.Placed) (after : Option words.Word) →
        cause_in (turn default names at.so_far at.state p after) ≡ first_cause (cause_table default names at p.word after) }
    ensures fault { (default : Option ℕ) (names : List (List ℕ)) (said : List placed.Placed) (k : ℕ) (why : causes.Cause) (fault : IsFault default names said k why) →
        MatchOption (slice_get said k) (why ≡ Syntax) (λ (p : placed.Placed). IsFirst (cause_table default names fault.before p.word (word_at said (k + 1))) why) }
    ensures some { (table : List (Bool × causes.Cause)) (why : causes.Cause) → first_cause table ≡ Some why → IsFirst table why }
    ensures none { (table : List (Bool × causes.Cause)) → first_cause table ≡ None → All (λ row. row.0 ≡ false) table }
{}

/// Each text says a list of modules or has a first fault.
pub fn some_reading(text: &[u8])
    ensures { (default : Option ℕ) → ((list : ModuleList) × Says default text.now list) ⊎ ((fault : faults.ReadFault) × IsFirstFault default text.now fault) }
{
    some_spelling(text);
}

/// Two names have one number exactly where their bytes are the same, and each name of a text has a number.
pub fn names_are_numbers()
    ensures bytes { (names : List (List ℕ)) (bytes : List ℕ) (n : ℕ) → number_of names bytes ≡ Some n → (n < length names) × (name_at names n ≡ bytes) }
    ensures same { (names : List (List ℕ)) (a b : List ℕ) (n : ℕ) → number_of names a ≡ Some n → number_of names b ≡ Some n → a ≡ b }
    ensures there { (text : List ℕ) (before after : List tokens.Token) (token : tokens.Token) → is_named token.shape ≡ true →
        IsSome (number_of (names_of text (before ++ token ∷ after)) (name_bytes text token)) }
{}

/// A name is read as that of a bit exactly where it is a name of the table, and an index in brackets behind it.
pub fn bit_names_are_bits()
    ensures there { (names : List (List ℕ)) (n vector index : ℕ) (base : List ℕ) → number_of names base ≡ Some vector → index ≤ MAX_INDEX →
        bit_of names n (bit_bytes base index) ≡ Some (record { name = n; vector = vector; index = index }) }
    ensures only { (names : List (List ℕ)) (n : ℕ) (bytes : List ℕ) (bit : bits.BitName) → bit_of names n bytes ≡ Some bit →
        (bit.name ≡ n) × (bit.index ≤ MAX_INDEX) × ((base : List ℕ) × (number_of names base ≡ Some bit.vector) × (bytes ≡ bit_bytes base bit.index)) }
{}

/// The modules of every text are sound: a design may have their names; nets, gates and instances have different ones each; gates
/// and instances fit their nets.
pub fn modules_are_sound()
    ensures { (default : Option ℕ) (text : List ℕ) (list : ModuleList) → Says default text list → All (IsSoundModule list.names) list.modules }
{}

/// The greatest index of a bit of a vector has this number.
pub fn greatest_index()
    ensures { MAX_INDEX ≡ 65535 }
{}
