//! Laws of the grammar, its conditions and its faults.

ghost use Rattle.std.specs.Prelude.{◌≡◌, ◌<◌, ◌⊎◌, ◌++◌, ◌∷◌, [], ℕ, List, length, map};
ghost use Rattle.mrs_spelling.specs.Conditions.{AllKeep, BreaksAfter, word_of};
ghost use Rattle.mrs_spelling.specs.Faults.{Fault, FirstFault, Spells};
ghost use Rattle.mrs_spelling.specs.Grammar.{mrs};
ghost use Rattle.mrs_spelling.specs.Reading.{Outcome, Reads, Tok, stuck};

/// A text has its tokens in one way.
pub fn one_spelling()
    ensures { (cs : List ℕ) (es fs : List Tok) → Spells cs es → Spells cs fs → es ≡ fs }
{}

/// A text that keeps the conditions has no fault.
pub fn not_both()
    ensures { (cs front : List ℕ) (es : List Tok) → Spells cs es → AllKeep (map word_of es) → Fault cs front → ⊥ }
{}

/// Where the tokens keep the conditions, the place where nothing goes on, or a text goes on after its end, is the first fault.
pub fn stop_is_first()
    ensures { (cs : List ℕ) (es : List Tok) (o : Outcome) (d rest : List ℕ) → Reads mrs [] cs es o d rest → AllKeep (map word_of es) → (o ≡ stuck) ⊎ (0 < length rest) → FirstFault cs d }
{}

/// The place of the first token that breaks a condition is the first fault.
pub fn breach_is_first()
    ensures { (cs : List ℕ) (es fs : List Tok) (e : Tok) (o : Outcome) (d rest : List ℕ) → Reads mrs [] cs (es ++ e ∷ fs) o d rest → AllKeep (map word_of es) → BreaksAfter (map word_of es) (word_of e) → FirstFault cs e.at }
{}
