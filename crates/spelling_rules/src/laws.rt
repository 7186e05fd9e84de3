//! Laws of the forms of stems.

ghost use Rattle.std.specs.Prelude.{◌≡◌, ◌<◌, ℕ, List, length, encode_utf8_all};
ghost use Rattle.lexicon.specs.Words.{Word};
ghost use Rattle.spelling_rules.specs.Trees.{SpellingTree, AreBound};
ghost use Rattle.spelling_rules.specs.Forms.{AreForms};

/// A stem has one list of forms under a rule, and each stem has one.
pub fn one_list()
    ensures one { (s : SpellingTree) (rule : ℕ) (letters : List ℕ) (xs ys : List Word) → AreBound s.rules → rule < length s.rules
        → AreForms s rule (encode_utf8_all letters) xs → AreForms s rule (encode_utf8_all letters) ys → xs ≡ ys }
    ensures each { (s : SpellingTree) (rule : ℕ) (letters : List ℕ) → AreBound s.rules → rule < length s.rules
        → (xs : List Word) × AreForms s rule (encode_utf8_all letters) xs }
{}
