//! Whether words are an entry's but for the last.

ghost use Rattle.std.specs.Prelude.{◌≡◌, ◌<◌, ◌↔◌, ◌++◌, ◌∷◌, ◌-◌, [], IsTrue, length, map, take, string_bytes};
ghost use Rattle.lexicon.specs.Entries.{same_words};
ghost use Rattle.tree_model.specs.Lexical.{Word};
ghost use Rattle.lexicon.specs.Words.{Has};

// Whether these are the same words.
fn are_same(a: &[String], b: &[String]) -> bool
    ensures { result ≡ same_words (map string_bytes a.now) (map string_bytes b.now) }
{
    a == b
}

// Whether a word is one of some.
fn is_among(words: &[String], word: &String) -> bool
    ensures { IsTrue result ↔ Has (string_bytes word.now) (map string_bytes words.now) }
{
    words.contains(word)
}

/// Whether words are those of an entry but for the last, which is one of some.
pub(crate) fn are_said(words: &[String], ends: &[String], said: &[String]) -> bool
    requires some { 0 < length words.now }
    ensures { IsTrue result ↔ ((e : Word) × Has e (map string_bytes ends.now) × (map string_bytes said.now ≡ take (length words.now - 1) (map string_bytes words.now) ++ e ∷ [])) }
{
    let last = words.len() - 1;
    if said.len() != words.len() {
        return false;
    }
    if !are_same(&said[..last], &words[..last]) {
        return false;
    }
    is_among(ends, &said[last])
}
