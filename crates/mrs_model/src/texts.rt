//! Characters and names of the texts in an MRS.

ghost use Rattle.std.specs.Prelude.{◌≡◌, ◌↔◌, ◌+◌, ◌∷◌, [], IsTrue, All, MatchOption, length, not, ◌||◌, false};
ghost use Rattle.std.specs.Str.{chars};
ghost use Rattle.std.specs.Char.{len_utf8};
ghost use Rattle.mrs_model.specs.Texts.{IsName, ends_name, is_capital};

/// The first character, and the text after it.
pub fn first(text: &str) -> Option<(char, &str)>
    ensures parts { MatchOption result (chars text.now ≡ []) (λ p. chars text.now ≡ p.0 ∷ chars p.1.now) }
    ensures size { MatchOption result (length text.now ≡ 0) (λ p. length text.now ≡ len_utf8 p.0 + length p.1.now) }
{
    let mut rest = text.chars();
    let c = rest.next()?;
    Some((c, rest.as_str()))
}

/// Whether a character ends a name: white space or one of `[ ] < > : "`.
pub fn ends_name(c: char) -> bool
    ensures { result ≡ ends_name c }
{
    c.is_whitespace() || c == '[' || c == ']' || c == '<' || c == '>' || c == ':' || c == '"'
}

// Whether a character stands in the names of an MRS.
fn in_name(c: char) -> bool
    ensures { result ≡ not (ends_name c || is_capital c) }
{
    !ends_name(c) && !c.is_ascii_uppercase()
}

/// Whether a text is one or more characters of names, without ASCII capitals.
pub fn is_name(text: &str) -> bool
    ensures { IsTrue result ↔ IsName text.now }
{
    !text.is_empty() && are_in_name(text)
}

fn are_in_name(text: &str) -> bool
    ensures { IsTrue result ↔ All (λ c. (ends_name c || is_capital c) ≡ false) (chars text.now) }
{
    let mut rest = text;
    while let Some((c, after)) = first(rest) {
        if !in_name(c) {
            return false;
        }
        rest = after;
    }
    true
}
