//! Classes of characters.

ghost use Rattle.std.specs.Prelude.{◌≡◌, ◌∷◌, [], MatchOption, IfSome, not, ◌||◌};
ghost use Rattle.std.specs.Str.{chars, IsUtf8};
ghost use Rattle.mrs_spelling.specs.Reading.{passes, head};
ghost use Rattle.mrs_spelling.specs.Forms.{Class, ends_name, has, white, letter, digit, in_name, in_pred, any, only, other_than};

/// The first character, and the text after it.
pub(crate) fn first(text: &str) -> Option<(char, &str)>
    ensures parts { MatchOption result (chars text.now ≡ []) (λ p. chars text.now ≡ p.0 ∷ chars p.1.now) }
    ensures utf8 { IfSome result (λ p. IsUtf8 p.1.now) }
{
    let mut rest = text.chars();
    let c = rest.next()?;
    Some((c, rest.as_str()))
}

/// A class of characters.
pub(crate) trait CharClass {
    ghost class: { Class };

    fn has(c: char) -> bool
        ensures { result ≡ has class c };
}

/// White space.
pub(crate) struct White;

impl CharClass for White {
    ghost class = { white };

    fn has(c: char) -> bool {
        c.is_whitespace()
    }
}

/// An ASCII letter.
pub(crate) struct Letter;

impl CharClass for Letter {
    ghost class = { letter };

    fn has(c: char) -> bool {
        c.is_ascii_alphabetic()
    }
}

/// An ASCII digit.
pub(crate) struct Digit;

impl CharClass for Digit {
    ghost class = { digit };

    fn has(c: char) -> bool {
        c.is_ascii_digit()
    }
}

// Whether a character ends a name: white space or one of `[ ] < > : "`.
fn ends_name(c: char) -> bool
    ensures { result ≡ ends_name c }
{
    c.is_whitespace() || c == '[' || c == ']' || c == '<' || c == '>' || c == ':' || c == '"'
}

/// A character of names.
pub(crate) struct InName;

impl CharClass for InName {
    ghost class = { in_name };

    fn has(c: char) -> bool {
        !ends_name(c)
    }
}

/// A character of predicates that stand without quotes.
pub(crate) struct InPred;

impl CharClass for InPred {
    ghost class = { in_pred };

    fn has(c: char) -> bool {
        !ends_name(c) || c == ':'
    }
}

/// Any character.
pub(crate) struct AnyChar;

impl CharClass for AnyChar {
    ghost class = { any };

    fn has(_c: char) -> bool {
        true
    }
}

/// One character.
pub(crate) struct Only<const C: u8>;

impl<const C: u8> CharClass for Only<C> {
    ghost class = { only C };

    fn has(c: char) -> bool {
        c == char::from(C)
    }
}

/// Any character but one.
pub(crate) struct OtherThan<const C: u8>;

impl<const C: u8> CharClass for OtherThan<C> {
    ghost class = { other_than C };

    fn has(c: char) -> bool {
        c != char::from(C)
    }
}

/// Whether a text begins with a character of the class.
pub(crate) fn begins<C: CharClass>(text: &str) -> bool
    ensures { result ≡ passes C.class (head (chars text.now)) }
{
    match first(text) {
        Some((c, _)) => C::has(c),
        None => false,
    }
}
