//! Functions from a text to what is left of it.

ghost use Rattle.std.specs.Prelude.{◌≡◌, ◌+◌, [], ◌∷◌, not, false, length, MatchOption};
ghost use Rattle.std.specs.Option.{option_map};
ghost use Rattle.std.specs.Str.{chars};
ghost use Rattle.std.specs.Char.{len_utf8};
ghost use Rattle.tdl_lexer.specs.Characters.{is_name, in_name, is_newline};
ghost use Rattle.tdl_lexer.specs.Scan.{past, chars_of, after_quote, after_front, after_mark, after_group, after_name};

use unicode::properties::GeneralCategory;

/// The first character, and the text after it.
pub(crate) fn first(text: &str) -> Option<(char, &str)>
    ensures parts { MatchOption result (chars text.now ≡ []) (λ p. chars text.now ≡ p.0 ∷ chars p.1.now) }
    ensures size { MatchOption result (length text.now ≡ 0) (λ p. length text.now ≡ len_utf8 p.0 + length p.1.now) }
{
    let mut rest = text.chars();
    let c = rest.next()?;
    Some((c, rest.as_str()))
}

/// Whether characters past ASCII of a general category stand in names.
fn in_name(category: GeneralCategory) -> bool
    ensures { result ≡ in_name category }
{
    !matches!(
        category,
        GeneralCategory::SpaceSeparator
            | GeneralCategory::LineSeparator
            | GeneralCategory::ParagraphSeparator
            | GeneralCategory::Control
            | GeneralCategory::Surrogate
            | GeneralCategory::PrivateUse
            | GeneralCategory::Unassigned
    )
}

/// Whether a character stands in names: an ASCII letter or digit, one of `*+-_?@~`, or a character past ASCII that isn't
/// white space, a control, a surrogate, of private use or unassigned, by its general category in Unicode.
#[tactic(auto, unfolding(crate::specs::Characters::is_name))]
pub fn is_name(c: char) -> bool
    ensures { result ≡ is_name c }
{
    if (c as u32) < 128 {
        c.is_ascii_alphabetic()
            || c.is_ascii_digit()
            || c == '*'
            || c == '+'
            || c == '-'
            || c == '_'
            || c == '?'
            || c == '@'
            || c == '~'
    } else {
        in_name(GeneralCategory::for_char(c))
    }
}

/// The text after its leading name characters.
pub(crate) fn after_names(text: &str) -> &str
    ensures { chars result.now ≡ past is_name (chars text.now) }
{
    let mut rest = text;
    while let Some((c, after)) = first(rest) {
        if !is_name(c) {
            break;
        }
        rest = after;
    }
    rest
}

/// The text from the end of its first line on.
pub(crate) fn after_line(text: &str) -> &str
    ensures { chars result.now ≡ past (λ c. not (is_newline c)) (chars text.now) }
{
    let mut rest = text;
    while let Some((c, after)) = first(rest) {
        if c == '\n' {
            break;
        }
        rest = after;
    }
    rest
}

/// The text after a string's closing quote.
pub(crate) fn after_quote(text: &str) -> Option<&str>
    ensures { option_map chars_of result ≡ after_quote false (chars text.now) }
{
    let mut rest = text;
    let mut escaped = false;
    while let Some((c, after)) = first(rest) {
        if !escaped && c == '"' {
            return Some(after);
        }
        escaped = !escaped && c == '\\';
        rest = after;
    }
    None
}

/// The text after the parenthesis that closes a group.
pub(crate) fn after_group(text: &str) -> Option<&str>
    ensures { option_map chars_of result ≡ after_group 0 (chars text.now) }
{
    let mut rest = text;
    let mut depth = 0u64;
    while let Some((c, after)) = first(rest) {
        if c == '(' {
            depth += 1;
        } else if c == ')' {
            if depth == 0 {
                return Some(after);
            }
            depth -= 1;
        }
        rest = after;
    }
    None
}

/// The text after an ASCII mark that stands at its beginning.
pub(crate) fn after_front<'a>(text: &'a str, mark: &[u8]) -> Option<&'a str>
    ensures { option_map chars_of result ≡ after_front mark.now (chars text.now) }
{
    let mut rest = text;
    for m in mark {
        let Some((c, after)) = first(rest) else {
            return None;
        };
        if c != char::from(*m) {
            return None;
        }
        rest = after;
    }
    Some(rest)
}

/// The text after the first place where a mark stands.
pub(crate) fn after_mark<'a>(text: &'a str, mark: &[u8]) -> Option<&'a str>
    ensures { option_map chars_of result ≡ after_mark mark.now (chars text.now) }
{
    let mut rest = text;
    while let Some((_, after)) = first(rest) {
        if let Some(end) = after_front(rest, mark) {
            return Some(end);
        }
        rest = after;
    }
    None
}

/// The text after a name that stands at its beginning.
pub(crate) fn after_name(text: &str) -> Option<&str>
    ensures { option_map chars_of result ≡ after_name (chars text.now) }
{
    let (c, after) = first(text)?;
    if is_name(c) {
        Some(after_names(after))
    } else {
        None
    }
}
