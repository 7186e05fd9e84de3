//! What a text begins with.

ghost use Rattle.std.specs.Prelude.{◌≡◌, ◌<◌, ◌≤◌, ◌++◌, ◌∷◌, ◌==◌, ◌||◌, length, take, drop, not, All, MatchOption, false};
ghost use Rattle.tree_reading.specs.Grammars.{ends_name};
ghost use Rattle.tree_reading.specs.Inner.Shapes.{Begins};
ghost use Rattle.tree_reading.specs.Inner.Stops.{IsCut, ends_run, IsRunCut};

/// Whether a byte can't stand in a name.
pub(crate) fn ends_name(byte: u8) -> bool
    ensures { result ≡ ends_name byte }
{
    byte == b' ' || byte == b'"' || byte == b'(' || byte == b')'
}

/// Whether a byte ends a word or escapes the next one.
fn ends_run(byte: u8) -> bool
    ensures { result ≡ ends_run byte }
{
    byte == b' ' || byte == b'"' || byte == b'\\'
}

// How many bytes stand before the first that can't be in a name.
fn name_len(bytes: &[u8]) -> usize
    ensures within { result ≤ length bytes.now }
    ensures name { All (λ byte. ends_name byte ≡ false) (take result bytes.now) }
    ensures cut { IsCut (drop result bytes.now) }
{
    for (k, byte) in bytes.iter().enumerate() {
        if ends_name(*byte) {
            return k;
        }
    }
    bytes.len()
}

// How many bytes stand before the first that ends a word or escapes the next one.
fn run_len(bytes: &[u8]) -> usize
    ensures within { result ≤ length bytes.now }
    ensures run { All (λ byte. ends_run byte ≡ false) (take result bytes.now) }
    ensures cut { IsRunCut (drop result bytes.now) }
{
    for (k, byte) in bytes.iter().enumerate() {
        if ends_run(*byte) {
            return k;
        }
    }
    bytes.len()
}

/// The longest front that could be in a name, and the rest.
pub(crate) fn split_name(text: &str) -> (&str, &str)
    ensures whole { text.now ≡ result.0.now ++ result.1.now }
    ensures name { All (λ byte. ends_name byte ≡ false) result.0.now }
    ensures cut { IsCut result.1.now }
{
    text.split_at(name_len(text.as_bytes()))
}

/// The longest front without the end of a word and without escapes, and the rest.
pub(crate) fn split_run(text: &str) -> (&str, &str)
    ensures whole { text.now ≡ result.0.now ++ result.1.now }
    ensures run { All (λ byte. ends_run byte ≡ false) result.0.now }
    ensures cut { IsRunCut result.1.now }
{
    text.split_at(run_len(text.as_bytes()))
}

/// What follows this byte of ASCII, where the text begins with it.
pub(crate) fn strip(text: &str, byte: u8) -> Option<&str>
    requires { byte < 128 }
    ensures { MatchOption result (Begins byte text.now → ⊥) (λ rest. text.now ≡ byte ∷ rest.now) }
{
    match text.as_bytes().first() {
        Some(first) if *first == byte => Some(text.split_at(1).1),
        _ => None,
    }
}
