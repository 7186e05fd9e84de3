//! The lines of a profile, and what kind each is.
ghost use Rattle.std.specs.Prelude.{◌≡◌, ◌∷◌, ◌<◌, length};
ghost use Rattle.lkb_io.specs.Lines.{lines_of, HasNoEnd};
ghost use Rattle.profile_reports.specs.Profiles.{is_passed, is_tree, tree_in};

/// The first line of bytes without its end, and the bytes after it.
pub(crate) fn first_line(bytes: &[u8]) -> (&[u8], &[u8])
    requires { 0 < length bytes.now }
    ensures lines { lines_of bytes.now ≡ result.0.now ∷ lines_of result.1.now }
    ensures shorter { length result.1.now < length bytes.now }
{
    for (i, byte) in bytes.iter().enumerate() {
        if *byte == b'\n' {
            return (&bytes[..i], &bytes[i + 1..]);
        }
    }
    (bytes, &[])
}

/// Whether a line is passed over: it is empty or begins with a semicolon.
pub(crate) fn is_passed(line: &[u8]) -> bool
    ensures { result ≡ is_passed line.now }
{
    match line {
        [first, ..] => *first == b';',
        [] => true,
    }
}

/// Whether a line writes a tree: it begins with two blanks.
pub(crate) fn is_tree(line: &[u8]) -> bool
    ensures { result ≡ is_tree line.now }
{
    match line {
        [first, second, ..] => *first == b' ' && *second == b' ',
        _ => false,
    }
}

/// Such a line after its two blanks.
pub(crate) fn tree_in(line: &[u8]) -> &[u8]
    ensures { result.now ≡ tree_in line.now }
{
    match line {
        [_, _, rest @ ..] => rest,
        _ => &[],
    }
}
