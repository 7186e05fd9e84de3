//! What holds of the lines of a workload.
ghost use Rattle.std.specs.Prelude.{ℕ, All};
ghost use Rattle.std.specs.Str.{IsUtf8};
ghost use Rattle.self_tests.specs.Lines.{lines};

/// Each line of a workload is UTF-8, so that it may be parsed as text. It does nothing.
pub fn lines_are_text()
    ensures { (number size : ℕ) → All IsUtf8 (lines number size) }
{}
