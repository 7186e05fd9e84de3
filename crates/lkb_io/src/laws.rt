//! The law of the lines of a text.
ghost use Rattle.std.specs.Prelude.{◌≡◌, ℕ, List, ◌++◌};
ghost use Rattle.lkb_io.specs.Lines.{HasNoEnd, HaveNoEnd, cut, lines_of, last_line, text_of, whole_lines};

/// A text is its whole lines, each with its end, and then what stands after the last end; and there
/// is no other way to cut it so. The lines of the text are these, and what stands after the last end
/// where that isn't empty.
pub fn lines_law()
    ensures cut { (bytes : List ℕ) → (rest : List ℕ) × (bytes ≡ text_of (whole_lines bytes) ++ rest)
        × HaveNoEnd (whole_lines bytes) × HasNoEnd rest × (lines_of bytes ≡ whole_lines bytes ++ last_line rest) }
    ensures only { (lines : List (List ℕ)) (rest : List ℕ) → HaveNoEnd lines → HasNoEnd rest
        → (whole_lines (text_of lines ++ rest) ≡ lines) × (lines_of (text_of lines ++ rest) ≡ lines ++ last_line rest) }
{}
