//! Worked rows: lines and columns of small texts.
ghost use Rattle.std.specs.Prelude.{[], codes, ◌∷◌, ◌≡◌};
ghost use Rattle.tl_lines.specs.Lines.{column_at, line_at};

/// Lines: a line feed stands at the end of its own.
pub fn lines()
    ensures first { line_at (codes "ab") 1 ≡ 1 }
    ensures empty { line_at (codes "") 0 ≡ 1 }
    ensures line_feed { line_at (codes "a\nb") 1 ≡ 1 }
    ensures second { line_at (codes "a\nb") 2 ≡ 2 }
    ensures behind_the_last { line_at (codes "a\nb\n") 4 ≡ 3 }
    ensures behind_the_text { line_at (codes "a\nb\n") 9 ≡ 3 }
    ensures carriage_return { line_at (codes "a\rb\r\nc") 5 ≡ 2 }
{}

/// Columns: one for each character.
pub fn columns()
    ensures first { column_at (codes "ab") 0 ≡ 1 }
    ensures second { column_at (codes "ab") 1 ≡ 2 }
    ensures line_feed { column_at (codes "ab\nc") 2 ≡ 3 }
    ensures behind_a_line_feed { column_at (codes "ab\nc") 3 ≡ 1 }
    ensures behind_the_text { column_at (codes "ab\ncd") 9 ≡ 3 }
    ensures two_bytes { column_at (195 ∷ 169 ∷ 97 ∷ []) 2 ≡ 2 }
    ensures within_a_character { column_at (195 ∷ 169 ∷ 97 ∷ []) 1 ≡ 2 }
    ensures four_bytes { column_at (240 ∷ 159 ∷ 146 ∷ 150 ∷ 97 ∷ []) 4 ≡ 2 }
    ensures no_character { column_at (255 ∷ 254 ∷ 97 ∷ []) 2 ≡ 3 }
{}
