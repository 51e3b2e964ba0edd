//! Worked rows: elements that are whole in their bytes, and others.

ghost use Rattle.tl_patch_select.specs.Examples.{from_to, paragraph_in_svg, places_in, text_in_row};
ghost use Rattle.tl_patch_select.specs.Whole.{IsCrossedBy, IsWholeBy};

/// Browsers put a `p` in an `svg` behind that.
pub fn paragraphs_in_svg()
    ensures svg { IsWholeBy (places_in paragraph_in_svg) 20 3 4 (from_to 0 19) → ⊥ }
    ensures crossed { IsCrossedBy (places_in paragraph_in_svg) 20 3 4 (from_to 0 19) 5 }
    ensures paragraph { IsWholeBy (places_in paragraph_in_svg) 20 4 6 (from_to 5 13) }
{}

/// And a text in a row of a table, and in no cell, before the table.
pub fn texts_in_rows()
    ensures row { IsWholeBy (places_in text_in_row) 25 6 9 (from_to 7 17) → ⊥ }
    ensures crossed { IsCrossedBy (places_in text_in_row) 25 6 9 (from_to 7 17) 11 }
{}
