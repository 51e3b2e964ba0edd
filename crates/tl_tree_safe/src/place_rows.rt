//! Worked rows: where a print may be put, by the names of the elements that are open, the innermost
//! first; and what stands around it.

ghost use Rattle.std.specs.Prelude.{codes, false, true, ◌≡◌};
ghost use Rattle.tl_tree_safe.specs.Examples.{is_open_in, some_place};
ghost use Rattle.tl_tree_safe.specs.OpenPlaces.{back, front, is_open_place, names_in};

/// Open places.
pub fn open_places()
    ensures body { is_open_in "body html" ≡ true }
    ensures block { is_open_in "div section body html" ≡ true }
    ensures cell { is_open_in "td tr tbody table div html" ≡ true }
    ensures caption { is_open_in "caption table html" ≡ true }
    ensures cell_in_a_paragraph { is_open_in "td tr tbody table p html" ≡ true }
    ensures list_in_an_item { is_open_in "ul li ul html" ≡ true }
    ensures formatting { is_open_in "b i div html" ≡ true }
{}

/// Places where what is open around counts.
pub fn other_places()
    ensures paragraph { is_open_in "p div html" ≡ false }
    ensures in_a_paragraph { is_open_in "b p html" ≡ false }
    ensures item { is_open_in "li ul html" ≡ false }
    ensures block_in_an_item { is_open_in "div li ul html" ≡ false }
    ensures description { is_open_in "dd dl html" ≡ false }
    ensures anchor { is_open_in "div a html" ≡ false }
    ensures button { is_open_in "button html" ≡ false }
    ensures nobr { is_open_in "b nobr html" ≡ false }
    ensures heading { is_open_in "h2 html" ≡ false }
    ensures preformatted { is_open_in "pre html" ≡ false }
    ensures ruby { is_open_in "span ruby html" ≡ false }
    ensures table { is_open_in "table html" ≡ false }
    ensures row { is_open_in "tr tbody table html" ≡ false }
{}

/// A place, and what is written around it.
pub fn what_is_around()
    ensures front { front some_place ≡ codes "<section><h2>c</h2><div>a<br>" }
    ensures back { back some_place ≡ codes "b</div></section>" }
    ensures open { is_open_place (names_in some_place) ≡ true }
{}
