//! Laws of what is found.

ghost use Rattle.std.specs.Prelude.{◌≡◌, ℕ, List};
ghost use Rattle.tl_css.specs.Selector.{Css};
ghost use Rattle.tl_tree_select.specs.Meaning.{AreFound};
ghost use Rattle.tl_tree_select.specs.Page.{Page};

/// A selector is found at one list of numbers.
pub fn selectors_find_once()
    ensures { (page : Page) (e : Css) (ms ns : List ℕ) → AreFound page e ms → AreFound page e ns
        → ms ≡ ns }
{}
