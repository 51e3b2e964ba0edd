//! Start tags that end foreign content (13.2.6.5).
ghost use Rattle.std.specs.Prelude.{IsTrue, codes, ◌||◌, ◌≡◌};
ghost use Rattle.tl_dom_spec.specs.Dispatcher.{breakout_names, breaks_out};
ghost use Rattle.tl_dom_spec.specs.Tags.{has_attribute};
ghost use Rattle.tl_html_spec.specs.Balanced.{is_one_of};
ghost use Rattle.tl_tree.specs.Inner.Store.{is_tag_number, tag_at};

use crate::integration::has_attribute;
use crate::store::Store;
use tl_names::class::Class;
use tl_names::element_name::ElementName;

// Whether a tag is one of a font.
fn is_font(store: &Store<'_>, number: u32) -> bool
    requires { IsTrue (is_tag_number store.now number) }
    ensures { result ≡ is_one_of (codes "font") (tag_at store.now number).name }
{
    let tag = store.tag(number);
    tag.known == ElementName::FONT
}

// Whether the name of a tag is enough.
fn is_breakout_name(store: &Store<'_>, number: u32) -> bool
    requires { IsTrue (is_tag_number store.now number) }
    ensures { result ≡ is_one_of breakout_names (tag_at store.now number).name }
{
    let tag = store.tag(number);
    tag.known.is(Class::Breakout)
}

// Whether an attribute says how a font looks.
fn is_styled(store: &Store<'_>, number: u32) -> bool
    requires { IsTrue (is_tag_number store.now number) }
    ensures { result
        ≡ (has_attribute (codes "color") (tag_at store.now number).attributes
        || has_attribute (codes "face") (tag_at store.now number).attributes
        || has_attribute (codes "size") (tag_at store.now number).attributes) }
{
    has_attribute(store, number, b"color")
        || has_attribute(store, number, b"face")
        || has_attribute(store, number, b"size")
}

/// Whether the start tag of a number does.
pub(crate) fn breaks_out(store: &Store<'_>, number: u32) -> bool
    requires { IsTrue (is_tag_number store.now number) }
    ensures { result ≡ breaks_out (tag_at store.now number) }
{
    is_breakout_name(store, number) || (is_font(store, number) && is_styled(store, number))
}
