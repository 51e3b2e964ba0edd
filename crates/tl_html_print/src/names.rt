//! Names of HTML elements that are written otherwise than others.
ghost use Rattle.std.specs.Prelude.{◌&&◌, ◌||◌, ◌≡◌, codes};
ghost use Rattle.tl_dom_spec.specs.Lawful.{void_names};
ghost use Rattle.tl_html_spec.specs.Balanced.{is_one_of};
ghost use Rattle.tl_names.specs.Elements.{is_among};
ghost use Rattle.tl_names.specs.TagSets.{names_in};

use tl_names::class::Class;
use tl_names::element_name::ElementName;
use tl_names::elements::CLOSED_AT_ONCE;
use tl_names::is_among;

// Whether a name is of a class.
#[tactic(auto, using(tl_names::proofs::TagSets::class_of_name))]
fn is_of(class: Class, name: &[u8]) -> bool
    ensures { result ≡ is_among (names_in class) name.now }
{
    ElementName::of(name).is(class)
}

/// Whether an element of this name serializes as void.
pub(crate) fn is_void_name(name: &[u8]) -> bool
    ensures { result ≡ is_one_of void_names name.now }
{
    is_of(Class::Void, name) || is_among(&CLOSED_AT_ONCE, name)
}

/// Whether the texts in an element of this name are written as they are.
pub(crate) fn is_literal_name(is_scripting: bool, name: &[u8]) -> bool
    ensures { result
        ≡ (is_one_of (codes "style script xmp iframe noembed noframes plaintext") name.now
        || (is_scripting && is_one_of (codes "noscript") name.now)) }
{
    is_of(Class::Verbatim, name) || (is_scripting && name == b"noscript".as_slice())
}
