//! Tags, attributes and doctypes, as the store has them.

ghost use Rattle.std.specs.Prelude.{false, true, ◌≡◌};
ghost use Rattle.tl_dom_spec.specs.Tags.{by_space};
ghost use Rattle.tl_tree.specs.Inner.Store.{space_of};

use crate::span::Span;
use tl_names::element_name::ElementName;

/// The namespaces of elements.
#[derive(Clone, Copy, PartialEq, Eq)]
pub enum Namespace {
    Html,
    Math,
    Svg,
}

impl Namespace {
    pub(crate) fn is_html(self) -> bool
        ensures { result ≡ by_space (space_of self) true false false }
    {
        match self {
            Namespace::Html => true,
            Namespace::Math => false,
            Namespace::Svg => false,
        }
    }

    pub(crate) fn is_math(self) -> bool
        ensures { result ≡ by_space (space_of self) false true false }
    {
        match self {
            Namespace::Html => false,
            Namespace::Math => true,
            Namespace::Svg => false,
        }
    }

    pub(crate) fn is_svg(self) -> bool
        ensures { result ≡ by_space (space_of self) false false true }
    {
        match self {
            Namespace::Html => false,
            Namespace::Math => false,
            Namespace::Svg => true,
        }
    }
}

/// The namespaces of attributes. Most have none.
#[derive(Clone, Copy, PartialEq, Eq)]
pub enum AttributeSpace {
    Plain,
    Xlink,
    Xml,
    Xmlns,
}

/// The lists of attributes: that of most tags, and those of `html` and of `body` where these have
/// got more.
#[derive(Clone, Copy, PartialEq, Eq)]
pub(crate) enum AttributeList {
    Tags,
    Html,
    Body,
}

#[derive(Clone, Copy)]
pub(crate) struct AttributeEntry {
    pub(crate) space: AttributeSpace,
    pub(crate) key: Span,
    pub(crate) value: Span,
}

/// An element without its children. Its attributes stand side by side in their list. The store
/// looks its name up as it takes it in.
#[derive(Clone, Copy)]
pub(crate) struct TagEntry {
    pub(crate) space: Namespace,
    pub(crate) list: AttributeList,
    pub(crate) known: ElementName,
    pub(crate) name: Span,
    /// The number of its name, in any case.
    pub(crate) number: u32,
    pub(crate) first_attribute: u32,
    pub(crate) attribute_count: u32,
    /// One more than the number of its start tag among those of the page: 0 where there is none.
    pub(crate) start: u32,
}

// What takes a byte stands side by side.
const _: () = prove!(size_of::<TagEntry>() == 28);

#[derive(Clone, Copy)]
pub(crate) struct DoctypeEntry {
    pub(crate) name: Span,
    pub(crate) public_id: Option<Span>,
    pub(crate) system_id: Option<Span>,
    pub(crate) forces_quirks: bool,
}
