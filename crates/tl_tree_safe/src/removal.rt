//! What goes of a tree, and why.
ghost use Rattle.std.specs.Prelude.{◌≡◌};
ghost use Rattle.tl_tree_safe.specs.Causes.{cause_words};

use std::fmt;

/// Why an element or an attribute goes.
#[derive(Clone, Copy, PartialEq, Eq, Debug)]
pub enum Cause {
    /// The tag isn't listed: what is in the element stands in its place.
    UnlistedTag,
    /// What is in the element is no markup of HTML, or isn't shown: it goes with all of that.
    OpaqueTag,
    /// The element is one of `svg` or `math`: it goes with all that is in it.
    ForeignTag,
    /// The tag is listed, and may not stand where it is: what is in it stands in its place.
    MisplacedTag,
    /// The attribute isn't listed.
    UnlistedKey,
    /// The value may not stand in its attribute, as a link that begins with what no link may.
    UnlistedValue,
}

impl Cause {
    /// It in words.
    pub fn words(self) -> &'static str
        ensures { result.now ≡ cause_words self }
    {
        match self {
            Cause::UnlistedTag => "the tag isn't listed",
            Cause::OpaqueTag => "what is in it isn't shown as markup",
            Cause::ForeignTag => "it is no element of HTML",
            Cause::MisplacedTag => "the tag may not stand here",
            Cause::UnlistedKey => "the attribute isn't listed",
            Cause::UnlistedValue => "the value may not stand here",
        }
    }
}

impl fmt::Display for Cause {
    fn fmt<W: fmt::Write>(&self, f: &mut fmt::Formatter<W>) -> fmt::Result {
        f.write_str(self.words())
    }
}

/// An element that goes, or an attribute of one that stays.
#[derive(Clone, Copy, PartialEq, Eq, Debug)]
pub struct Removal<'t> {
    /// The number of the element in the tree.
    pub node: usize,
    /// The name of the attribute; without one the element itself goes.
    pub key: Option<&'t [u8]>,
    pub cause: Cause,
}
