//! What the parts of a selector text are for.
ghost use Rattle.std.specs.Prelude.{◌≡◌};
ghost use Rattle.tl_css.specs.Item.{is_relative, is_top};
ghost use Rattle.tl_css.specs.Reading.{link_of, reach_of};

use crate::selector::{Anchor, Formula, Link, Reach, Way};

/// What a list of selectors is for.
#[derive(Clone, Copy, PartialEq, Eq, Debug)]
pub enum Role {
    /// It is the whole text.
    Top,
    Is,
    Not,
    Has,
    /// After the formula of `:nth-child` or `:nth-last-child`.
    NthOf(Way, Formula),
}

impl Role {
    // Whether its selectors may begin with a combinator, and are seen from the tag that is asked.
    pub fn is_relative(self) -> bool
        ensures { result ≡ is_relative self }
    {
        matches!(self, Role::Has)
    }

    pub fn is_top(self) -> bool
        ensures { result ≡ is_top self }
    {
        matches!(self, Role::Top)
    }
}

/// What a pseudo-class asks.
#[derive(Clone, Copy, PartialEq, Eq, Debug)]
pub enum PseudoClass {
    /// The first or the last tag along a link.
    Edge(Way, Link),
    /// Both at once.
    Only(Link),
    /// The outermost tag that may be this anchor.
    Outermost(Anchor),
    Empty,
    List(Role),
    Nth(Way, Link),
}

/// What stands between two compound selectors.
#[derive(Clone, Copy, PartialEq, Eq, Debug)]
pub enum Combinator {
    Descendant,
    Child,
    NextSibling,
    SubsequentSibling,
}

impl Combinator {
    pub fn link(self) -> Link
        ensures { result ≡ link_of self }
    {
        match self {
            Combinator::Descendant | Combinator::Child => Link::Parent,
            Combinator::NextSibling | Combinator::SubsequentSibling => Link::Sibling,
        }
    }

    pub fn reach(self) -> Reach
        ensures { result ≡ reach_of self }
    {
        match self {
            Combinator::Descendant | Combinator::SubsequentSibling => Reach::Often,
            Combinator::Child | Combinator::NextSibling => Reach::Once,
        }
    }
}

/// What stands before a simple selector.
#[derive(Clone, Copy, PartialEq, Eq, Debug)]
pub enum Before {
    /// The simple selector before it.
    Touching,
    After(Combinator),
    /// Nothing of its complex selector, but the combinator that a relative one may begin with.
    Begin(Combinator),
}
