//! Selectors as programs over a stack.
//!
//! A selector is a formula about links between tags: to the parent, to the sibling before, to the
//! last one before of the same name. A combinator, `:has`, `:first-child` and `:root` are one form,
//! so `a > b` is `b` where a link from here leads to `a`; `:is(a, b)` is that one or the other
//! holds. So no list stands in the type, and one pass along links serves all.
//!
//! It is held as a program over a stack, so that reading, dropping and searching are loops, however
//! deep a text nests; with at most 60 that wait, marks of a tag fit in the bits of a number.
ghost use Rattle.std.specs.Prelude.{◌≡◌};

use std::marker::Model;

/// What is asked of a value.
#[derive(Clone, Copy, PartialEq, Eq, Debug)]
pub enum Op {
    /// It is the other one.
    Equals,
    /// It has the other one as a word.
    Word,
    /// It is the other one, or begins with it and a dash.
    Dashed,
    Starts,
    Ends,
    /// The other one stands somewhere in it.
    Inside,
}

/// How the case of a value counts.
#[derive(Clone, Copy, PartialEq, Eq, Debug)]
pub enum Case {
    /// As the page has it: no flag says.
    Unsaid,
    /// In any case: the flag `i`.
    Folded,
    /// As it is written: the flag `s`.
    Exact,
}

/// The namespaces in which a key is looked for.
#[derive(Clone, Copy, PartialEq, Eq, Debug)]
pub enum Space {
    /// None: a key without a prefix, or behind `|`.
    Bare,
    /// Any, or none: a key behind `*|`.
    Every,
}

/// A link from a tag to one before it.
#[derive(Clone, Copy, PartialEq, Eq, Debug)]
pub enum Link {
    /// To its parent.
    Parent,
    /// To the sibling tag before it.
    Sibling,
    /// To the last sibling tag of its name before it.
    Twin,
}

/// How many links lead to another tag.
#[derive(Clone, Copy, PartialEq, Eq, Debug)]
pub enum Reach {
    Once,
    /// One or more.
    Often,
}

/// Where another tag stands.
#[derive(Clone, Copy, PartialEq, Eq, Debug)]
pub enum Way {
    /// Where links lead that begin here.
    From,
    /// Where links begin that lead here.
    To,
}

/// A tag that others are sought from.
#[derive(Clone, Copy, PartialEq, Eq, Debug)]
pub enum Anchor {
    /// The root of the document.
    Root,
    /// What a search is made from.
    Scope,
}

/// The numbers `a k + b`, for `k` from 0 on.
#[derive(Clone, Copy, PartialEq, Eq, Debug)]
pub struct Formula {
    pub a: i64,
    pub b: i64,
}

/// A name or a key.
#[derive(PartialEq, Eq, Debug, Drop)]
pub struct Ident {
    /// It in lower case.
    pub lower: Vec<u8>,
    /// It as it is written.
    pub written: Vec<u8>,
}

/// A test of a tag by itself.
#[derive(PartialEq, Eq, Debug, Drop)]
pub enum Test {
    Any,
    Name(Ident),
    Id(Vec<u8>),
    Class(Vec<u8>),
    Key(Space, Ident),
    /// The value at a key passes an op with another one, where case counts so.
    Value(Space, Ident, Op, Vec<u8>, Case),
    /// It has no child but comments.
    Empty,
    /// It may be this anchor. Where none is given, each tag may be.
    May(Anchor),
}

/// A step over a stack of selectors.
#[derive(PartialEq, Eq, Debug, Drop)]
pub enum Step {
    /// Puts a test on the stack.
    Ask(Test),
    /// The last one, and the test.
    Keep(Test),
    /// Not the last one.
    Turn,
    /// The last two, both.
    Meet,
    /// The last two, either.
    Unite,
    /// The last one, at another tag.
    Shift(Way, Link, Reach),
    /// The last one, where the count of those tags along the link, from this end, is of the
    /// formula.
    Count(Way, Link, Formula),
}

/// A selector of CSS, seen as the formula that its steps leave.
#[derive(Debug, Drop)]
pub struct Selector {
    steps: Vec<Step>,
}

impl Model for Selector {
    ghost use Rattle.std.specs.Coded.{code_by, codes};
    ghost use Rattle.std.specs.Prelude.{List};
    ghost use Rattle.tl_css.specs.Marks.{Mark, given_back, marks_of, selector_of_marks};
    ghost use Rattle.tl_css.specs.Program.{selector_of};
    ghost use Rattle.tl_css.specs.Selector.{Css};

    ghost Value = { Css };

    ghost coded = { code_by (List Mark) (Prim.hlevel codes) marks_of selector_of_marks given_back };

    ghost view = { λ e. selector_of e.steps.items };
}

impl Selector {
    ghost use Rattle.tl_css.specs.Program.{selector_of};

    pub(crate) fn new(steps: Vec<Step>) -> Selector
        ensures { result ≡ selector_of steps.items }
    {
        Selector { steps }
    }

    /// Its steps, in order.
    pub fn steps(&self) -> &[Step]
        ensures { self.now ≡ selector_of result.now }
    {
        self.steps.as_slice()
    }
}
