//! Why a text is no selector.
//!
//! A cause that held the word which stands at the place would borrow the text or take memory, so
//! the message quotes it.
ghost use Rattle.std.specs.Prelude.{◌≡◌};

use std::alloc::AllocError;
use std::fmt;
use thiserror::Error;

/// What is wrong with a text, from a place on.
#[derive(Clone, Copy, PartialEq, Eq, Debug)]
pub enum Cause {
    /// A bracket, a string or a comment that begins here isn't closed.
    Unclosed,
    /// A selector has to stand here.
    NoSelector,
    /// A name has to stand here.
    NoName,
    /// `=` or one of `~= |= ^= $= *=` has to stand here, or a `]`.
    NoOperator,
    /// A name or a string has to stand here.
    NoValue,
    /// This flag is neither `i` nor `s`.
    NoFlag,
    /// What stands here is no formula `an+b`, or doesn't end one.
    NoFormula,
    /// This number is above 2147483647.
    LargeNumber,
    /// No pseudo-class has this name.
    NoPseudoClass,
    /// Pseudo-elements are no tags.
    PseudoElement,
    /// No prefix of a namespace is known.
    Namespace,
    /// The pseudo-class needs an argument in brackets.
    NeedsArgument,
    /// The pseudo-class takes no argument.
    TakesNone,
    /// So many selectors wait here for those inside them that this one is too much.
    TooDeep,
    /// This byte can't stand here.
    Unexpected,
}

/// Why there is no selector.
#[derive(Clone, Copy, PartialEq, Eq, Debug, Drop, Error)]
pub enum SelectorError {
    /// The text is none: the first byte that is wrong, and why.
    #[error("at byte {at}: {cause}")]
    Text { at: usize, cause: Cause },
    #[error("out of memory")]
    OutOfMemory,
}

// What is wrong, and how many bytes are left from there on.
#[derive(Clone, Copy)]
pub struct Wrong {
    pub left: usize,
    pub cause: Cause,
}

// Why nothing is read.
#[derive(Clone, Copy)]
pub enum Failure {
    Text(Wrong),
    OutOfMemory,
}

impl From<AllocError> for Failure {
    ghost use Rattle.tl_css.specs.declared.error.Failure.TheVariants as f;

    ghost from_gives = { λ _ failure. failure ≡ f.OutOfMemory };

    fn from(_: AllocError) -> Self {
        Failure::OutOfMemory
    }
}

impl fmt::Display for Cause {
    fn fmt<W: fmt::Write>(&self, f: &mut fmt::Formatter<W>) -> fmt::Result {
        f.write_str(match self {
            Cause::Unclosed => "opened here and never closed",
            Cause::NoSelector => "expected a selector",
            Cause::NoName => "expected a name",
            Cause::NoOperator => "expected `=`, `~=`, `|=`, `^=`, `$=`, `*=` or `]`",
            Cause::NoValue => "expected a value",
            Cause::NoFlag => "expected the flag `i` or `s`",
            Cause::NoFormula => "expected `an+b`, `odd` or `even`",
            Cause::LargeNumber => "number above 2147483647",
            Cause::NoPseudoClass => "unknown pseudo-class",
            Cause::PseudoElement => "pseudo-elements match no element",
            Cause::Namespace => "unknown namespace prefix",
            Cause::NeedsArgument => "expected an argument in parentheses",
            Cause::TakesNone => "this pseudo-class takes no argument",
            Cause::TooDeep => "selectors nested too deeply",
            Cause::Unexpected => "unexpected text",
        })
    }
}
