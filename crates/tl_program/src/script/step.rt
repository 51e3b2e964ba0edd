//! Steps, each of which is an edit of a document, and why one is refused.
ghost use Rattle.std.specs.Prelude.{◌≡◌};
ghost use Rattle.tl_program.specs.declared.script.step.StepError.TheVariants.{OutOfMemory as StepMemory};

use std::alloc::AllocError;

/// One edit of a document. A number is that of a node, or the place of a child or of a top node,
/// counted from 0.
#[derive(Clone, Copy, PartialEq, Eq, Debug)]
pub enum Step<'s> {
    /// Sets the name of a tag, whatever the bytes are.
    Name(u32, &'s [u8]),
    /// Puts a text in the place of a node of any kind.
    Text(u32, &'s [u8]),
    /// Puts a comment in the place of a node of any kind. The bytes are the whole comment, from its
    /// `<` to its `>`.
    Comment(u32, &'s [u8]),
    /// Puts a value at a key of a tag.
    Set(u32, &'s [u8], &'s [u8]),
    /// Makes a key of a tag stand without a value.
    Flag(u32, &'s [u8]),
    /// Takes a key out of a tag, where it is there.
    Unset(u32, &'s [u8]),
    /// Takes the value at a key of a tag out, where there is one.
    Bare(u32, &'s [u8]),
    /// Makes a handle, which is not looked up, the last child of a tag.
    Push(u32, u32),
    /// Takes the child at a place out of a tag.
    Pull(u32, usize),
    /// Puts a handle, which is not looked up, at a place of the top list.
    Root(usize, u32),
}

/// Why a step is refused.
#[derive(Clone, Copy, PartialEq, Eq, PartialOrd, Ord, Debug)]
pub enum StepError {
    /// The table has no node of the number.
    NoNode,
    /// The node is no tag.
    NotTag,
    /// The list has no such place.
    NoPlace,
    /// Memory ran out.
    OutOfMemory,
}

impl From<AllocError> for StepError {
    ghost from_gives = { λ _ e. e ≡ StepMemory };

    fn from(_: AllocError) -> Self {
        StepError::OutOfMemory
    }
}
