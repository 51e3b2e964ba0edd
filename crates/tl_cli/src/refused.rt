//! Why a page isn't changed.

use tl_answers::{CommentRefusal, Refusal};

/// Why it isn't, by what was to be done.
#[derive(Drop)]
pub enum Refused {
    Edit(Refusal),
    Comments(CommentRefusal),
    OutOfMemory,
}

impl From<Refusal> for Refused {
    fn from(why: Refusal) -> Self {
        match why {
            Refusal::OutOfMemory => Refused::OutOfMemory,
            _ => Refused::Edit(why),
        }
    }
}

impl From<CommentRefusal> for Refused {
    fn from(why: CommentRefusal) -> Self {
        match why {
            CommentRefusal::OutOfMemory => Refused::OutOfMemory,
            _ => Refused::Comments(why),
        }
    }
}
