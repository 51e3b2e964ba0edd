//! Which elements fit where: kinds of elements, and what open ones leave room for; and lists of
//! words to look up.
#![tactic(auto)]

mod kinds;
mod levels;
mod words;

pub use kinds::{Kind, is_preformatted, is_void_kind, kind_of};
pub use levels::{
    Level, Parts, Path, Rooms, has_room_here, has_room_outside, level_inside, missing_parts,
    outermost_level,
};
pub use words::WordIndex;
