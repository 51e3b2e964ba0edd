//! Edits of a page in its own bytes: bytes put in the place of bytes, start tags with a key set or
//! unset or with another name, and pages with changes of their tags. Each other byte stays as it
//! is.
#![tactic(auto)]

mod cut;
mod error;
mod key;
mod key_change;
pub mod laws;
mod markup;
mod name;
mod page;
mod parts;
mod places;
mod rename;
mod rewrite;
mod splice;
mod stage;
mod step;
mod tag;
mod tag_patch;

pub use error::PatchError;
pub use key_change::{with_value, without_key};
pub use markup::{is_key, is_name, is_value, write_attribute, write_text, write_value};
pub use name::start_name_end;
pub use page::patch;
pub use rename::with_name;
pub use splice::{Splice, with_splices};
pub use tag::{with_attribute, with_end_name, with_start_name};
pub use tag_patch::{Change, TagPatch};
