//! Which encoding the bytes of a page are in, and the characters that they stand for.
#![tactic(auto)]

mod ascii;
mod attribute;
mod charset;
mod content;
mod declaration;
mod encoder;
mod encoding;
mod examples;
mod indexes;
mod iso_2022_jp;
mod labels;
pub mod laws;
mod marks;
mod multi_byte;
mod names;
mod pairs;
mod run;
mod signature;
mod single_byte;
mod text;
mod utf_16;
mod written;

pub use encoder::{EncodeError, encode, with_references};
pub use encoding::{
    ByteOrder, Encoding, encoding_by_bytes, encoding_marked, encoding_of, encoding_said,
};
pub use marks::{with_marks, without_marks};
pub use multi_byte::MultiByte;
pub use signature::{Media, media_of};
pub use single_byte::SingleByte;
pub use text::{DecodeError, decode, decode_strict};
