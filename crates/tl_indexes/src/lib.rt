//! The indexes of the encoding standard by which its encodings of several bytes stand for
//! characters.
#![tactic(auto)]

mod big5;
mod euc_kr;
mod examples;
mod gb18030;
mod index;
mod jis0208;
mod jis0212;
mod ranges;

pub use index::{Index, code_point};
pub use ranges::ranges_code_point;
