//! Pages as browsers read them: their tokens, by the HTML standard's tokenizer.
//!
//! `tag`, `reference`, `comment`, `raw` and `first` have a function for each state, by the number
//! of its section; a *stage* is a state of the standard without what it collects. `specs/Machine`
//! says what these functions do, in the words of the standard; `proofs/Steps` shows that this is
//! what the states of `HtmlTokenizer` do, one by one, `proofs/Turns` and `Reading` that a piece so
//! ends where the definition cuts the page, `proofs/Joining` that the list is the definition's.
#![tactic(auto)]

mod attributes;
mod byte_class;
mod comment;
mod first;
mod front;
pub mod laws;
mod mode;
mod page;
mod quiet;
mod raw;
mod reference;
mod run;
mod section;
mod stage;
mod tag;
mod token;
mod turn;

pub use front::{Front, next_token};
pub use mode::Mode;
pub use page::{mark_len, tokens};
pub use section::{Section, next_section};
pub use stage::TokenKind;
pub use token::Token;
