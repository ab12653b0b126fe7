//! The tokens of the project's texts, the reader of one token, and how values are printed as tokens.
//!
//! Which bytes spell which token is in `specs/Spelling.antt`, and what comes next in a text in `specs/NextToken.antt`. Specifications
//! and terms are read by `next_token`; what follows what in them is no matter of this crate.
#![tactic(auto)]

mod integer;
mod kind;
mod name;
mod next;
mod print;
mod punctuation;
mod regex;
mod skipping;
mod string;
mod token;
mod token_class;
mod word;

pub use kind::TokenKind;
pub use next::next_token;
pub use print::{print_int, print_text};
pub use punctuation::Punctuation;
pub use token::{Dialect, Token};
pub use word::Word;
