//! What could come in a term at a place at which it can't be read?
//!
//! Each token is tried there: it can come exactly where the file up to that place, with the token after it, isn't refused at the token.
//! So what is listed rests on the reader of terms alone, and no table is looked at.
#![tactic(auto)]

mod candidate;
mod coming;
mod expected;

pub use coming::can_come;
pub use expected::push_term;
