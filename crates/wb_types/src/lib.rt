//! The kinds of expressions: whether each expression of a resolved specification is of the kind that its place asks for.
//!
//! Kinds are checked by the signatures of productions and operations alone, before anything is evaluated. What expressions mean lies
//! elsewhere.
#![tactic(auto)]

mod check;
mod context;
mod kinds;
mod laws;
mod refusal;

pub use check::check_types;
pub use laws::one_answer_law;
pub use refusal::TypeRefusal;
