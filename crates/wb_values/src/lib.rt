//! What are values, the trees that they are part of, and the signatures of productions?
//!
//! An id stands for one finite tree as long as its store holds it. Reading and printing are in `wb_terms`, operations in `wb_operations`.
#![tactic(auto)]

mod cell;
mod layout;
mod node;
mod packed;
mod signatures;
mod store;
mod value;
mod walk;

pub use packed::PackedValues;
pub use signatures::Signatures;
pub use store::TreeStore;
pub use value::{TreeId, Value};
