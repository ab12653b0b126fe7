//! What a program that isn't written in Rattle holds of values that Rattle owns: handles, which are checked, and one pointer.
//!
//! A table keeps values by handles; one whose value was let go names nothing for ever. A loose box is the pointer of the table itself.
#![tactic(auto)]

mod handle;
mod loose;
mod refusal;
mod slot;
mod table;

pub use handle::Handle;
pub use loose::Loose;
pub use refusal::AddRefusal;
pub use slot::Slot;
pub use table::Handles;
