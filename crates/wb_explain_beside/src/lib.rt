//! Where does an extension have something after a part of the host after which the host never has it?
//!
//! Contents are read and their names numbered as `wb_certify_files` does. What is shown are the extension's own productions, and what the
//! host has after a nonterminal is counted without extensions.
#![tactic(auto)]

mod beside;
mod checked;
mod declared;
mod hints;
mod names;
mod search;
mod sets;
mod shown;
mod told;

pub use beside::push_beside;
