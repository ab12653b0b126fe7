//! Which names has a specification, as what is each there, and where is each declared?
//!
//! The tokens around a name tell its role. Searches in the table of names say why one isn't declared where it is used, which others could be
//! meant, and which are there. Which of them is asked for which code is in `wb_explain_names`.
#![tactic(auto)]

pub mod declared;
pub mod lists;
pub mod mention;
pub mod near;
pub mod reasons;
pub mod role;
pub mod script;
pub mod side;
