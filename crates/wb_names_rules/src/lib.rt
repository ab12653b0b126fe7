//! Which name rule fails first, and what does each name mean where none does?
//!
//! One table of hashes answers what is declared, and each rule goes once over a list. The rules are defined in `wb_names_theory`, the lists
//! made in `wb_names_lists`.
#![tactic(auto)]

mod check;
mod closed;
mod index;
mod keys;
mod kinds;
mod laws;
mod orphans;
mod reads;
mod sites;
mod table;
mod unknown;

pub use check::check_names;
pub use index::NameIndex;
pub use laws::twice_law;
