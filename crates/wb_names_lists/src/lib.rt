//! What do a base and the items of a file declare, and what do the items use?
//!
//! All in flat lists, so that each rule is one walk over a list. The lists are defined in `wb_names_theory`; the rules are tested in
//! `wb_names_rules`.
#![tactic(auto)]

mod base;
mod copies;
mod items;
mod place;
mod uses;

pub use base::add_base_declarations;
pub use items::add_item_declarations;
pub use place::add_misplaced;
pub use uses::add_uses;
