//! An LR parser: the one tree or the one stop of a text, by the tables of a language.
//!
//! A text has exactly one of the two. The scanner is asked once for each leaf, at the state right after the shift before it; reductions
//! come after that and change neither place nor kind of a stop. What a tree and a stop are lies in `wb_scan_theory`.
#![tactic(auto)]

mod chains;
mod leaf;
mod parsed;
mod parser;
mod reduce;
mod stack;
mod step;

pub use parsed::Parsed;
pub use parser::parse;
pub use wb_scan_theory::StopKind;
