//! The abstract syntax of specifications: items, productions, equations and expressions, by their names.
//!
//! A specification is a value that some text has as its reading; which text has which is said in `specs/`. Reading is in `wb_reader`
//! and printing in `wb_reader_printer`. What the names stand for is no matter of this crate.
#![tactic(auto)]

mod expression;
mod header;
mod item;
mod pattern;
mod production;
mod spec;
mod written;

pub use expression::{Equation, Node, Target};
pub use header::Header;
pub use item::{Item, ItemForm, PlainForm};
pub use pattern::{Pattern, Role, WrittenPattern};
pub use production::{Child, NamedKind, Production, ProductionRole};
pub use spec::Spec;
pub use written::WrittenSpec;
