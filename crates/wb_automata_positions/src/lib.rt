//! The position automaton of several regular expressions: which leaves may come next, which expressions may end, and which bytes no leaf
//! tells apart.
//!
//! It is Glushkov's: the leaf that was read last is the state. What is made of it lies above, in `wb_automata`.
#![tactic(auto)]

mod classes;
mod closure;
mod concatenated;
mod places;
mod rows;
mod shortcuts;
mod tables;
mod terminals;
mod transition;

pub use classes::{Classes, classes_of};
pub use closure::Following;
pub use places::{Place, Places, places_of};
pub use rows::{Leaves, Rows};
pub use tables::{Tables, tables_of};
pub use transition::{holds, reading};
