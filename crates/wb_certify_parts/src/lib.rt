//! The parts of a certified extension with its host: kernels, lookaheads and regions of the grammar with holes.
//!
//! An extension is certified by what it adds, so they aren't kept. They are made anew for those who ask.
#![tactic(auto)]

mod parts;

pub use parts::extension_parts;
