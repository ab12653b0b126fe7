//! The canonical text of a specification.
//!
//! Which text that is is in `wb_syntax/specs/Canonical.antt`: lines of tokens that are the specification in the grammar, but for
//! places, with the spaces between them. Its bytes are read as those tokens, and so as the same specification but for places. Nothing
//! recurses, and the work is linear in the text.
#![tactic(auto)]

mod expressions;
mod items;
mod line;
mod parts;
mod spec;

pub use spec::print_spec;
