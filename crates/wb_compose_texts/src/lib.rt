//! Texts in the language of a certified host with certified extensions: the tree of a text, the values at its root, whether it means what it
//! means to the host alone, what becomes of it by a list of edits, and the text that a number makes.
//!
//! The language and its attributes are made in `wb_compose`, whose calls are passed on; here their numbers get the names that reports show,
//! the host's and then each extension's. Values of attributes of a tree are in `wb_eval_root`. A text that is edited is kept in a session of
//! `wb_session`, which reads it on from the first token that an edit touches.
#![tactic(auto)]

pub mod edit_laws;
mod edits;
mod edits_answer;
mod expression_rows;
mod expressions;
mod generated;
pub mod generated_laws;
mod halt;
mod layout_expressions;
mod line;
mod lines;
mod markers;
mod names;
mod question;
mod reading;
pub mod reading_laws;
mod root;
mod signatures;
mod text_answer;
mod text_reading;
mod text_values;
pub mod tree_laws;
mod trees;
mod value;
pub mod value_laws;
mod withdrawn;
mod written;

pub use edits::united_edits_answer;
pub use edits_answer::EditsAnswer;
pub use expressions::united_expressions;
pub use generated::generated_text;
pub use names::united_terminals;
pub use question::Question;
pub use reading::union_reading;
pub use root::root_attribute;
pub use signatures::united_signatures;
pub use text_answer::TextAnswer;
pub use text_reading::TextReading;
pub use text_values::text_value;
pub use trees::{united_name, united_parsed_answer, united_stop, united_text_answer};
pub use value::TextValue;
pub use wb_compose::{Composed, compose, composed_attributes};
pub use wb_eval_root::{RootAnswer, TreeValue, root_value};
pub use wb_generate::Generated;
pub use withdrawn::withdrawn_names;
