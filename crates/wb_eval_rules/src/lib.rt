//! The rules of productions, found by what they define in constant time, as code.
//!
//! An index is made once for all trees that are evaluated by the productions.
#![tactic(auto)]

mod code;
mod codes;
mod equations;
mod index;

pub use code::{After, Op, Task};
pub use codes::{Code, Codes};
pub use equations::{Equations, Rules, equation_for, forward_code, local_code};
pub use index::RuleIndex;
