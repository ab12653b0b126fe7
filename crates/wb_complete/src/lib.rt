//! Whether attributes are complete: each that is needed in a production is defined there, a start inherits nothing, extensions forward, and
//! what they give to a forwarded tree keeps to the flow type of the forward.
//!
//! Each production is tested by itself. The rules are defined in `wb_flow_theory`; whether attributes keep to their flow types and nothing
//! needs itself is tested in `wb_flow`.
#![tactic(auto)]

mod below;
mod check;
mod equations;
mod forward;
mod laws;
mod top;

pub use check::check_complete;
pub use forward::check_forward;
pub use laws::{one_answer_law, one_forward_answer_law};
