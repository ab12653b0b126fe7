//! The flow graphs of an attribute grammar's productions: whether attributes need no more than their flow types say, and nothing needs
//! itself.
//!
//! Each production is tested by itself, by the flow types of the attributes around it, so an extension is tested with its host alone. The
//! rules are defined in `wb_flow_theory`. Whether each attribute has an equation is tested elsewhere.
#![tactic(auto)]

mod arrows;
mod check;
mod closing;
mod cycles;
mod graph;
mod laws;
mod occurrences;
mod positions;
mod reach;
mod reads;
mod refusal;
mod rules;
mod tested;
mod vertex;
mod vertex_set;
mod vertices;

pub use check::check_flow;
pub use graph::{graph_of, production_graph};
pub use laws::one_answer_law;
pub use occurrences::{OccurrenceIndex, Scope};
pub use reach::TopReach;
pub use refusal::AttributeRefusal;
pub use rules::defined_vertices;
pub use vertex::{FlowGraph, Vertex};
pub use vertex_set::VertexSet;
