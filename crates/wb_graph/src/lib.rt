//! A topological order or a cycle of a directed graph, its strongly connected components, and what walks reach.
//!
//! Vertices are numbers below a count, and an edge is the pair of the vertex that it leaves and the one that it leads to.
//! An edge may be listed several times, and may lead back to its own vertex. Each call takes time linear in vertices and edges
//! and no stack for its input; no clause bounds the time.
#![tactic(auto)]

mod edge_lists;
mod groups;
mod order;
mod search;
mod strongly_connected;
mod worklist;

pub use order::{Order, order_of};
pub use strongly_connected::{Components, strong_components};
pub use worklist::reachable_from;
