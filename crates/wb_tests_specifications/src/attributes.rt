//! Are attributes complete, do they keep to their flow types, and does none need itself?
//!
//! The host has one nonterminal, one attribute on it, and one production with one equation. Expected answers follow from the rules.

use crate::written::{Asked, Row, Tested, hosts_get};
use std::alloc::{AllocError, Global};
use wb_complete::check_complete;
use wb_flow::{AttributeRefusal, FlowGraph, Vertex, check_flow, production_graph};
use wb_syntax_resolved::{Attribution, Resolved};

static ATTRIBUTES: Asked = Asked {
    tested: Tested::Attributes,
    first_line: "format 1; host h; ",
};

// Appends whether both tests pass and the graph is right.
pub(crate) fn append_attributes(
    alloc: Global,
    host: &Resolved,
    out: &mut Vec<u8>,
) -> Result<(), AllocError> {
    let attributes = &host.parts().attributes;
    if are_well_defined(alloc, attributes) && has_one_vertex(alloc, attributes) {
        out.extend_from_slice(b"ok")
    } else {
        Ok(())
    }
}

// Whether both tests pass.
fn are_well_defined(alloc: Global, attributes: &Attribution) -> bool {
    passes(check_complete(alloc, attributes, Some(0), None))
        && passes(check_flow(alloc, attributes))
}

fn passes(tested: Result<(), AttributeRefusal>) -> bool {
    match tested {
        Ok(()) => true,
        Err(refusal) => {
            refusal.release();
            false
        }
    }
}

// Whether the graph of the production has the one attribute of its top, and no edge.
fn has_one_vertex(alloc: Global, attributes: &Attribution) -> bool {
    if attributes.parts().productions.is_empty() {
        return false;
    }
    match production_graph(alloc, attributes, 0) {
        Ok(graph) => is_one_vertex(&graph),
        Err(_) => false,
    }
}

fn is_one_vertex(graph: &FlowGraph) -> bool {
    let vertices = graph.vertices.as_slice();
    vertices.len() == 1 && vertices[0] == Vertex::Top(0) && graph.edges.is_empty()
}

// The attribute `v` of `N`, a number, and the production `p` with the equation `top.v = 1`.
static ONE_EQUATION: [Row; 1] = [(
    "nonterminal N; syn v : int; occurs v on N; abstract p : N ::= { top.v = 1; }",
    "ok",
)];

#[test]
fn one_equation_is_well_defined(rt: HostRuntime) {
    assert!(rt; hosts_get(rt.alloc(), &ATTRIBUTES, &ONE_EQUATION));
}
