//! Does a production keep to its flow types, and does something in it need itself?
//!
//! Its flow graph is made once for both. Where the components of the graph are known, an edge within one tells of a cycle.

ghost use Rattle.std.specs.Prelude.{◌≡◌, true, All, IfOk, IfErr, length};
ghost use Rattle.wb_flow.specs.Inner.Sources.{KeepsAll, LeaveComponents, Notes, RefusesReads, IsTested};
ghost use Rattle.wb_flow.specs.Tops.{KnowsTops};
ghost use Rattle.wb_graph.specs.Graphs.{IsEdgeBelow};

use crate::cycles::note_cycle;
use crate::reads::{check_reads, inherits};
use crate::{AttributeRefusal, FlowGraph, Scope, TopReach};
use std::alloc::Global;
use wb_graph::Components;
use wb_syntax_resolved::Production;

// A production with its number and its flow graph.
#[derive(Clone, Copy)]
pub(crate) struct Tested<'a> {
    pub(crate) scope: &'a Scope<'a>,
    pub(crate) number: usize,
    pub(crate) production: &'a Production,
    pub(crate) graph: &'a FlowGraph,
}

// Whether all that has a flow type keeps to it; a cycle is kept, where none is known.
pub(crate) fn check_graph(
    alloc: Global,
    tested: &Tested,
    cycle: &mut Option<AttributeRefusal>,
) -> Result<(), AttributeRefusal>
    requires { IsTested tested.now }
    ensures ok { IfOk result (λ done. KeepsAll tested.now.scope.now.attributes.now tested.now.production.now × Notes tested.now.scope.now.attributes.now tested.now.number tested.now.production.now cycle.old cycle.new) }
    ensures refused { IfErr result (RefusesReads tested.now.scope.now.attributes.now tested.now.number tested.now.production.now) }
{
    if !inherits(tested.scope, tested.production.left) {
        return Ok(note_cycle(alloc, tested, cycle)?);
    }
    let reach = TopReach::new(alloc, tested.scope, tested.graph)?;
    let answer = check_reached(alloc, tested, &reach, cycle);
    drop(reach);
    answer
}

// The same, where it is known which inherited attributes of the top are reached.
fn check_reached(
    alloc: Global,
    tested: &Tested,
    reach: &TopReach,
    cycle: &mut Option<AttributeRefusal>,
) -> Result<(), AttributeRefusal>
    requires tested { IsTested tested.now }
    requires reach { KnowsTops tested.now.scope.now.attributes.now tested.now.graph.now reach.now }
    ensures ok { IfOk result (λ done. KeepsAll tested.now.scope.now.attributes.now tested.now.production.now × Notes tested.now.scope.now.attributes.now tested.now.number tested.now.production.now cycle.old cycle.new) }
    ensures refused { IfErr result (RefusesReads tested.now.scope.now.attributes.now tested.now.number tested.now.production.now) }
{
    check_reads(alloc, tested, reach)?;
    if leave_components(tested.graph, &reach.components) {
        return Ok(());
    }
    Ok(note_cycle(alloc, tested, cycle)?)
}

// Whether each edge leads to another component than its own.
fn leave_components(graph: &FlowGraph, components: &Components) -> bool
    requires len { length components.now.numbers ≡ length graph.now.vertices }
    requires within { All (IsEdgeBelow (length graph.now.vertices)) graph.now.edges }
    ensures { result ≡ true → LeaveComponents graph.now.edges components.now.numbers }
{
    'edges: for edge in graph.edges.as_slice() {
        if components.of(edge.0) == components.of(edge.1) {
            return false;
        }
    }
    true
}
