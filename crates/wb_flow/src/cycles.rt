//! Does something in a production need itself?
//!
//! Its flow graph has an order or a cycle.

ghost use Rattle.std.specs.Prelude.{◌≡◌, ◌<◌, None, Some, All, IfOk, OnOk, length, slice_get};
ghost use Rattle.std.specs.List.{AllZip};
ghost use Rattle.wb_flow.specs.Inner.Sources.{Notes, IsTested};

use crate::tested::Tested;
use crate::{AttributeRefusal, Vertex};
use std::alloc::{AllocError, Global};
use wb_base::{Sequence, push};
use wb_graph::{Order, order_of};

// Keeps a cycle of a production, where it has one and none is known.
pub(crate) fn note_cycle(
    alloc: Global,
    tested: &Tested,
    cycle: &mut Option<AttributeRefusal>,
) -> Result<(), AllocError>
    requires { IsTested tested.now }
    ensures { OnOk result (Notes tested.now.scope.now.attributes.now tested.now.number tested.now.production.now cycle.old cycle.new) }
{
    if cycle.is_some() {
        return Ok(());
    }
    *cycle = cycle_of(alloc, tested)?;
    Ok(())
}

// The refusal with a cycle of a production, where it has one.
fn cycle_of(alloc: Global, tested: &Tested) -> Result<Option<AttributeRefusal>, AllocError>
    requires { IsTested tested.now }
    ensures { IfOk result (Notes tested.now.scope.now.attributes.now tested.now.number tested.now.production.now None) }
{
    let graph = tested.graph;
    let order = order_of(alloc, graph.vertices.len(), graph.edges.as_slice())?;
    let Order::Cycle(places) = order else {
        return Ok(None);
    };
    let vertices = vertices_at(alloc, graph.vertices.as_slice(), &places)?;
    Ok(Some(AttributeRefusal::Cycle {
        production: tested.number,
        vertices: Sequence::from_vec(vertices),
    }))
}

// The vertices at these places.
fn vertices_at(
    alloc: Global,
    vertices: &[Vertex],
    places: &[usize],
) -> Result<Vec<Vertex>, AllocError>
    requires { All (λ place. place < length vertices.now) places.now }
    ensures { IfOk result (λ found. AllZip (λ place vertex. slice_get vertices.now place ≡ Some vertex) places.now found.items) }
{
    let mut found = Vec::new(alloc);
    'places: for &place in places {
        push(&mut found, vertices[place])?;
    }
    Ok(found)
}
