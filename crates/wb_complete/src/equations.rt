//! Does an equation for a forwarded tree reach more of the top than the flow type of the forward has?

ghost use Rattle.std.specs.Prelude.{◌≡◌, ◌<◌, ◌↔◌, ℕ, Some, IfOk, IfErr, IfSome, IfNone, Contains, length, slice_get, false};
ghost use Rattle.wb_flow.specs.declared.vertex.Vertex.{Vertex};
ghost use Rattle.wb_flow.specs.declared.vertex.Vertex.TheVariants as v;
ghost use Rattle.wb_flow.specs.Rules.{IsDefined};
ghost use Rattle.wb_flow.specs.Tops.{KnowsTops};
ghost use Rattle.wb_complete.specs.Inner.ForwardTests.{is_forward, IsReading, IsTested, KeepsForward, KeepsFrom, RefusesProduction};

use std::alloc::Global;
use wb_flow::{AttributeRefusal, FlowGraph, Scope, TopReach, Vertex, VertexSet, defined_vertices};
use wb_syntax_resolved::{Production, Target};
use wb_termset::TermSet;

// A production with its number and its flow graph.
#[derive(Clone, Copy)]
pub(crate) struct Tested<'a> {
    pub(crate) scope: &'a Scope<'a>,
    pub(crate) number: usize,
    pub(crate) production: &'a Production,
    pub(crate) graph: &'a FlowGraph,
}

// Whether a production has an equation for the forwarded tree.
pub(crate) fn gives_forward(production: &Production) -> bool
    ensures { result ≡ false → (attribute : ℕ) → ¬ IsDefined production.now (v.Forward attribute) }
{
    'equations: for equation in production.equations.as_slice() {
        if is_forward(equation.target) {
            return true;
        }
    }
    false
}

// Whether an equation of this target is for the forwarded tree.
fn is_forward(target: Target) -> bool
    ensures { result ≡ is_forward target }
{
    match target {
        Target::Top(_) => false,
        Target::Place { .. } => false,
        Target::Forward(_) => true,
    }
}

// Whether what each equation for the forwarded tree reaches is allowed.
pub(crate) fn check_vertices(alloc: Global, tested: &Tested) -> Result<(), AttributeRefusal>
    requires { IsTested tested.now }
    ensures ok { IfOk result (λ done. KeepsForward tested.now.scope.now.attributes.now tested.now.production.now) }
    ensures refused { IfErr result (RefusesProduction tested.now.scope.now.attributes.now tested.now.number tested.now.production.now) }
{
    let reach = TopReach::new(alloc, tested.scope, tested.graph)?;
    let answer = check_reach(alloc, tested, &reach);
    drop(reach);
    answer
}

// Like `check_vertices`, where it is known which inherited attributes of the top are reached.
fn check_reach(alloc: Global, tested: &Tested, reach: &TopReach) -> Result<(), AttributeRefusal>
    requires tested { IsTested tested.now }
    requires reach { KnowsTops tested.now.scope.now.attributes.now tested.now.graph.now reach.now }
    ensures ok { IfOk result (λ done. KeepsForward tested.now.scope.now.attributes.now tested.now.production.now) }
    ensures refused { IfErr result (RefusesProduction tested.now.scope.now.attributes.now tested.now.number tested.now.production.now) }
{
    let listed = tested.scope.forward_needs(tested.production.left);
    let allowed = reach.selection(alloc, listed)?;
    let answer = check_allowed(
        alloc,
        &Reading {
            tested,
            reach,
            allowed: &allowed,
        },
    );
    drop(allowed);
    answer
}

// A tested production, what its vertices reach of the top, and of that what the flow type of the forward has.
#[derive(Clone, Copy)]
pub(crate) struct Reading<'a> {
    tested: &'a Tested<'a>,
    reach: &'a TopReach,
    allowed: &'a TermSet,
}

// Like `check_vertices`, where it is known what is allowed for all.
fn check_allowed(alloc: Global, reading: &Reading) -> Result<(), AttributeRefusal>
    requires { IsReading reading.now }
    ensures ok { IfOk result (λ done. KeepsForward reading.now.tested.now.scope.now.attributes.now reading.now.tested.now.production.now) }
    ensures refused { IfErr result (RefusesProduction reading.now.tested.now.scope.now.attributes.now reading.now.tested.now.number reading.now.tested.now.production.now) }
{
    let tested = reading.tested;
    let defined = defined_vertices(alloc, tested.production)?;
    let answer = check_defined(alloc, reading, &defined);
    drop(defined);
    answer
}

// Like `check_vertices`, where it is known for what there are equations.
fn check_defined(
    alloc: Global,
    reading: &Reading,
    defined: &VertexSet,
) -> Result<(), AttributeRefusal>
    requires reading { IsReading reading.now }
    requires defined { (v : Vertex) → Contains defined.now v ↔ IsDefined reading.now.tested.now.production.now v }
    ensures ok { IfOk result (λ done. KeepsForward reading.now.tested.now.scope.now.attributes.now reading.now.tested.now.production.now) }
    ensures refused { IfErr result (RefusesProduction reading.now.tested.now.scope.now.attributes.now reading.now.tested.now.number reading.now.tested.now.production.now) }
{
    'vertices: for start in 0..reading.tested.graph.vertices.len() {
        check_from(alloc, reading, defined, start)?;
    }
    Ok(())
}

// Which attribute of the forwarded tree a vertex is, where an equation is for it.
fn given(defined: &VertexSet, vertex: Vertex) -> Option<usize>
    ensures some { IfSome result (λ attribute. (vertex ≡ v.Forward attribute) × Contains defined.now (v.Forward attribute)) }
    ensures none { IfNone result ((attribute : ℕ) → vertex ≡ v.Forward attribute → ¬ Contains defined.now (v.Forward attribute)) }
{
    let Vertex::Forward(attribute) = vertex else {
        return None;
    };
    if defined.contains(Vertex::Forward(attribute)) {
        Some(attribute)
    } else {
        None
    }
}

// Whether what a vertex reaches is allowed, where an equation gives it to the forwarded tree.
fn check_from(
    alloc: Global,
    reading: &Reading,
    defined: &VertexSet,
    start: usize,
) -> Result<(), AttributeRefusal>
    requires reading { IsReading reading.now }
    requires defined { (v : Vertex) → Contains defined.now v ↔ IsDefined reading.now.tested.now.production.now v }
    requires start { start < length reading.now.tested.now.graph.now.vertices }
    ensures ok { IfOk result (λ done. (vertex : Vertex) → slice_get reading.now.tested.now.graph.now.vertices start ≡ Some vertex → KeepsFrom reading.now.tested.now.scope.now.attributes.now reading.now.tested.now.production.now vertex) }
    ensures refused { IfErr result (RefusesProduction reading.now.tested.now.scope.now.attributes.now reading.now.tested.now.number reading.now.tested.now.production.now) }
{
    let vertex = reading.tested.graph.vertices.as_slice()[start];
    let Some(attribute) = given(defined, vertex) else {
        return Ok(());
    };
    let mut allowed = reading.allowed.copy()?;
    reading.reach.select(&mut allowed, attribute);
    let found = reading.reach.first_outside(start, &allowed);
    drop(allowed);
    let Some(inherited) = found else {
        return Ok(());
    };
    Err(AttributeRefusal::ForwardReads {
        production: reading.tested.number,
        attribute,
        inherited,
    })
}
