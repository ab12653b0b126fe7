//! Which inherited attribute does a production lack that is needed one step down?
//!
//! Where an attribute of a child or local is read, its flow type says which are needed. What the forwarded tree lacks is the top's.

ghost use Rattle.std.specs.Prelude.{◌≡◌, ◌≢◌, ◌↔◌, ℕ, IfSome, IfNone, Contains};
ghost use Rattle.wb_flow_theory.specs.Rules.{IsTreeAt};
ghost use Rattle.wb_flow_theory.specs.WellDefined.{DefinesBelow};
ghost use Rattle.wb_complete.specs.Inner.Tests.{DefinesRead, DefinesReads, LacksNeeds, LacksRead, LacksReads};
ghost use Rattle.wb_complete.specs.Refusals.{LacksBelow};
ghost use Rattle.wb_base.specs.declared.symbol.Kind.TheVariants.{Tree};
ghost use Rattle.wb_flow.specs.Occurrences.{IsIndexOf};
ghost use Rattle.wb_flow.specs.declared.vertex.Vertex.{Vertex};
ghost use Rattle.wb_flow.specs.Rules.{attribute_at, IsDefined};
ghost use Rattle.wb_syntax_resolved.specs.Attribution.{IsAttribution};
ghost use Rattle.wb_syntax_resolved.specs.declared.equation.Equation.{Equation};
ghost use Rattle.wb_syntax_resolved.specs.declared.production.ChildKind.TheVariants.{Value};
ghost use Rattle.wb_syntax_resolved.specs.declared.production.Local.{Local};

use wb_base::Kind;
use wb_flow::{Scope, Vertex, VertexSet};
use wb_syntax_resolved::{ChildKind, Node, Place, Production};

// An inherited attribute of a child or local that the production needs and has no equation for. It is given for what it has equations.
pub(crate) fn lacking_below(
    scope: &Scope,
    production: &Production,
    defined: &VertexSet,
) -> Option<Vertex>
    requires attribution { IsAttribution scope.now.attributes.now }
    requires index { IsIndexOf scope.now.attributes.now.occurrences scope.now.index.now }
    requires defined { (v : Vertex) → Contains defined.now v ↔ IsDefined production.now v }
    ensures some { IfSome result (LacksBelow scope.now.attributes.now production.now) }
    ensures none { IfNone result (DefinesBelow scope.now.attributes.now production.now) }
{
    if let Some(vertex) = lacking_in_equations(scope, production, defined) {
        return Some(vertex);
    }
    if let Some(vertex) = lacking_in_locals(scope, production, defined) {
        return Some(vertex);
    }
    match &production.forward {
        Some(forward) => lacking_in(scope, production, defined, forward.nodes.as_slice()),
        None => None,
    }
}

// One that an equation needs.
fn lacking_in_equations(
    scope: &Scope,
    production: &Production,
    defined: &VertexSet,
) -> Option<Vertex>
    requires attribution { IsAttribution scope.now.attributes.now }
    requires index { IsIndexOf scope.now.attributes.now.occurrences scope.now.index.now }
    requires defined { (v : Vertex) → Contains defined.now v ↔ IsDefined production.now v }
    ensures some { IfSome result (LacksBelow scope.now.attributes.now production.now) }
    ensures none { IfNone result ((e : Equation) → Contains production.now.equations e → DefinesReads scope.now.attributes.now production.now e.nodes) }
{
    'equations: for equation in production.equations.as_slice() {
        if let Some(vertex) = lacking_in(scope, production, defined, equation.nodes.as_slice()) {
            return Some(vertex);
        }
    }
    None
}

// One that the expression of a local needs.
fn lacking_in_locals(scope: &Scope, production: &Production, defined: &VertexSet) -> Option<Vertex>
    requires attribution { IsAttribution scope.now.attributes.now }
    requires index { IsIndexOf scope.now.attributes.now.occurrences scope.now.index.now }
    requires defined { (v : Vertex) → Contains defined.now v ↔ IsDefined production.now v }
    ensures some { IfSome result (LacksBelow scope.now.attributes.now production.now) }
    ensures none { IfNone result ((l : Local) → Contains production.now.locals l → DefinesReads scope.now.attributes.now production.now l.nodes) }
{
    'locals: for local in production.locals.as_slice() {
        if let Some(vertex) = lacking_in(scope, production, defined, local.nodes.as_slice()) {
            return Some(vertex);
        }
    }
    None
}

// One that a node of an expression needs.
fn lacking_in(
    scope: &Scope,
    production: &Production,
    defined: &VertexSet,
    nodes: &[Node],
) -> Option<Vertex>
    requires attribution { IsAttribution scope.now.attributes.now }
    requires index { IsIndexOf scope.now.attributes.now.occurrences scope.now.index.now }
    requires defined { (v : Vertex) → Contains defined.now v ↔ IsDefined production.now v }
    ensures some { IfSome result (LacksReads scope.now.attributes.now production.now nodes.now) }
    ensures none { IfNone result (DefinesReads scope.now.attributes.now production.now nodes.now) }
{
    'nodes: for node in nodes {
        if let Some(vertex) = lacking_at(scope, production, defined, node) {
            return Some(vertex);
        }
    }
    None
}

// One that this node needs.
fn lacking_at(
    scope: &Scope,
    production: &Production,
    defined: &VertexSet,
    node: &Node,
) -> Option<Vertex>
    requires attribution { IsAttribution scope.now.attributes.now }
    requires index { IsIndexOf scope.now.attributes.now.occurrences scope.now.index.now }
    requires defined { (v : Vertex) → Contains defined.now v ↔ IsDefined production.now v }
    ensures some { IfSome result (LacksRead scope.now.attributes.now production.now node.now) }
    ensures none { IfNone result (DefinesRead scope.now.attributes.now production.now node.now) }
{
    let Node::Read { label, attribute } = node else {
        return None;
    };
    let Some(nonterminal) = nonterminal_at(production, *label) else {
        return None;
    };
    lacking_of(
        production,
        defined,
        *label,
        scope.needs(*attribute, nonterminal),
    )
}

// One of these of a child or local that has no equation.
fn lacking_of(
    production: &Production,
    defined: &VertexSet,
    at: Place,
    needs: &[usize],
) -> Option<Vertex>
    requires defined { (v : Vertex) → Contains defined.now v ↔ IsDefined production.now v }
    ensures some { IfSome result (LacksNeeds production.now at needs.now) }
    ensures none { IfNone result ((i : ℕ) → Contains needs.now i → IsDefined production.now (attribute_at at i)) }
{
    'needs: for &inherited in needs {
        let vertex = inherited_at(at, inherited);
        if !defined.contains(vertex) {
            return Some(vertex);
        }
    }
    None
}

// An attribute of a child or local.
fn inherited_at(at: Place, attribute: usize) -> Vertex
    ensures { result ≡ attribute_at at attribute }
{
    match at {
        Place::Child(child) => Vertex::Child(child, attribute),
        Place::Local(local) => Vertex::Local(local, attribute),
    }
}

// The nonterminal of the tree at a child or local, where there is one.
fn nonterminal_at(production: &Production, at: Place) -> Option<usize>
    ensures some { IfSome result (IsTreeAt production.now at) }
    ensures none { IfNone result ((m : ℕ) → ¬ IsTreeAt production.now at m) }
{
    match at {
        Place::Child(number) => {
            let children = production.children.as_slice();
            if number < children.len() {
                tree_kind(children[number].kind)
            } else {
                None
            }
        }
        Place::Local(number) => {
            let locals = production.locals.as_slice();
            if number < locals.len() {
                Some(locals[number].nonterminal)
            } else {
                None
            }
        }
    }
}

// The nonterminal of a child that is a tree.
fn tree_kind(kind: ChildKind) -> Option<usize>
    ensures some { IfSome result (λ m. kind ≡ Value (Tree m)) }
    ensures none { IfNone result ((m : ℕ) → kind ≢ Value (Tree m)) }
{
    let ChildKind::Value(value) = kind else {
        return None;
    };
    let Kind::Tree(nonterminal) = value else {
        return None;
    };
    Some(nonterminal)
}
