//! Which equation of a production reads one vertex for another?

ghost use Rattle.std.specs.Prelude.{◌≡◌, Some, IfSome, true};
ghost use Rattle.wb_flow.specs.Reads.{read_by, label_read};
ghost use Rattle.wb_flow.specs.Rules.{target_of};
ghost use Rattle.wb_explain_flows.specs.Inner.Equations.{IsEquationAt, IsForwardAt, IsLocalAt, IsMadeAt};
ghost use Rattle.wb_explain_flows.specs.Rules.{IsReadAt, ReadsVertex};

use crate::chain::same;
use wb_explain_flows_lists::rule::{Rule, below};
use wb_flow::Vertex;
use wb_syntax_resolved::{Equation, Local, Node, Place, Production, Target};

// The equation for one vertex, where it reads the other.
pub(crate) fn rule_of(production: &Production, from: Vertex, to: Vertex) -> Option<Rule>
    ensures { IfSome result (IsReadAt production.now from to) }
{
    match from {
        Vertex::LocalTree(local) => local_rule(production.locals.as_slice(), local, to),
        Vertex::ForwardTree => forward_rule(production, to),
        _ => equation_rule(production.equations.as_slice(), from, to),
    }
}

// That for an attribute.
fn equation_rule(equations: &[Equation], from: Vertex, to: Vertex) -> Option<Rule>
    ensures { IfSome result (IsEquationAt equations.now from to) }
{
    'equations: for equation in equations {
        if is_rule(equation, from, to) {
            return Some(Rule {
                owner: equation.owner,
                offset: equation.offset,
            });
        }
    }
    None
}

// Whether an equation is for one vertex and reads the other.
fn is_rule(equation: &Equation, from: Vertex, to: Vertex) -> bool
    ensures { result ≡ true → (target_of equation.now.target ≡ from) × ReadsVertex equation.now.nodes to }
{
    if !same(defined(equation.target), from) {
        return false;
    }
    reads(equation.nodes.as_slice(), to)
}

// That for the tree of a local.
fn local_rule(locals: &[Local], number: usize, to: Vertex) -> Option<Rule>
    ensures { IfSome result (IsLocalAt locals.now number to) }
{
    match locals.get(number) {
        Some(local) => made_rule(local, to),
        None => None,
    }
}

// The same, where the local is there.
fn made_rule(local: &Local, to: Vertex) -> Option<Rule>
    ensures { IfSome result (IsMadeAt local.now to) }
{
    if reads(local.nodes.as_slice(), to) {
        return Some(Rule {
            owner: local.owner,
            offset: local.offset,
        });
    }
    None
}

// That for the forwarded tree.
fn forward_rule(production: &Production, to: Vertex) -> Option<Rule>
    ensures { IfSome result (IsForwardAt production.now to) }
{
    let Some(forward) = &production.forward else {
        return None;
    };
    if reads(forward.nodes.as_slice(), to) {
        return Some(Rule {
            owner: production.owner,
            offset: forward.offset,
        });
    }
    None
}

// Whether an expression reads a vertex.
fn reads(nodes: &[Node], vertex: Vertex) -> bool
    ensures { result ≡ true → ReadsVertex nodes.now vertex }
{
    'nodes: for node in nodes {
        if is_read(node, vertex) {
            return true;
        }
    }
    false
}

// Whether a node reads it.
fn is_read(node: &Node, vertex: Vertex) -> bool
    ensures { result ≡ true → read_by node.now ≡ Some vertex }
{
    match read(node) {
        Some(found) => same(found, vertex),
        None => false,
    }
}

// What an equation of this target defines.
fn defined(target: Target) -> Vertex
    ensures { result ≡ target_of target }
{
    match target {
        Target::Top(attribute) => Vertex::Top(attribute),
        Target::Place { place, attribute } => below(place, attribute),
        Target::Forward(attribute) => Vertex::Forward(attribute),
    }
}

// What a node reads, where it reads a vertex.
fn read(node: &Node) -> Option<Vertex>
    ensures { result ≡ read_by node.now }
{
    match node {
        Node::Label(place) => local_tree(*place),
        Node::Read { label, attribute } => Some(below(*label, *attribute)),
        Node::Top(attribute) => Some(Vertex::Top(*attribute)),
        Node::Forward(attribute) => Some(Vertex::Forward(*attribute)),
        _ => None,
    }
}

// The tree that a label as a value reads: a child's is there, and isn't read.
fn local_tree(place: Place) -> Option<Vertex>
    ensures { result ≡ label_read place }
{
    match place {
        Place::Child(_) => None,
        Place::Local(local) => Some(Vertex::LocalTree(local)),
    }
}
