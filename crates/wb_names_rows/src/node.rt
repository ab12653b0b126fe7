//! Which nodes do the nodes of a file stand for, by number?
//!
//! Only labels, attributes and productions change, so the nodes are those of one expression before and after.

ghost use Rattle.std.specs.Prelude.{◌≡◌, All, Contains, IfOk};
ghost use Rattle.std.specs.List.{AllZip};
ghost use Rattle.wb_syntax_expressions.specs.declared.node.Node.TheVariants.{Build, Call};
ghost use Rattle.wb_names_rows.specs.Nodes.{NodeIsThere, IsAt, IsFoundNode};

use crate::scope::{ProductionLabels, Scope, number_of, place_of};
use std::alloc::{AllocError, Global};
use wb_base::{Bytes, Sequence, push};
use wb_syntax::Node as Written;
use wb_syntax_resolved::Node;

// The nodes of an expression that a file writes on a production with these labels.
pub(crate) fn written_nodes(
    alloc: Global,
    scope: &Scope,
    labels: &ProductionLabels,
    nodes: &[Written],
) -> Result<Sequence<Node>, AllocError>
    requires { All (NodeIsThere scope.now labels.now) nodes.now }
    ensures { IfOk result (λ made. AllZip (IsFoundNode scope.now labels.now) nodes.now made) }
{
    let mut made = Vec::new(alloc);
    for node in nodes {
        let found = written_node(alloc, scope, labels, node)?;
        push(&mut made, found)?;
    }
    Ok(Sequence::from_vec(made))
}

// One node.
fn written_node(
    alloc: Global,
    scope: &Scope,
    labels: &ProductionLabels,
    node: &Written,
) -> Result<Node, AllocError>
    requires { NodeIsThere scope.now labels.now node.now }
    ensures { IfOk result (IsFoundNode scope.now labels.now node.now) }
{
    match node {
        Written::Label(label) => Ok(Node::Label(place_of(labels, label.as_slice()))),
        Written::Read { label, attribute } => Ok(Node::Read {
            label: place_of(labels, label.as_slice()),
            attribute: attribute_of(scope, attribute),
        }),
        Written::Lexeme(label) => Ok(Node::Lexeme(place_of(labels, label.as_slice()))),
        Written::Top(attribute) => Ok(Node::Top(attribute_of(scope, attribute))),
        Written::Forward(attribute) => Ok(Node::Forward(attribute_of(scope, attribute))),
        Written::Build {
            production,
            children,
        } => {
            let number = number_of(&scope.productions, production.as_slice());
            built(alloc, number, children.as_slice())
        }
        Written::Call {
            operation,
            arguments,
        } => called(alloc, operation, arguments.as_slice()),
        _ => node.without_names(),
    }
}

// The number of an attribute that is there.
fn attribute_of(scope: &Scope, attribute: &Bytes) -> usize
    requires { Contains scope.now.attributes attribute.now }
    ensures { IsAt scope.now.attributes attribute.now result }
{
    number_of(&scope.attributes, attribute.as_slice())
}

// The node that builds with this production.
pub(crate) fn built(
    alloc: Global,
    production: usize,
    children: &[usize],
) -> Result<Node, AllocError>
    ensures { IfOk result (λ node. node ≡ Build production children.now) }
{
    Ok(Node::Build {
        production,
        children: copied(alloc, children)?,
    })
}

// The node that calls this operation.
pub(crate) fn called(
    alloc: Global,
    operation: &Bytes,
    arguments: &[usize],
) -> Result<Node, AllocError>
    ensures { IfOk result (λ node. node ≡ Call operation.now arguments.now) }
{
    let operation = operation.copy()?;
    Ok(Node::Call {
        operation,
        arguments: copied(alloc, arguments)?,
    })
}

// The same places in a list of their own.
pub(crate) fn copied(alloc: Global, places: &[usize]) -> Result<Sequence<usize>, AllocError>
    ensures { IfOk result (λ made. made ≡ places.now) }
{
    Ok(Sequence::from_vec(Vec::from_slice(alloc, places)?))
}
