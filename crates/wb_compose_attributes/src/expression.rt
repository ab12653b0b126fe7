//! Renumbers the equations, locals and forwards of a production.

ghost use Rattle.std.specs.Prelude.{◌≡◌, IfOk, map};
ghost use Rattle.wb_compose_theory_attributes.specs.Rows as rows;
ghost use Rattle.wb_compose_attributes.specs.NewNumbers.{map_of};

use crate::numbers::{Numbers, place, place_grouped};
use crate::row::new_owner;
use std::alloc::{AllocError, Global};
use wb_base::{Sequence, push};
use wb_syntax_resolved::{Equation, Forward, Local, Node, Place, Target};

/// An equation.
pub fn new_equation(
    alloc: Global,
    numbers: &Numbers,
    row: &Equation,
) -> Result<Equation, AllocError>
    ensures { IfOk result (λ made. made ≡ rows.new_equation (map_of numbers.now) 0 numbers.now.owner row.now) }
{
    let target = new_target(numbers, row.target)?;
    Ok(Equation {
        owner: new_owner(numbers, row.owner),
        offset: row.offset,
        target,
        nodes: new_nodes(alloc, numbers, row.nodes.as_slice())?,
    })
}

/// A local.
pub fn new_local(alloc: Global, numbers: &Numbers, row: &Local) -> Result<Local, AllocError>
    ensures { IfOk result (λ made. made ≡ rows.new_local (map_of numbers.now) 0 numbers.now.owner row.now) }
{
    let nonterminal = place_grouped(&numbers.nonterminal, row.nonterminal)?;
    let label = row.label.copy()?;
    let nodes = new_nodes(alloc, numbers, row.nodes.as_slice())?;
    Ok(Local {
        label,
        owner: new_owner(numbers, row.owner),
        offset: row.offset,
        nonterminal,
        nodes,
    })
}

/// What a production forwards to.
pub fn new_forward(alloc: Global, numbers: &Numbers, row: &Forward) -> Result<Forward, AllocError>
    ensures { IfOk result (λ made. made ≡ rows.new_forward (map_of numbers.now) 0 row.now) }
{
    Ok(Forward {
        offset: row.offset,
        nodes: new_nodes(alloc, numbers, row.nodes.as_slice())?,
    })
}

// The nodes of an expression.
fn new_nodes(alloc: Global, numbers: &Numbers, nodes: &[Node]) -> Result<Sequence<Node>, AllocError>
    ensures { IfOk result (λ made. made ≡ map (rows.new_node (map_of numbers.now) 0) nodes.now) }
{
    let mut made = Vec::new(alloc);
    'nodes: for node in nodes {
        let next = new_node(alloc, numbers, node)?;
        push(&mut made, next)?;
    }
    Ok(Sequence::from_vec(made))
}

// One node.
fn new_node(alloc: Global, numbers: &Numbers, node: &Node) -> Result<Node, AllocError>
    ensures { IfOk result (λ made. made ≡ rows.new_node (map_of numbers.now) 0 node.now) }
{
    match node {
        Node::Label(label) => Ok(Node::Label(new_place(numbers, *label)?)),
        Node::Read { label, attribute } => {
            let label = new_place(numbers, *label)?;
            let attribute = place(&numbers.attribute, *attribute)?;
            Ok(Node::Read { label, attribute })
        }
        Node::Lexeme(label) => Ok(Node::Lexeme(new_place(numbers, *label)?)),
        Node::Top(attribute) => Ok(Node::Top(place(&numbers.attribute, *attribute)?)),
        Node::Forward(attribute) => Ok(Node::Forward(place(&numbers.attribute, *attribute)?)),
        Node::Build {
            production,
            children,
        } => {
            let production = place_grouped(&numbers.production, *production)?;
            let children = copied(alloc, children.as_slice())?;
            Ok(Node::Build {
                production,
                children,
            })
        }
        Node::Call {
            operation,
            arguments,
        } => {
            let arguments = copied(alloc, arguments.as_slice())?;
            Ok(Node::Call {
                operation: operation.copy()?,
                arguments,
            })
        }
        _ => node.without_names(),
    }
}

// A child or local.
fn new_place(numbers: &Numbers, at: Place) -> Result<Place, AllocError>
    ensures { IfOk result (λ made. made ≡ rows.new_place (map_of numbers.now) 0 at) }
{
    match at {
        Place::Child(child) => Ok(Place::Child(child)),
        Place::Local(local) => Ok(Place::Local(place(&numbers.local, local)?)),
    }
}

// What an equation is for.
fn new_target(numbers: &Numbers, target: Target) -> Result<Target, AllocError>
    ensures { IfOk result (λ made. made ≡ rows.new_target (map_of numbers.now) 0 target) }
{
    match target {
        Target::Top(attribute) => Ok(Target::Top(place(&numbers.attribute, attribute)?)),
        Target::Place {
            place: at,
            attribute,
        } => {
            let at = new_place(numbers, at)?;
            let attribute = place(&numbers.attribute, attribute)?;
            Ok(Target::Place {
                place: at,
                attribute,
            })
        }
        Target::Forward(attribute) => Ok(Target::Forward(place(&numbers.attribute, attribute)?)),
    }
}

// The same places in a list of their own.
fn copied(alloc: Global, places: &[usize]) -> Result<Sequence<usize>, AllocError>
    ensures { IfOk result (λ made. made ≡ places.now) }
{
    Ok(Sequence::from_vec(Vec::from_slice(alloc, places)?))
}
