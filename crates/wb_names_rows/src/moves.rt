//! Renumbers the rows of a base.
//!
//! Attributes, labels and locals keep their numbers and places; the new numbers of the rest are looked up. What a file adds is elsewhere.

ghost use Rattle.std.specs.Prelude.{◌≡◌, ◌<◌, All, IfOk, length};
ghost use Rattle.std.specs.List.{AllZip};
ghost use Rattle.wb_names_rows.specs.Moves.{KindIsWithin, ChildKindIsWithin, IsKindNow, IsChildKindNow, IsChildNow, NodeIsWithin, IsNodeNow};
ghost use Rattle.wb_names_rows.specs.Moves.{IsEquationNow, IsLocalNow, IsForwardNow, EquationIsWithin, LocalIsWithin};

use crate::node::{built, called};
use std::alloc::{AllocError, Global};
use wb_base::{Kind, Sequence, push};
use wb_syntax_resolved::{Child, ChildKind, Equation, Forward, Local, Node};

/// The new numbers of a base's nonterminals, terminals and productions, by the old ones.
pub struct Moves {
    pub nonterminals: Vec<usize>,
    pub terminals: Vec<usize>,
    pub productions: Vec<usize>,
}

impl Drop for Moves {
    fn drop(self) {
        let Moves {
            nonterminals,
            terminals,
            productions,
        } = self;
        drop(nonterminals);
        drop(terminals);
        drop(productions);
    }
}

// A kind.
pub(crate) fn moved_kind(moves: &Moves, kind: Kind) -> Kind
    requires { KindIsWithin moves.now kind }
    ensures { IsKindNow moves.now kind result }
{
    match kind {
        Kind::Int => Kind::Int,
        Kind::Bool => Kind::Bool,
        Kind::Text => Kind::Text,
        Kind::Tree(number) => Kind::Tree(moves.nonterminals[number]),
    }
}

// The kind of a child.
pub(crate) fn moved_child_kind(moves: &Moves, kind: ChildKind) -> ChildKind
    requires { ChildKindIsWithin moves.now kind }
    ensures { IsChildKindNow moves.now kind result }
{
    match kind {
        ChildKind::Terminal(number) => ChildKind::Terminal(moves.terminals[number]),
        ChildKind::Value(kind) => ChildKind::Value(moved_kind(moves, kind)),
    }
}

// The nodes of an expression.
pub(crate) fn moved_nodes(
    alloc: Global,
    moves: &Moves,
    nodes: &[Node],
) -> Result<Sequence<Node>, AllocError>
    requires { All (NodeIsWithin moves.now) nodes.now }
    ensures { IfOk result (λ made. AllZip (IsNodeNow moves.now) nodes.now made) }
{
    let mut made = Vec::with_capacity(alloc, nodes.len())?;
    for node in nodes {
        let found = moved_node(alloc, moves, node)?;
        push(&mut made, found)?;
    }
    Ok(Sequence::from_vec(made))
}

// One node.
fn moved_node(alloc: Global, moves: &Moves, node: &Node) -> Result<Node, AllocError>
    requires { NodeIsWithin moves.now node.now }
    ensures { IfOk result (IsNodeNow moves.now node.now) }
{
    match node {
        Node::Label(place) => Ok(Node::Label(*place)),
        Node::Read { label, attribute } => Ok(Node::Read {
            label: *label,
            attribute: *attribute,
        }),
        Node::Lexeme(place) => Ok(Node::Lexeme(*place)),
        Node::Top(attribute) => Ok(Node::Top(*attribute)),
        Node::Forward(attribute) => Ok(Node::Forward(*attribute)),
        Node::Build {
            production,
            children,
        } => built(alloc, moves.productions[*production], children.as_slice()),
        Node::Call {
            operation,
            arguments,
        } => called(alloc, operation, arguments.as_slice()),
        _ => node.without_names(),
    }
}

/// The equations of a production.
pub fn moved_equations(
    alloc: Global,
    moves: &Moves,
    equations: &[Equation],
) -> Result<Vec<Equation>, AllocError>
    requires { All (EquationIsWithin moves.now) equations.now }
    ensures { IfOk result (λ made. AllZip (IsEquationNow moves.now) equations.now made.items) }
{
    let mut made = Vec::with_capacity(alloc, equations.len())?;
    for equation in equations {
        let found = moved_equation(alloc, moves, equation)?;
        push(&mut made, found)?;
    }
    Ok(made)
}

// One equation.
fn moved_equation(alloc: Global, moves: &Moves, equation: &Equation) -> Result<Equation, AllocError>
    requires { EquationIsWithin moves.now equation.now }
    ensures { IfOk result (IsEquationNow moves.now equation.now) }
{
    Ok(Equation {
        owner: equation.owner,
        offset: equation.offset,
        target: equation.target,
        nodes: moved_nodes(alloc, moves, equation.nodes.as_slice())?,
    })
}

/// The locals of a production.
pub fn moved_locals(
    alloc: Global,
    moves: &Moves,
    locals: &[Local],
) -> Result<Vec<Local>, AllocError>
    requires { All (LocalIsWithin moves.now) locals.now }
    ensures { IfOk result (λ made. AllZip (IsLocalNow moves.now) locals.now made.items) }
{
    let mut made = Vec::with_capacity(alloc, locals.len())?;
    for local in locals {
        let found = moved_local(alloc, moves, local)?;
        push(&mut made, found)?;
    }
    Ok(made)
}

// One local.
fn moved_local(alloc: Global, moves: &Moves, local: &Local) -> Result<Local, AllocError>
    requires { LocalIsWithin moves.now local.now }
    ensures { IfOk result (IsLocalNow moves.now local.now) }
{
    let label = local.label.copy()?;
    let nodes = moved_nodes(alloc, moves, local.nodes.as_slice())?;
    Ok(Local {
        label,
        owner: local.owner,
        offset: local.offset,
        nonterminal: moves.nonterminals[local.nonterminal],
        nodes,
    })
}

/// What a production forwards to.
pub fn moved_forward(alloc: Global, moves: &Moves, forward: &Forward) -> Result<Forward, AllocError>
    requires { All (NodeIsWithin moves.now) forward.now.nodes }
    ensures { IfOk result (IsForwardNow moves.now forward.now) }
{
    Ok(Forward {
        offset: forward.offset,
        nodes: moved_nodes(alloc, moves, forward.nodes.as_slice())?,
    })
}

/// The children of a production.
pub fn moved_children(
    alloc: Global,
    moves: &Moves,
    children: &[Child],
) -> Result<Sequence<Child>, AllocError>
    requires { All (λ c. ChildKindIsWithin moves.now c.kind) children.now }
    ensures { IfOk result (λ made. AllZip (IsChildNow moves.now) children.now made) }
{
    let mut made = Vec::with_capacity(alloc, children.len())?;
    for child in children {
        let found = moved_child(moves, child)?;
        push(&mut made, found)?;
    }
    Ok(Sequence::from_vec(made))
}

// One child.
fn moved_child(moves: &Moves, child: &Child) -> Result<Child, AllocError>
    requires { ChildKindIsWithin moves.now child.now.kind }
    ensures { IfOk result (IsChildNow moves.now child.now) }
{
    Ok(Child {
        label: child.label.copy()?,
        kind: moved_child_kind(moves, child.kind),
    })
}
