//! Where does a production have trees?
//!
//! At its top, at children, at locals and where it forwards; vertices and edges are found by going over these.

ghost use Rattle.std.specs.Prelude.{◌≡◌, ◌↔◌, IsTrue, Contains, IfOk, OnOk, length};
ghost use Rattle.wb_flow.specs.declared.positions.Position.TheVariants.{Top, Child, Local};
ghost use Rattle.wb_flow.specs.Inner.Adding.{SomeBelow};
ghost use Rattle.wb_flow.specs.Adding.{Adds};
ghost use Rattle.wb_flow.specs.Inner.Positions.{vertex_at, tree_at, child_nonterminal, nonterminal_at, HasTree, IsTreeOf};

use crate::Vertex;
use std::alloc::{AllocError, Global};
use wb_base::{Kind, push};
use wb_syntax_resolved::{ChildKind, Production};

// Where a tree is.
#[derive(Clone, Copy)]
pub(crate) enum Position {
    // The production's top.
    Top,
    // The child of this number.
    Child(usize),
    // The local of this number.
    Local(usize),
    // What is forwarded to.
    Forward,
}

impl Position {
    // An attribute there.
    pub(crate) fn vertex(self, attribute: usize) -> Vertex
        ensures { result ≡ vertex_at self attribute }
    {
        match self {
            Position::Top => Vertex::Top(attribute),
            Position::Child(child) => Vertex::Child(child, attribute),
            Position::Local(local) => Vertex::Local(local, attribute),
            Position::Forward => Vertex::Forward(attribute),
        }
    }

    // Whether it is the top.
    pub(crate) fn is_top(self) -> bool
        ensures { IsTrue result ↔ (self ≡ Top) }
    {
        matches!(self, Position::Top)
    }

    // The tree there, where an expression makes it.
    pub(crate) fn tree(self) -> Option<Vertex>
        ensures { result ≡ tree_at self }
    {
        match self {
            Position::Top => None,
            Position::Child(_) => None,
            Position::Local(local) => Some(Vertex::LocalTree(local)),
            Position::Forward => Some(Vertex::ForwardTree),
        }
    }
}

// A position and the nonterminal of the tree there.
#[derive(Clone, Copy)]
pub(crate) struct TreeAt {
    pub(crate) position: Position,
    pub(crate) nonterminal: usize,
}

// The trees of a production.
pub(crate) fn trees_of(alloc: Global, production: &Production) -> Result<Vec<TreeAt>, AllocError>
    ensures { IfOk result (λ trees. (t : TreeAt) → Contains trees.items t ↔ HasTree production.now t) }
{
    let mut trees = Vec::new(alloc);
    add_tree(&mut trees, production, Position::Top)?;
    add_children(&mut trees, production)?;
    add_locals(&mut trees, production)?;
    add_tree(&mut trees, production, Position::Forward)?;
    Ok(trees)
}

// Adds those of children.
fn add_children(trees: &mut Vec<TreeAt>, production: &Production) -> Result<(), AllocError>
    ensures { OnOk result (Adds trees.old.items trees.new.items (SomeBelow (length production.now.children) (λ k. IsTreeOf production.now (Child k)))) }
{
    'children: for child in 0..production.children.len() {
        add_tree(trees, production, Position::Child(child))?;
    }
    Ok(())
}

// Adds those of locals.
fn add_locals(trees: &mut Vec<TreeAt>, production: &Production) -> Result<(), AllocError>
    ensures { OnOk result (Adds trees.old.items trees.new.items (SomeBelow (length production.now.locals) (λ k. IsTreeOf production.now (Local k)))) }
{
    'locals: for local in 0..production.locals.len() {
        add_tree(trees, production, Position::Local(local))?;
    }
    Ok(())
}

// Adds the tree at a position, where there is one.
fn add_tree(
    trees: &mut Vec<TreeAt>,
    production: &Production,
    position: Position,
) -> Result<(), AllocError>
    ensures { OnOk result (Adds trees.old.items trees.new.items (IsTreeOf production.now position)) }
{
    let Some(nonterminal) = nonterminal_in(production, position) else {
        return Ok(());
    };
    push(
        trees,
        TreeAt {
            position,
            nonterminal,
        },
    )
}

// The nonterminal of the tree at a position, where there is one.
fn nonterminal_in(production: &Production, position: Position) -> Option<usize>
    ensures { result ≡ nonterminal_at production.now position }
{
    match position {
        Position::Top => Some(production.left),
        Position::Child(number) => {
            let children = production.children.as_slice();
            if number < children.len() {
                tree_kind(children[number].kind)
            } else {
                None
            }
        }
        Position::Local(number) => {
            let locals = production.locals.as_slice();
            if number < locals.len() {
                Some(locals[number].nonterminal)
            } else {
                None
            }
        }
        Position::Forward => {
            if production.forward.is_some() {
                Some(production.left)
            } else {
                None
            }
        }
    }
}

// The nonterminal of a child that is a tree.
fn tree_kind(kind: ChildKind) -> Option<usize>
    ensures { result ≡ child_nonterminal kind }
{
    let ChildKind::Value(value) = kind else {
        return None;
    };
    let Kind::Tree(nonterminal) = value else {
        return None;
    };
    Some(nonterminal)
}
