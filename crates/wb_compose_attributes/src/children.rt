//! Renumbers the children of a production.

ghost use Rattle.std.specs.Prelude.{◌≡◌, IfOk, map};
ghost use Rattle.wb_compose_theory_attributes.specs.Rows as rows;
ghost use Rattle.wb_compose_attributes.specs.NewNumbers.{map_of};

use crate::numbers::{Numbers, place};
use crate::row::new_kind;
use std::alloc::{AllocError, Global};
use wb_base::{Sequence, push};
use wb_syntax_resolved::{Child, ChildKind};

/// The children of a production.
pub fn new_children(
    alloc: Global,
    numbers: &Numbers,
    children: &[Child],
) -> Result<Sequence<Child>, AllocError>
    ensures { IfOk result (λ made. made ≡ map (rows.new_child (map_of numbers.now)) children.now) }
{
    let mut made = Vec::new(alloc);
    'children: for child in children {
        let next = new_child(numbers, child)?;
        push(&mut made, next)?;
    }
    Ok(Sequence::from_vec(made))
}

// One child.
fn new_child(numbers: &Numbers, child: &Child) -> Result<Child, AllocError>
    ensures { IfOk result (λ made. made ≡ rows.new_child (map_of numbers.now) child.now) }
{
    let kind = new_child_kind(numbers, child.kind)?;
    Ok(Child {
        label: child.label.copy()?,
        kind,
    })
}

// What a child is.
fn new_child_kind(numbers: &Numbers, kind: ChildKind) -> Result<ChildKind, AllocError>
    ensures { IfOk result (λ made. made ≡ rows.new_child_kind (map_of numbers.now) kind) }
{
    match kind {
        ChildKind::Terminal(terminal) => {
            Ok(ChildKind::Terminal(place(&numbers.terminal, terminal)?))
        }
        ChildKind::Value(kind) => Ok(ChildKind::Value(new_kind(numbers, kind)?)),
    }
}
