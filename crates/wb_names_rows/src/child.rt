//! Which kinds do a file's names stand for, by number?
//!
//! The name of a child's kind is a terminal's or a nonterminal's, and never both.

ghost use Rattle.std.specs.Prelude.{◌≡◌, ◌⊎◌, ℕ, All, Contains, IfOk};
ghost use Rattle.std.specs.List.{AllZip};
ghost use Rattle.wb_syntax.specs.declared.production.NamedKind.TheVariants.{Name};
ghost use Rattle.wb_syntax.specs.Names.{kind_names};
ghost use Rattle.wb_names_numbers_theory.specs.Numbering.{Numbering};
ghost use Rattle.wb_names_numbers_theory.specs.Written.{IsWrittenKind, IsWrittenChildKind};
ghost use Rattle.wb_names_rows.specs.Scope.{IsScope, KindIsThere, IsFoundChild};

use crate::scope::{Scope, number_of};
use std::alloc::{AllocError, Global};
use wb_base::{Kind, Sequence, push};
use wb_syntax::NamedKind;
use wb_syntax_resolved::{Child, ChildKind};

/// The children of a production.
pub fn written_children(
    alloc: Global,
    scope: &Scope,
    children: &[wb_syntax::Child],
) -> Result<Sequence<Child>, AllocError>
    requires { All (λ c. KindIsThere scope.now c.kind) children.now }
    ensures { (n : Numbering) → IfOk result (λ made. AllZip (IsFoundChild scope.now n) children.now made) }
{
    let mut made = Vec::new(alloc);
    for child in children {
        let found = written_child(scope, child)?;
        push(&mut made, found)?;
    }
    Ok(Sequence::from_vec(made))
}

// One child.
fn written_child(scope: &Scope, child: &wb_syntax::Child) -> Result<Child, AllocError>
    requires { KindIsThere scope.now child.now.kind }
    ensures { (n : Numbering) → IfOk result (IsFoundChild scope.now n child.now) }
{
    Ok(Child {
        label: child.label.copy()?,
        kind: written_child_kind(scope, &child.kind),
    })
}

// The kind of an attribute.
pub(crate) fn written_kind(scope: &Scope, kind: &NamedKind) -> Kind
    requires { All (Contains scope.now.nonterminals) (kind_names kind.now) }
    ensures { (n : Numbering) → IsScope scope.now n → IsWrittenKind n scope.now.owner kind.now result }
{
    match kind {
        NamedKind::Int => Kind::Int,
        NamedKind::Bool => Kind::Bool,
        NamedKind::Text => Kind::Text,
        NamedKind::Name(name) => Kind::Tree(number_of(&scope.nonterminals, name.as_slice())),
    }
}

// The kind of a child.
pub(crate) fn written_child_kind(scope: &Scope, kind: &NamedKind) -> ChildKind
    requires { KindIsThere scope.now kind.now }
    ensures { (n : Numbering) → IsScope scope.now n → IsWrittenChildKind n scope.now.owner kind.now result }
{
    match kind {
        NamedKind::Int => ChildKind::Value(Kind::Int),
        NamedKind::Bool => ChildKind::Value(Kind::Bool),
        NamedKind::Text => ChildKind::Value(Kind::Text),
        NamedKind::Name(name) => named_child(scope, name.as_slice()),
    }
}

// What a name stands for as the kind of a child.
fn named_child(scope: &Scope, name: &[u8]) -> ChildKind
    requires { Contains scope.now.terminals name.now ⊎ Contains scope.now.nonterminals name.now }
    ensures { (n : Numbering) → IsScope scope.now n → IsWrittenChildKind n scope.now.owner (Name name.now) result }
{
    match scope.terminals.find(name) {
        Some(number) => ChildKind::Terminal(number),
        None => ChildKind::Value(Kind::Tree(number_of(&scope.nonterminals, name))),
    }
}
