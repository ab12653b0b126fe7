//! What does a file have where it has no place, whatever its names mean?
//!
//! Markers of a host, plain children of concrete productions, and `forwards to` in an aspect.

ghost use Rattle.std.specs.Prelude.{◌≡◌, ◌++◌, OnOk, flat_map};
ghost use Rattle.wb_syntax.specs.declared.expression.Equation.{Equation};
ghost use Rattle.wb_syntax.specs.declared.production.Child.{Child};
ghost use Rattle.wb_names_theory.specs.WrongKind as spec;

use std::alloc::AllocError;
use wb_base::{Bytes, push};
use wb_syntax::{
    Child, Equation, Item, ItemForm, NamedKind, Pattern, ProductionRole, Role, Target,
};

/// Adds the names of what items have where it has no place, after the others. The owner 0 is a host. If memory runs out, some of it may be
/// there.
pub fn add_misplaced(
    owner: usize,
    items: &[Item<Pattern>],
    out: &mut Vec<Bytes>,
) -> Result<(), AllocError>
    ensures { OnOk result (out.new.items ≡ out.old.items ++ spec.misplaced owner items.now) }
{
    'items: for item in items {
        add_form(owner, &item.form, out)?;
    }
    Ok(())
}

// Adds those of an item.
fn add_form(owner: usize, form: &ItemForm<Pattern>, out: &mut Vec<Bytes>) -> Result<(), AllocError>
    ensures { OnOk result (out.new.items ≡ out.old.items ++ spec.form_misplaced owner form.now) }
{
    match form {
        ItemForm::Lexical {
            role: Role::Marking,
            name,
            ..
        } if owner == 0 => push(out, name.copy()?),
        ItemForm::Lexical { .. } => Ok(()),
        ItemForm::Plain(_) => Ok(()),
        ItemForm::Production { role, production } => {
            add_children(*role, production.children.as_slice(), out)
        }
        ItemForm::Aspect { name, equations } => add_forwards(name, equations.as_slice(), out),
    }
}

// Adds plain children of a concrete production.
fn add_children(
    role: ProductionRole,
    children: &[Child],
    out: &mut Vec<Bytes>,
) -> Result<(), AllocError>
    ensures { OnOk result (out.new.items ≡ out.old.items ++ flat_map (λ (c : Child). spec.misplaced_child role c.label c.kind) children.now) }
{
    'children: for child in children {
        add_child(role, child, out)?;
    }
    Ok(())
}

// Adds a plain child of a concrete production.
fn add_child(role: ProductionRole, child: &Child, out: &mut Vec<Bytes>) -> Result<(), AllocError>
    ensures { OnOk result (out.new.items ≡ out.old.items ++ spec.misplaced_child role child.now.label child.now.kind) }
{
    match role {
        ProductionRole::Abstract => Ok(()),
        ProductionRole::Concrete => match &child.kind {
            NamedKind::Name(_) => Ok(()),
            NamedKind::Int | NamedKind::Bool | NamedKind::Text => push(out, child.label.copy()?),
        },
    }
}

// Adds the production of an aspect for each equation by which it forwards.
fn add_forwards(
    production: &Bytes,
    equations: &[Equation],
    out: &mut Vec<Bytes>,
) -> Result<(), AllocError>
    ensures { OnOk result (out.new.items ≡ out.old.items ++ flat_map (λ (e : Equation). spec.misplaced_forward production.now e.target) equations.now) }
{
    'equations: for equation in equations {
        add_forward(production, &equation.target, out)?;
    }
    Ok(())
}

// Adds the production of an aspect where an equation forwards.
fn add_forward(production: &Bytes, target: &Target, out: &mut Vec<Bytes>) -> Result<(), AllocError>
    ensures { OnOk result (out.new.items ≡ out.old.items ++ spec.misplaced_forward production.now target.now) }
{
    match target {
        Target::ForwardsTo => push(out, production.copy()?),
        _ => Ok(()),
    }
}
