//! What do all the items that write on one production make?
//!
//! The items are given by their places in the file. What one equation makes is in `equation` and `local`.

ghost use Rattle.std.specs.Prelude.{◌≡◌, ◌<◌, ◌++◌, All, IfOk, OnOk, length, map};
ghost use Rattle.wb_syntax.specs.Equations.{equations_of};
ghost use Rattle.wb_names_numbers_theory.specs.Written.{local_equations};
ghost use Rattle.wb_names_numbers_theory.proofs.OneProduction.{local_label};
ghost use Rattle.wb_names_rows.specs.Blocks.{equations_at, AreThere, AddsBody};
ghost use Rattle.wb_names_rows.specs.Nodes.{EquationIsThere};

use crate::index::Index;
use crate::labels::{add_children, add_written};
use crate::scope::{ProductionLabels, Scope};
use crate::{equation, labels, local};
use std::alloc::{AllocError, Global};
use wb_syntax::{Item, ItemForm, Pattern};
use wb_syntax_resolved::{Child, Equation, Forward, Local};

/// What is written on a production.
#[derive(Drop)]
pub struct Body {
    pub locals: Vec<Local>,
    pub forwards: Vec<Forward>,
    pub equations: Vec<Equation>,
}

/// The labels of a production with these children and locals, to which the items at these places add.
pub fn labels_of(
    alloc: Global,
    children: &[Child],
    locals: &[Local],
    items: &[Item<Pattern>],
    places: &[usize],
) -> Result<ProductionLabels, AllocError>
    requires { All (λ place. place < length items.now) places.now }
    ensures count { IfOk result (λ made. made.children ≡ length children.now) }
    ensures names { IfOk result (λ made. made.names ≡ map (λ c. c.label) children.now ++ (map (λ l. l.label) locals.now ++ map (λ q. local_label q.target) (local_equations (equations_at items.now places.now)))) }
{
    let mut names = Index::new(alloc);
    add_labels(&mut names, children, locals, items, places)?;
    Ok(ProductionLabels {
        names,
        children: children.len(),
    })
}

// Adds the labels of these children and locals, and of the locals that the items at these places make.
fn add_labels(
    names: &mut Index,
    children: &[Child],
    locals: &[Local],
    items: &[Item<Pattern>],
    places: &[usize],
) -> Result<(), AllocError>
    requires { All (λ place. place < length items.now) places.now }
    ensures { OnOk result (names.new ≡ names.old ++ (map (λ c. c.label) children.now ++ (map (λ l. l.label) locals.now ++ map (λ q. local_label q.target) (local_equations (equations_at items.now places.now))))) }
{
    add_children(names, children)?;
    labels::add_locals(names, locals)?;
    add_all_written(names, items, places)
}

// Adds the labels of the locals that the items at these places make.
fn add_all_written(
    names: &mut Index,
    items: &[Item<Pattern>],
    places: &[usize],
) -> Result<(), AllocError>
    requires { All (λ place. place < length items.now) places.now }
    ensures { OnOk result (names.new ≡ names.old ++ map (λ q. local_label q.target) (local_equations (equations_at items.now places.now))) }
{
    for place in places {
        add_written(names, written_equations(&items[*place]))?;
    }
    Ok(())
}

/// Adds what the items at these places make.
pub fn add_all(
    alloc: Global,
    scope: &Scope,
    labels: &ProductionLabels,
    items: &[Item<Pattern>],
    places: &[usize],
    body: &mut Body,
) -> Result<(), AllocError>
    requires { AreThere scope.now labels.now items.now places.now }
    ensures { OnOk result (AddsBody scope.now labels.now (equations_at items.now places.now) body.old body.new) }
{
    for place in places {
        add_item(alloc, scope, labels, &items[*place], body)?;
    }
    Ok(())
}

// Adds what an item makes.
fn add_item(
    alloc: Global,
    scope: &Scope,
    labels: &ProductionLabels,
    item: &Item<Pattern>,
    body: &mut Body,
) -> Result<(), AllocError>
    requires { All (EquationIsThere scope.now labels.now) (equations_of item.now.form) }
    ensures { OnOk result (AddsBody scope.now labels.now (equations_of item.now.form) body.old body.new) }
{
    let equations = written_equations(item);
    local::add_locals(alloc, scope, labels, equations, &mut body.locals)?;
    local::add_forwards(alloc, scope, labels, equations, &mut body.forwards)?;
    equation::add_equations(alloc, scope, labels, equations, &mut body.equations)
}

// The equations of an item.
fn written_equations(item: &Item<Pattern>) -> &[wb_syntax::Equation]
    ensures { result.now ≡ equations_of item.now.form }
{
    match &item.form {
        ItemForm::Production { production, .. } => production.equations.as_slice(),
        ItemForm::Aspect { equations, .. } => equations.as_slice(),
        _ => &[],
    }
}
