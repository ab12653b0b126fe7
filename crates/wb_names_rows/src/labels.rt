//! Lists the labels of a production, in the order of their places.
//!
//! Those of its children come first, and then those of its locals, as they are there and as equations make them.

ghost use Rattle.std.specs.Prelude.{◌≡◌, ◌++◌, ◌∷◌, [], OnOk, map};
ghost use Rattle.wb_names_numbers_theory.specs.Written.{local_equations};
ghost use Rattle.wb_names_numbers_theory.proofs.OneProduction.{local_label};

use crate::index::Index;
use std::alloc::AllocError;
use wb_syntax::{Equation, Target};
use wb_syntax_resolved::{Child, Local};

// Adds the labels of children.
pub(crate) fn add_children(labels: &mut Index, children: &[Child]) -> Result<(), AllocError>
    ensures { OnOk result (labels.new ≡ labels.old ++ map (λ c. c.label) children.now) }
{
    for child in children {
        labels.add(child.label.copy()?)?;
    }
    Ok(())
}

// Adds the labels of locals.
pub(crate) fn add_locals(labels: &mut Index, locals: &[Local]) -> Result<(), AllocError>
    ensures { OnOk result (labels.new ≡ labels.old ++ map (λ l. l.label) locals.now) }
{
    for local in locals {
        labels.add(local.label.copy()?)?;
    }
    Ok(())
}

// Adds the labels of the locals that equations make.
pub(crate) fn add_written(labels: &mut Index, equations: &[Equation]) -> Result<(), AllocError>
    ensures { OnOk result (labels.new ≡ labels.old ++ map (λ q. local_label q.target) (local_equations equations.now)) }
{
    for equation in equations {
        add_label(labels, equation)?;
    }
    Ok(())
}

// Adds the label of the local that an equation makes, where it makes one.
fn add_label(labels: &mut Index, equation: &Equation) -> Result<(), AllocError>
    ensures { OnOk result (labels.new ≡ labels.old ++ map (λ q. local_label q.target) (local_equations (equation.now ∷ []))) }
{
    match &equation.target {
        Target::Local { label, .. } => labels.add(label.copy()?),
        _ => Ok(()),
    }
}
