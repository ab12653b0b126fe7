//! Numbers the locals and forwarded trees that a file's equations make.
//!
//! Each goes after those that are there. Equations for attributes are in `equation`.

ghost use Rattle.std.specs.Prelude.{◌≡◌, All, OnOk};
ghost use Rattle.wb_names_numbers_theory.specs.Written.{makes_forward, makes_local};
ghost use Rattle.wb_names_rows.specs.Nodes.{EquationIsThere, IsFoundLocal, IsFoundForward, AddsAll};
ghost use Rattle.wb_names_rows.specs.Inner.Nodes.{Adds};

use crate::node::written_nodes;
use crate::scope::{ProductionLabels, Scope, number_of};
use std::alloc::{AllocError, Global};
use wb_base::push;
use wb_syntax::{Equation, Target};
use wb_syntax_resolved::{Forward, Local};

// Adds the locals that these equations make.
pub(crate) fn add_locals(
    alloc: Global,
    scope: &Scope,
    labels: &ProductionLabels,
    equations: &[Equation],
    made: &mut Vec<Local>,
) -> Result<(), AllocError>
    requires { All (EquationIsThere scope.now labels.now) equations.now }
    ensures { OnOk result (AddsAll (λ q. makes_local q.target) (IsFoundLocal scope.now labels.now) equations.now made.old.items made.new.items) }
{
    for equation in equations {
        add_local(alloc, scope, labels, equation, made)?;
    }
    Ok(())
}

// Adds the local that an equation makes, where it makes one.
fn add_local(
    alloc: Global,
    scope: &Scope,
    labels: &ProductionLabels,
    equation: &Equation,
    made: &mut Vec<Local>,
) -> Result<(), AllocError>
    requires { EquationIsThere scope.now labels.now equation.now }
    ensures { OnOk result (Adds (λ q. makes_local q.target) (IsFoundLocal scope.now labels.now) equation.now made.old.items made.new.items) }
{
    let Target::Local { label, nonterminal } = &equation.target else {
        return Ok(());
    };
    let nonterminal = number_of(&scope.nonterminals, nonterminal.as_slice());
    let label = label.copy()?;
    let nodes = written_nodes(alloc, scope, labels, equation.nodes.as_slice())?;
    push(
        made,
        Local {
            label,
            owner: scope.owner,
            offset: equation.offset,
            nonterminal,
            nodes,
        },
    )
}

// Adds the trees to which these equations forward.
pub(crate) fn add_forwards(
    alloc: Global,
    scope: &Scope,
    labels: &ProductionLabels,
    equations: &[Equation],
    made: &mut Vec<Forward>,
) -> Result<(), AllocError>
    requires { All (EquationIsThere scope.now labels.now) equations.now }
    ensures { OnOk result (AddsAll (λ q. makes_forward q.target) (IsFoundForward scope.now labels.now) equations.now made.old.items made.new.items) }
{
    for equation in equations {
        add_forward(alloc, scope, labels, equation, made)?;
    }
    Ok(())
}

// Adds the tree to which an equation forwards, where it does.
fn add_forward(
    alloc: Global,
    scope: &Scope,
    labels: &ProductionLabels,
    equation: &Equation,
    made: &mut Vec<Forward>,
) -> Result<(), AllocError>
    requires { EquationIsThere scope.now labels.now equation.now }
    ensures { OnOk result (Adds (λ q. makes_forward q.target) (IsFoundForward scope.now labels.now) equation.now made.old.items made.new.items) }
{
    if !matches!(&equation.target, Target::ForwardsTo) {
        return Ok(());
    }
    let nodes = written_nodes(alloc, scope, labels, equation.nodes.as_slice())?;
    push(
        made,
        Forward {
            offset: equation.offset,
            nodes,
        },
    )
}
