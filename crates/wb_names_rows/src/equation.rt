//! Numbers the equations of a file that are for attributes.
//!
//! Each goes after those that are there. Its nodes are numbered in `node`.

ghost use Rattle.std.specs.Prelude.{◌≡◌, true, false, All, OnOk, MatchOption};
ghost use Rattle.wb_names_numbers_theory.specs.Written.{makes_attribute};
ghost use Rattle.wb_names_rows.specs.Nodes.{TargetIsThere, EquationIsThere, IsFoundTarget, IsFoundEquation};
ghost use Rattle.wb_names_rows.specs.Nodes.{AddsAll};
ghost use Rattle.wb_names_rows.specs.Inner.Nodes.{Adds};

use crate::node::written_nodes;
use crate::scope::{ProductionLabels, Scope, number_of, place_of};
use std::alloc::{AllocError, Global};
use wb_base::push;
use wb_syntax_resolved::{Equation, Target};

// Adds the equations for attributes among these.
pub(crate) fn add_equations(
    alloc: Global,
    scope: &Scope,
    labels: &ProductionLabels,
    equations: &[wb_syntax::Equation],
    made: &mut Vec<Equation>,
) -> Result<(), AllocError>
    requires { All (EquationIsThere scope.now labels.now) equations.now }
    ensures { OnOk result (AddsAll (λ q. makes_attribute q.target) (IsFoundEquation scope.now labels.now) equations.now made.old.items made.new.items) }
{
    for equation in equations {
        add_equation(alloc, scope, labels, equation, made)?;
    }
    Ok(())
}

// Adds an equation, where it is for an attribute.
fn add_equation(
    alloc: Global,
    scope: &Scope,
    labels: &ProductionLabels,
    equation: &wb_syntax::Equation,
    made: &mut Vec<Equation>,
) -> Result<(), AllocError>
    requires { EquationIsThere scope.now labels.now equation.now }
    ensures { OnOk result (Adds (λ q. makes_attribute q.target) (IsFoundEquation scope.now labels.now) equation.now made.old.items made.new.items) }
{
    let Some(target) = attribute_target(scope, labels, &equation.target) else {
        return Ok(());
    };
    let nodes = written_nodes(alloc, scope, labels, equation.nodes.as_slice())?;
    push(
        made,
        Equation {
            owner: scope.owner,
            offset: equation.offset,
            target,
            nodes,
        },
    )
}

// What an equation is for, where it is an attribute.
fn attribute_target(
    scope: &Scope,
    labels: &ProductionLabels,
    target: &wb_syntax::Target,
) -> Option<Target>
    requires { TargetIsThere scope.now labels.now target.now }
    ensures { MatchOption result (makes_attribute target.now ≡ false) (λ to. (makes_attribute target.now ≡ true) × IsFoundTarget scope.now labels.now target.now to) }
{
    match target {
        wb_syntax::Target::Top(attribute) => Some(Target::Top(number_of(
            &scope.attributes,
            attribute.as_slice(),
        ))),
        wb_syntax::Target::Label { label, attribute } => Some(Target::Place {
            place: place_of(labels, label.as_slice()),
            attribute: number_of(&scope.attributes, attribute.as_slice()),
        }),
        wb_syntax::Target::Forward(attribute) => Some(Target::Forward(number_of(
            &scope.attributes,
            attribute.as_slice(),
        ))),
        wb_syntax::Target::Local { .. } => None,
        wb_syntax::Target::ForwardsTo => None,
    }
}
