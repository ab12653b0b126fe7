//! Is some nonterminal hidden left recursive? A hidden left corner within one strongly connected component of left corners says yes.
//!
//! The path of left corners that a refusal shows is found in `paths.rt`.

ghost use Rattle.std.specs.Prelude.{◌<◌, ◌∷◌, [], ℕ, All, Contains, length, IfOk, IfErr, OnOk, MatchOption};
ghost use Rattle.wb_graph.specs.Graphs.{Edge, IsEdgeBelow, IsReached};
ghost use Rattle.wb_grammar_theory.specs.Shape.{IsReduced};
ghost use Rattle.wb_grammar_theory.specs.Cycles.{HasNoUnitCycle, HasNoHiddenLeftRecursion};
ghost use Rattle.wb_grammar.specs.Facts.{IsNullableSet};
ghost use Rattle.wb_grammar.specs.Inner.Paths.{IsPathTo};
ghost use Rattle.wb_grammar.specs.Inner.Together.{IsTogether};
ghost use Rattle.wb_grammar.specs.Refusals.{IsTrueRefusal};

use crate::GrammarRefusal;
use crate::edges::edges;
use crate::occurrence::Occurrence;
use crate::paths::path;
use std::alloc::{AllocError, Global};
use wb_base::{Grammar, Sequence};
use wb_graph::{Components, strong_components};
use wb_termset::TermSet;

// Refuses a grammar with hidden left recursion.
pub(crate) fn test_hidden_left_recursion(
    alloc: Global,
    grammar: &Grammar,
    nullable: &TermSet,
) -> Result<(), GrammarRefusal>
    requires nullable { IsNullableSet grammar.now nullable.now }
    requires reduced { IsReduced grammar.now }
    requires no_unit_cycle { HasNoUnitCycle grammar.now }
    ensures ok { OnOk result (HasNoHiddenLeftRecursion grammar.now) }
    ensures refused { IfErr result (IsTrueRefusal grammar.now) }
{
    let hidden = edges(alloc, grammar, nullable, Occurrence::HiddenLeft)?;
    let corners = edges(alloc, grammar, nullable, Occurrence::LeftCorner)?;
    match cycle_through(alloc, grammar.nonterminals(), &corners, &hidden)? {
        None => Ok(()),
        Some(cycle) => Err(GrammarRefusal::HiddenLeftRecursion(Sequence::from_vec(cycle))),
    }
}

// A path by corners that leads from the end of a hidden corner to where it begins, if there is one.
fn cycle_through(
    alloc: Global,
    count: usize,
    corners: &[(usize, usize)],
    hidden: &[(usize, usize)],
) -> Result<Option<Vec<usize>>, AllocError>
    requires corners { All (IsEdgeBelow count) corners.now }
    requires hidden { All (IsEdgeBelow count) hidden.now }
    requires within { (a b : ℕ) → Contains hidden.now (a, b) → Contains corners.now (a, b) }
    ensures { IfOk result (λ found. MatchOption found ((a b : ℕ) → Contains hidden.now (a, b) → ¬ IsReached corners.now (b ∷ []) a) (λ cycle. (a b : ℕ) × Contains hidden.now (a, b) × IsPathTo corners.now b cycle.items a)) }
{
    let Some(corner) = hidden_within(alloc, count, corners, hidden)? else {
        return Ok(None);
    };
    path(alloc, count, corners, corner.1, corner.0)
}

// The first hidden corner from whose end corners lead back: its ends are in one strongly connected component.
fn hidden_within(
    alloc: Global,
    count: usize,
    corners: &[(usize, usize)],
    hidden: &[(usize, usize)],
) -> Result<Option<(usize, usize)>, AllocError>
    requires corners { All (IsEdgeBelow count) corners.now }
    requires hidden { All (IsEdgeBelow count) hidden.now }
    requires within { (a b : ℕ) → Contains hidden.now (a, b) → Contains corners.now (a, b) }
    ensures { IfOk result (λ found. MatchOption found ((a b : ℕ) → Contains hidden.now (a, b) → ¬ IsReached corners.now (b ∷ []) a) (λ e. Contains hidden.now e × IsReached corners.now (e.1 ∷ []) e.0)) }
{
    let components = strong_components(alloc, count, corners)?;
    Ok(first_together(&components, hidden))
}

// The first edge whose ends are in one component.
fn first_together(components: &Components, edges: &[(usize, usize)]) -> Option<(usize, usize)>
    requires { All (IsEdgeBelow (length components.now.numbers)) edges.now }
    ensures { MatchOption result ((e : Edge) → Contains edges.now e → ¬ IsTogether components.now e) (λ e. Contains edges.now e × IsTogether components.now e) }
{
    'edges: for &(above, below) in edges {
        if components.of(above) == components.of(below) {
            return Some((above, below));
        }
    }
    None
}
