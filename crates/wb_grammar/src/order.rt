//! Orders productions so that one pass over them finds the first sets: by the strongly connected components of left corners, from below.
//!
//! In a component sets are gathered at its root along the left corners from there, and dealt out along those to it. No result depends on
//! the order, so no clause says more than that it lists productions.

ghost use Rattle.std.specs.Prelude.{◌≡◌, ◌<◌, [], ℕ, All, IfOk, OnOk, length};
ghost use Rattle.wb_base.specs.Grammar.{IsGrammar};
ghost use Rattle.wb_graph.specs.Graphs.{IsEdgeBelow};
ghost use Rattle.wb_grammar.specs.Facts.{IsNullableSet};

use crate::edges::edges;
use crate::neighbours::{Neighbours, get_at, put_at};
use crate::occurrence::Occurrence;
use std::alloc::{AllocError, Global};
use wb_base::{Grammar, push};
use wb_graph::{Components, strong_components};
use wb_termset::TermSet;

// The productions of each component after those of the components to which it leads, all but those of a single nonterminal twice.
pub(crate) fn bottom_up(
    alloc: Global,
    grammar: &Grammar,
    nullable: &TermSet,
) -> Result<Vec<usize>, AllocError>
    requires { IsNullableSet grammar.now nullable.now }
    ensures below { IfOk result (λ order. All (λ p. p < length grammar.now.productions) order.items) }
    ensures grammar { IfOk result (λ _. IsGrammar grammar.now) }
{
    let corners = Corners::new(alloc, grammar, nullable)?;
    let order = order_by(alloc, grammar.productions(), &corners);
    drop(corners);
    order
}

// For each nonterminal its component, the left corners of its productions, those that it is a left corner of, and its productions; and the
// root of each component.
#[derive(Drop)]
struct Corners {
    components: Vec<usize>,
    roots: Vec<usize>,
    below: Neighbours,
    above: Neighbours,
    productions: Neighbours,
}

impl Corners {
    // Those of a grammar.
    fn new(alloc: Global, grammar: &Grammar, nullable: &TermSet) -> Result<Corners, AllocError>
        requires { IsNullableSet grammar.now nullable.now }
        ensures { IfOk result (λ _. IsGrammar grammar.now) }
    {
        let corners = edges(alloc, grammar, nullable, Occurrence::LeftCorner)?;
        let lefts = lefts_of(alloc, grammar)?;
        corners_by(alloc, grammar.nonterminals(), &corners, &lefts)
    }
}

// Each production with its left side.
fn lefts_of(alloc: Global, grammar: &Grammar) -> Result<Vec<(usize, usize)>, AllocError> {
    let mut lefts = Vec::with_capacity(alloc, grammar.productions())?;
    'productions: for production in 0..grammar.productions() {
        push(&mut lefts, (grammar.left(production), production))?;
    }
    Ok(lefts)
}

// Those by these left corners and productions.
fn corners_by(
    alloc: Global,
    count: usize,
    corners: &[(usize, usize)],
    lefts: &[(usize, usize)],
) -> Result<Corners, AllocError>
    requires { All (IsEdgeBelow count) corners.now }
{
    let found = strong_components(alloc, count, corners)?;
    let components = numbers_of(alloc, count, &found)?;
    let roots = roots_of(alloc, &found)?;
    let below = Neighbours::new(alloc, count, corners, false)?;
    let above = Neighbours::new(alloc, count, corners, true)?;
    let productions = Neighbours::new(alloc, count, lefts, false)?;
    Ok(Corners {
        components,
        roots,
        below,
        above,
        productions,
    })
}

// The component of each nonterminal.
fn numbers_of(alloc: Global, count: usize, found: &Components) -> Result<Vec<usize>, AllocError>
    requires { length found.now.numbers ≡ count }
{
    let mut numbers = Vec::with_capacity(alloc, count)?;
    'nonterminals: for nonterminal in 0..count {
        push(&mut numbers, found.of(nonterminal))?;
    }
    Ok(numbers)
}

// The root of each component.
fn roots_of(alloc: Global, found: &Components) -> Result<Vec<usize>, AllocError> {
    let mut roots = Vec::with_capacity(alloc, found.len())?;
    'components: for component in 0..found.len() {
        push(&mut roots, found.root(component))?;
    }
    Ok(roots)
}

// The order by left corners, where productions have numbers below a count.
fn order_by(alloc: Global, count: usize, corners: &Corners) -> Result<Vec<usize>, AllocError>
    ensures { IfOk result (λ order. All (λ p. p < count) order.items) }
{
    let mut walk = Walk::new(alloc, corners.components.len())?;
    'roots: for &root in &corners.roots {
        add_component(alloc, count, corners, root, &mut walk)?;
    }
    Ok(walk.order)
}

// For each nonterminal 1 where it was met along left corners from its root, and where it was met along those to it; and the productions
// so far.
#[derive(Drop)]
struct Walk {
    gathered: Vec<usize>,
    dealt: Vec<usize>,
    order: Vec<usize>,
}

impl Walk {
    // Nothing, for so many nonterminals.
    fn new(alloc: Global, count: usize) -> Result<Walk, AllocError>
        ensures { IfOk result (λ walk. walk.order.items ≡ []) }
    {
        let gathered = vec![in alloc; 0; count]?;
        let dealt = vec![in alloc; 0; count]?;
        Ok(Walk {
            gathered,
            dealt,
            order: Vec::new(alloc),
        })
    }
}

// Adds the productions of a root's component: those farthest from it first, and then those nearest to it first.
fn add_component(
    alloc: Global,
    count: usize,
    corners: &Corners,
    root: usize,
    walk: &mut Walk,
) -> Result<(), AllocError>
    requires { All (λ p. p < count) walk.old.order.items }
    ensures { OnOk result (All (λ p. p < count) walk.new.order.items) }
{
    let components = &corners.components;
    let found = reach(alloc, &corners.below, components, root, &mut walk.gathered)?;
    add_backwards(count, &corners.productions, &found, &mut walk.order)?;
    if found.len() < 2 {
        return Ok(());
    }
    let found = reach(alloc, &corners.above, components, root, &mut walk.dealt)?;
    add_forwards(count, &corners.productions, &found, &mut walk.order)
}

// The nonterminals of a root's component, in the order in which they are met from the root.
fn reach(
    alloc: Global,
    corners: &Neighbours,
    components: &[usize],
    root: usize,
    met: &mut Vec<usize>,
) -> Result<Vec<usize>, AllocError> {
    let mut found = Vec::new(alloc);
    push(&mut found, root)?;
    put_at(met, root, 1);
    'found: for place in 0..components.len() {
        if place >= found.len() {
            return Ok(found);
        }
        let from = found[place];
        meet(corners, components, from, met, &mut found)?;
    }
    Ok(found)
}

// Meets the nonterminals of the component to which corners lead.
fn meet(
    corners: &Neighbours,
    components: &[usize],
    from: usize,
    met: &mut Vec<usize>,
    found: &mut Vec<usize>,
) -> Result<(), AllocError> {
    'corners: for place in corners.start(from)..corners.end(from) {
        let next = corners.target(place);
        if is_new(components, met, from, next) {
            put_at(met, next, 1);
            push(found, next)?;
        }
    }
    Ok(())
}

// Whether the next nonterminal is of the same component and wasn't met.
fn is_new(components: &[usize], met: &[usize], from: usize, next: usize) -> bool {
    if get_at(met, next) > 0 {
        return false;
    }
    get_at(components, next) == get_at(components, from)
}

// Adds the productions of the nonterminals, the last first.
fn add_backwards(
    count: usize,
    productions: &Neighbours,
    found: &[usize],
    order: &mut Vec<usize>,
) -> Result<(), AllocError>
    requires { All (λ p. p < count) order.old.items }
    ensures { OnOk result (All (λ p. p < count) order.new.items) }
{
    'found: for place in 0..found.len() {
        let nonterminal = found[found.len() - 1 - place];
        add_productions(count, productions, nonterminal, order)?;
    }
    Ok(())
}

// Adds the productions of the nonterminals.
fn add_forwards(
    count: usize,
    productions: &Neighbours,
    found: &[usize],
    order: &mut Vec<usize>,
) -> Result<(), AllocError>
    requires { All (λ p. p < count) order.old.items }
    ensures { OnOk result (All (λ p. p < count) order.new.items) }
{
    'found: for &nonterminal in found {
        add_productions(count, productions, nonterminal, order)?;
    }
    Ok(())
}

// Adds the productions of a nonterminal.
fn add_productions(
    count: usize,
    productions: &Neighbours,
    nonterminal: usize,
    order: &mut Vec<usize>,
) -> Result<(), AllocError>
    requires { All (λ p. p < count) order.old.items }
    ensures { OnOk result (All (λ p. p < count) order.new.items) }
{
    'places: for place in productions.start(nonterminal)..productions.end(nonterminal) {
        let production = productions.target(place);
        if production < count {
            push(order, production)?;
        }
    }
    Ok(())
}
