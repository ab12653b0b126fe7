//! Builds the grammar of a host, or of a host with an extension, with a hole for each extensible nonterminal.
//!
//! Numbers of the grammar without holes stay as they are, but for that of the end of a text.

ghost use Rattle.std.specs.Prelude.{◌≡◌, ◌<◌, ◌≤◌, ◌+◌, ◌++◌, [], All, IfOk, IfSome, IsSome, OnOk, length, take};
ghost use Rattle.wb_marking_holes.specs.Holes.{hole_productions, with_holes_of};

use std::alloc::{AllocError, Global};
use wb_base::{Grammar, Symbol};
use wb_syntax_resolved::Resolved;

/// The grammar of a resolved specification with a hole for each extensible nonterminal.
///
/// A hole is a terminal that matches no text, and is alone on the right side of one production more of its nonterminal. These terminals are
/// numbered after all others, and so are these productions, both in the order in which the extensible nonterminals are listed. The number
/// that stands for the end of a text comes after the holes.
pub fn with_holes(alloc: Global, resolved: &Resolved) -> Result<Grammar, AllocError>
    requires { IsSome resolved.now.grammar }
    ensures { IfOk result (λ made. IfSome resolved.now.grammar (λ g. made ≡ with_holes_of g resolved.now.extensible)) }
{
    let parts = resolved.parts();
    match &parts.grammar {
        Some(grammar) => grammar_with_holes(alloc, grammar, parts.extensible.as_slice()),
        None => unreachable!(),
    }
}

// The grammar with a hole for each of these nonterminals.
fn grammar_with_holes(
    alloc: Global,
    grammar: &Grammar,
    extensible: &[usize],
) -> Result<Grammar, AllocError>
    requires { All (λ a. a < grammar.now.nonterminals) extensible.now }
    ensures { IfOk result (λ made. made ≡ with_holes_of grammar.now extensible.now) }
{
    let Some(terminals) = grammar.terminals().checked_add(extensible.len()) else {
        return Err(AllocError);
    };
    let mut made = Grammar::new(alloc, terminals, grammar.nonterminals(), grammar.start());
    add_productions(&mut made, grammar)?;
    add_holes(&mut made, extensible, grammar.terminals(), terminals)?;
    Ok(made)
}

// Adds the productions of a grammar to one without productions.
fn add_productions(made: &mut Grammar, grammar: &Grammar) -> Result<(), AllocError>
    requires empty { made.old.productions ≡ [] }
    requires terminals { grammar.now.terminals ≤ made.old.terminals }
    requires nonterminals { grammar.now.nonterminals ≡ made.old.nonterminals }
    ensures { OnOk result (made.new ≡ record made.old { productions = grammar.now.productions }) }
{
    'productions: for production in 0..grammar.productions() {
        made.add(grammar.left(production), grammar.right(production))?;
    }
    Ok(())
}

// Adds the productions of holes, whose terminals are numbered from the first to before the end.
fn add_holes(
    made: &mut Grammar,
    extensible: &[usize],
    first: usize,
    end: usize,
) -> Result<(), AllocError>
    requires nonterminals { All (λ a. a < made.old.nonterminals) extensible.now }
    requires terminals { end ≡ made.old.terminals }
    requires holes { end ≡ first + length extensible.now }
    ensures { OnOk result (made.new ≡ record made.old { productions = made.old.productions ++ hole_productions first extensible.now }) }
{
    'holes: for hole in first..end {
        made.add(extensible[hole - first], &[Symbol::Terminal(hole)])?;
    }
    Ok(())
}
