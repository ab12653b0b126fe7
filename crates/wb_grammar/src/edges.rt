//! Which nonterminals does a production lead to? An edge goes from its left side to each that occurs in its right side as asked.
//!
//! Tests by graphs go over these edges. Which symbols occur how is in `occurrence.rt`.

ghost use Rattle.std.specs.Prelude.{◌≡◌, ◌++◌, All, IfOk, OnOk};
ghost use Rattle.wb_base.specs.Grammar.{IsGrammar};
ghost use Rattle.wb_graph.specs.Graphs.{IsEdgeBelow};
ghost use Rattle.wb_grammar.specs.Facts.{IsNullableSet};
ghost use Rattle.wb_grammar.specs.Inner.Edges.{edges_of, AreEdges};

use crate::occurrence::{Occurrence, occurring};
use std::alloc::{AllocError, Global};
use wb_base::{Grammar, Symbol, push};
use wb_termset::TermSet;

// The edges by all productions, to the nonterminals that occur so in each right side.
pub(crate) fn edges(
    alloc: Global,
    grammar: &Grammar,
    nullable: &TermSet,
    occurrence: Occurrence,
) -> Result<Vec<(usize, usize)>, AllocError>
    requires { IsNullableSet grammar.now nullable.now }
    ensures exact { IfOk result (λ edges. AreEdges occurrence grammar.now nullable.now edges.items) }
    ensures grammar { IfOk result (λ _. IsGrammar grammar.now) }
    ensures below { IfOk result (λ edges. All (IsEdgeBelow grammar.now.nonterminals) edges.items) }
{
    let mut edges = Vec::new(alloc);
    'productions: for production in 0..grammar.productions() {
        let symbols = occurring(occurrence, grammar.right(production), nullable);
        add_edges(grammar.left(production), symbols, &mut edges)?;
    }
    Ok(edges)
}

// Adds an edge from the nonterminal on the left to each nonterminal among the symbols.
fn add_edges(
    left: usize,
    symbols: &[Symbol],
    edges: &mut Vec<(usize, usize)>,
) -> Result<(), AllocError>
    ensures { OnOk result (edges.new.items ≡ edges.old.items ++ edges_of left symbols.now) }
{
    'symbols: for symbol in symbols {
        if let Symbol::Nonterminal(below) = *symbol {
            push(edges, (left, below))?;
        }
    }
    Ok(())
}
