//! The tables of several expressions: Glushkov's position automaton, in which the leaf that was read last is the state.
//!
//! What may come next isn't listed, since the lists are quadratic where many leaves may be left out in a row: `closure` finds it.

ghost use Rattle.std.specs.Prelude.{IfOk};
ghost use Rattle.wb_automata_positions.specs.Tables.{AreTables};

use crate::concatenated::concatenate;
use crate::places::next_of;
use crate::rows::Rows;
use crate::terminals::starts_of;
use std::alloc::{AllocError, Global};
use wb_regex::{Regex, RegexNode};
use wb_termset::TermSet;

/// The nodes of all expressions, the place at which each goes on, the last node of each expression, and for each set the starts of its
/// expressions. With n nodes, the start of expression k has the number n + k.
pub struct Tables {
    pub nodes: Vec<RegexNode>,
    pub next: Vec<usize>,
    pub roots: Vec<usize>,
    pub starts: Rows,
}

impl Drop for Tables {
    fn drop(self) {
        let Tables {
            nodes,
            next,
            roots,
            starts: _,
        } = self;
        drop(nodes);
        drop(next);
        drop(roots);
    }
}

/// The tables of these expressions and sets of them.
pub fn tables_of(alloc: Global, terminals: &[Regex], sets: &[TermSet]) -> Result<Tables, AllocError>
    ensures { IfOk result (λ t. AreTables terminals.now sets.now t) }
{
    let all = concatenate(alloc, terminals)?;
    let starts = starts_of(alloc, all.nodes.len(), terminals.len(), sets)?;
    let next = next_of(alloc, all.nodes.as_slice(), all.roots.as_slice())?;
    Ok(Tables {
        nodes: all.nodes,
        next,
        roots: all.roots,
        starts,
    })
}
