//! What do tables keep of one kernel? The codes of its actions, the kernels after nonterminals, and its valid terminals.
//!
//! Single actions are put by `action_row.rt`, and the rows gathered by `build_tables.rt`.

ghost use Rattle.std.specs.Prelude.{◌≡◌, ◌<◌, ℕ, IfErr, IfOk, OnOk, length};
ghost use Rattle.wb_termset.specs.Sets.{IsMember};
ghost use Rattle.wb_grammar_theory.specs.Items.{HasItem};
ghost use Rattle.wb_items.specs.Kernels.{AreKernels, count_of, prefix_of};
ghost use Rattle.wb_items.specs.LookaheadSets.{AreLookaheads};
ghost use Rattle.wb_lookahead.specs.Codes.{action_at};
ghost use Rattle.wb_lookahead.specs.Tables.{IsTableRefusal};
ghost use Rattle.wb_lookahead.specs.Inner.Rows.{AreGotos, IsClash, PutsGoto};
ghost use Rattle.wb_lookahead.specs.Inner.KernelRows.{AddsItemTo, IsEmptyRow, IsKernelRow, IsSoundKernelRow, PutsIn, actions_of};

use crate::action::{Action, TableRefusal};
use crate::action_row::{put, put_all, reduction};
use crate::codes::{code_of, goto_code};
use std::alloc::{AllocError, Global};
use wb_base::{Grammar, Symbol};
use wb_items::{Item, Kernels, Lookaheads, Move, symbol_after};
use wb_termset::TermSet;

// The codes of a kernel's actions, one for each terminal, and the terminals that have an action.
#[derive(Drop)]
pub(crate) struct Row {
    pub(crate) codes: Vec<u32>,
    pub(crate) valid: TermSet,
}

// The row of a kernel, or a conflict there.
pub(crate) fn row_at(
    alloc: Global,
    grammar: &Grammar,
    kernels: &Kernels,
    lookaheads: &Lookaheads,
    state: usize,
) -> Result<Row, TableRefusal>
    requires kernels { AreKernels kernels.now }
    requires grammar { kernels.now.grammar ≡ grammar.now }
    requires lookaheads { AreLookaheads kernels.now lookaheads.now }
    requires state { state < count_of kernels.now }
    ensures ok { IfOk result (IsKernelRow kernels.now state) }
    ensures refused { IfErr result (IsTableRefusal kernels.now) }
{
    let mut row = empty_row(alloc, grammar.lookahead_count()?)?;
    'items: for &item in kernels.closure(state) {
        add_item(grammar, kernels, lookaheads, state, item, &mut row)?;
    }
    Ok(row)
}

// A row without actions for so many terminals.
fn empty_row(alloc: Global, count: usize) -> Result<Row, AllocError>
    ensures { IfOk result (IsEmptyRow count) }
{
    let codes = vec![in alloc; 0; count]?;
    let valid = TermSet::new(alloc, count)?;
    Ok(Row { codes, valid })
}

// Puts the actions into the row for which an item asks, or refuses where another stands.
fn add_item(
    grammar: &Grammar,
    kernels: &Kernels,
    lookaheads: &Lookaheads,
    state: usize,
    item: Item,
    row: &mut Row,
) -> Result<(), TableRefusal>
    requires kernels { AreKernels kernels.now }
    requires grammar { kernels.now.grammar ≡ grammar.now }
    requires lookaheads { AreLookaheads kernels.now lookaheads.now }
    requires state { state < count_of kernels.now }
    requires item { HasItem kernels.now.grammar (prefix_of kernels.now state) item }
    requires sound { IsSoundKernelRow kernels.now state row.old }
    ensures ok { OnOk result (AddsItemTo kernels.now state item row.old row.new) }
    ensures refused { IfErr result (IsTableRefusal kernels.now) }
{
    let Some(symbol) = symbol_after(grammar, item) else {
        let code = code_of(reduction(grammar, item.production))?;
        return reduce_before(state, lookaheads.of(state, item), code, row);
    };
    let Symbol::Terminal(terminal) = symbol else {
        return Ok(());
    };
    let Some(next) = kernels.next(state, symbol) else {
        unreachable!()
    };
    let code = code_of(Action::Shift(next))?;
    shift_at(state, terminal, code, row)
}

// Puts the action of a code on each member of a set, which are valid then, or refuses where another stands.
fn reduce_before(state: usize, set: &TermSet, code: u32, row: &mut Row) -> Result<(), TableRefusal>
    requires codes { length row.old.codes.items ≡ length set.now }
    requires valid { length row.old.valid ≡ length set.now }
    ensures ok { OnOk result (PutsIn row.old (IsMember set.now) (action_at code) row.new) }
    ensures refused { IfErr result (IsClash state (actions_of row.old) (IsMember set.now) (action_at code)) }
{
    put_all(state, set, code, &mut row.codes)?;
    row.valid.union_with(set);
    Ok(())
}

// Puts the action of a code on a terminal, which is valid then, or refuses where another stands.
fn shift_at(state: usize, terminal: usize, code: u32, row: &mut Row) -> Result<(), TableRefusal>
    requires codes { terminal < length row.old.codes.items }
    requires valid { terminal < length row.old.valid }
    ensures ok { OnOk result (PutsIn row.old (λ t. t ≡ terminal) (action_at code) row.new) }
    ensures refused { IfErr result (IsClash state (actions_of row.old) (λ t. t ≡ terminal) (action_at code)) }
{
    put(state, terminal, code, &mut row.codes)?;
    row.valid.insert(terminal);
    Ok(())
}

// The codes of the kernels to which the nonterminals lead from a kernel.
pub(crate) fn gotos_at(
    alloc: Global,
    grammar: &Grammar,
    kernels: &Kernels,
    state: usize,
) -> Result<Vec<u32>, AllocError>
    requires kernels { AreKernels kernels.now }
    requires grammar { kernels.now.grammar ≡ grammar.now }
    requires state { state < count_of kernels.now }
    ensures { IfOk result (λ row. AreGotos kernels.now state row.items kernels.now.grammar.nonterminals) }
{
    let mut row = vec![in alloc; 0; grammar.nonterminals()]?;
    'moves: for step in kernels.moves(state) {
        put_goto(*step, &mut row)?;
    }
    Ok(row)
}

// Puts the code of the kernel to which a move by a nonterminal leads.
fn put_goto(step: Move, row: &mut Vec<u32>) -> Result<(), AllocError>
    ensures { OnOk result (PutsGoto step row.old.items row.new.items) }
{
    let Symbol::Nonterminal(nonterminal) = step.symbol else {
        return Ok(());
    };
    let code = goto_code(step.state)?;
    if nonterminal < row.len() {
        row[nonterminal] = code;
    }
    Ok(())
}
