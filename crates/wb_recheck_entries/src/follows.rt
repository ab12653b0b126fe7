//! Does an entry follow from another?

ghost use Rattle.std.specs.Prelude.{◌≡◌, ◌<◌, ◌↔◌, IsTrue};
ghost use Rattle.wb_grammar_theory.specs.Items.{advance};
ghost use Rattle.wb_recheck_theory.specs.Entries.{IsFollowed};
ghost use Rattle.wb_recheck_theory.specs.Lines.{IsMoveOf, kernel_count};
ghost use Rattle.wb_recheck_entries.specs.References.{IsReference};
ghost use Rattle.wb_recheck_entries.specs.Inner.Steps.{IsOpened};

use crate::Reference;
use crate::begins::{begins, is_same, rest_after};
use wb_base::Symbol;
use wb_items::symbol_after;
use wb_recheck_theory::Entry;

// Whether an entry follows from another, which is at a kernel that is listed.
pub(crate) fn follows(reference: &Reference, source: Entry, entry: Entry) -> bool
    requires reference { IsReference reference.now }
    requires source { source.kernel < kernel_count reference.now.lines.now }
    ensures { IsTrue result ↔ IsFollowed reference.now.grammar.now reference.now.lines.now source.kernel source.item source.terminal entry.kernel entry.item entry.terminal }
{
    if entry.item.dot > 0 {
        moves_on(reference, source, entry)
    } else {
        opens(reference, source, entry)
    }
}

// Whether it does, where its dot isn't at the left end.
fn moves_on(reference: &Reference, source: Entry, entry: Entry) -> bool
    requires reference { IsReference reference.now }
    requires source { source.kernel < kernel_count reference.now.lines.now }
    requires dot { 0 < entry.item.dot }
    ensures { IsTrue result ↔ IsFollowed reference.now.grammar.now reference.now.lines.now source.kernel source.item source.terminal entry.kernel entry.item entry.terminal }
{
    match symbol_after(reference.grammar, source.item) {
        None => false,
        Some(symbol) => {
            if !is_moved(source, entry) {
                return false;
            }
            leads(reference, source.kernel, symbol, entry.kernel)
        }
    }
}

// Whether its item is the other's moved by one symbol, with the same terminal.
fn is_moved(source: Entry, entry: Entry) -> bool
    requires { 0 < entry.item.dot }
    ensures { IsTrue result ↔ ((entry.item ≡ advance source.item) × (entry.terminal ≡ source.terminal)) }
{
    entry.item.dot - 1 == source.item.dot
        && entry.item.production == source.item.production
        && entry.terminal == source.terminal
}

// Whether the one kernel is listed, and is the move of the other by a symbol.
fn leads(reference: &Reference, from: usize, symbol: Symbol, to: usize) -> bool
    requires reference { IsReference reference.now }
    requires from { from < kernel_count reference.now.lines.now }
    ensures { IsTrue result ↔ ((to < kernel_count reference.now.lines.now) × IsMoveOf reference.now.grammar.now reference.now.lines.now from symbol to) }
{
    if to >= reference.found.len() {
        return false;
    }
    match reference.kernels.next(reference.found.state(from), symbol) {
        None => false,
        Some(next) => is_same(next, reference.found.state(to)),
    }
}

// Whether it does, where its dot is at the left end.
fn opens(reference: &Reference, source: Entry, entry: Entry) -> bool
    requires reference { IsReference reference.now }
    requires dot { entry.item.dot ≡ 0 }
    ensures { IsTrue result ↔ IsFollowed reference.now.grammar.now reference.now.lines.now source.kernel source.item source.terminal entry.kernel entry.item entry.terminal }
{
    match symbol_after(reference.grammar, source.item) {
        None => false,
        Some(symbol) => {
            if entry.kernel != source.kernel {
                return false;
            }
            if !is_opened(reference, symbol, entry.item.production) {
                return false;
            }
            let rest = rest_after(reference.grammar, source.item);
            let last = source.terminal;
            begins(
                reference.grammar,
                reference.facts,
                rest,
                last,
                entry.terminal,
            )
        }
    }
}

// Whether a production is one of the symbol, which is a nonterminal then.
fn is_opened(reference: &Reference, symbol: Symbol, production: usize) -> bool
    ensures { IsTrue result ↔ IsOpened reference.now.grammar.now symbol production }
{
    match symbol {
        Symbol::Terminal(_) => false,
        Symbol::Nonterminal(nonterminal) => {
            production < reference.grammar.productions()
                && reference.grammar.left(production) == nonterminal
        }
    }
}
