//! At which kernel of the host is the item of a hole's production, with its dot before the hole?

ghost use Rattle.std.specs.Prelude.{◌≡◌, ◌<◌, ◌↔◌, ◌∷◌, ℕ, IsTrue, List, MatchOption, Some, length, slice_get};
ghost use Rattle.wb_base.specs.declared.symbol.Symbol.{Symbol};
ghost use Rattle.wb_base.specs.declared.symbol.Symbol.TheVariants.{Terminal};
ghost use Rattle.wb_grammar_theory.specs.declared.item.Item.{Item};
ghost use Rattle.wb_grammar_theory.specs.Items.{HasItem};
ghost use Rattle.wb_items.specs.Kernels.{count_of, prefix_of};
ghost use Rattle.wb_determinism_kernels.specs.NewKernels.{BeginsWith};
ghost use Rattle.wb_determinism_kernels.specs.Inner.Holes.{IsBefore, HasNoHole};

use wb_base::{Grammar, Symbol};
use wb_items::{Item, Kernels};

// A kernel of the host, and the production of which the initial item is there.
#[derive(Clone, Copy, Drop)]
pub(crate) struct BeforeHole {
    pub(crate) state: usize,
    pub(crate) production: usize,
}

// The first kernel that has the initial item of a production that the terminal begins.
pub(crate) fn before_hole(host: &Kernels, own: &Grammar, hole: usize) -> Option<BeforeHole>
    requires { host.now.grammar ≡ own.now }
    ensures { MatchOption result (HasNoHole host.now hole (count_of host.now)) (IsBefore host.now hole) }
{
    'kernels: for state in 0..host.count() {
        if let Some(production) = opened_at(host, own, state, hole) {
            return Some(BeforeHole { state, production });
        }
    }
    None
}

// The production of such an item at a kernel.
fn opened_at(host: &Kernels, own: &Grammar, state: usize, hole: usize) -> Option<usize>
    requires grammar { host.now.grammar ≡ own.now }
    requires state { state < count_of host.now }
    ensures { MatchOption result ((item : Item) → HasItem host.now.grammar (prefix_of host.now state) item → ¬ BeginsWith host.now.grammar hole item) (λ p. IsBefore host.now hole (record { state = state; production = p })) }
{
    let Some(_next) = host.next(state, Symbol::Terminal(hole)) else {
        return None;
    };
    let items = host.closure(state);
    'items: for place in 0..items.len() {
        if begins_with(own, items[place], hole) {
            return Some(items[place].production);
        }
    }
    None
}

// Whether the item is the initial one of a production that the terminal begins.
fn begins_with(grammar: &Grammar, item: Item, terminal: usize) -> bool
    ensures { IsTrue result ↔ BeginsWith grammar.now terminal item }
{
    if item.dot > 0 || item.production >= grammar.productions() {
        return false;
    }
    begins(grammar.right(item.production), terminal)
}

// Whether the symbols begin with the terminal.
pub(crate) fn begins(symbols: &[Symbol], terminal: usize) -> bool
    ensures { IsTrue result ↔ ((rest : List Symbol) × (symbols.now ≡ Terminal terminal ∷ rest)) }
{
    if symbols.len() == 0 {
        return false;
    }
    match symbols[0] {
        Symbol::Terminal(number) => number == terminal,
        Symbol::Nonterminal(_) => false,
    }
}
