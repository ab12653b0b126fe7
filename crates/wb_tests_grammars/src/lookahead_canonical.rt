//! Are lookaheads those of the canonical LR(1) sets, merged by kernel? The sets are found here as textbooks do, over lists.

ghost use Rattle.wb_items.specs.Lookaheads.{AreLookaheadsOf};

use crate::small::{A, B, C, Small, T0, T1, T2, grammar_of, kernels_of, lookaheads_of};
use std::alloc::{AllocError, Global};
use std::test::Fail;
use wb_base::{Grammar, Symbol, push};
use wb_items::{Item, Kernels, Lookaheads};

// More than the sets, items and passes of these grammars.
const LIMIT: usize = 1000;

// A production, the number of symbols before its dot, and a lookahead.
type Item1 = (usize, usize, usize);

// A canonical set, and the number of its kernel.
#[derive(Drop)]
struct Set {
    kernel: usize,
    items: Vec<Item1>,
}

// The symbols of these grammars.
static SYMBOLS: [Symbol; 6] = [A, B, C, T0, T1, T2];

// Three nonterminals and three terminals; all but the last are in the textbooks.
pub(crate) static GRAMMARS: [Small; 5] = [
    // A -> B t1 C, A -> C, B -> t0 C, B -> t2, C -> B
    Small {
        terminals: 3,
        nonterminals: 3,
        productions: &[
            (0, &[B, T1, C]),
            (0, &[C]),
            (1, &[T0, C]),
            (1, &[T2]),
            (2, &[B]),
        ],
    },
    // A -> A t0 B, A -> B, B -> B t1 C, B -> C, C -> t2
    Small {
        terminals: 3,
        nonterminals: 3,
        productions: &[
            (0, &[A, T0, B]),
            (0, &[B]),
            (1, &[B, T1, C]),
            (1, &[C]),
            (2, &[T2]),
        ],
    },
    // A -> B B, B -> t0 B, B -> t1, A -> C, C -> t2
    Small {
        terminals: 3,
        nonterminals: 3,
        productions: &[
            (0, &[B, B]),
            (1, &[T0, B]),
            (1, &[T1]),
            (0, &[C]),
            (2, &[T2]),
        ],
    },
    // A -> B C t2, B -> t0, C -> , C -> t1
    Small {
        terminals: 3,
        nonterminals: 3,
        productions: &[(0, &[B, C, T2]), (1, &[T0]), (2, &[]), (2, &[T1])],
    },
    // A -> B t0, A -> C t1, A -> t2 B t1, A -> t2 C t0, B -> t2, C -> t2
    Small {
        terminals: 3,
        nonterminals: 3,
        productions: &[
            (0, &[B, T0]),
            (0, &[C, T1]),
            (0, &[T2, B, T1]),
            (0, &[T2, C, T0]),
            (1, &[T2]),
            (2, &[T2]),
        ],
    },
];

// Adds to the pairs of nonterminals and terminals what a production begins with. The end stands for the empty text.
fn add_first(
    grammar: &Grammar,
    production: usize,
    pairs: &mut Vec<(usize, usize)>,
) -> Result<(), AllocError> {
    if production >= grammar.productions() {
        return Ok(());
    }
    let left = grammar.left(production);
    for symbol in grammar.right(production) {
        match *symbol {
            Symbol::Terminal(terminal) => return add_pair(pairs, left, terminal),
            Symbol::Nonterminal(below) => {
                add_firsts(grammar.terminals(), left, below, pairs)?;
                if !pairs.contains(&(below, grammar.terminals())) {
                    return Ok(());
                }
            }
        }
    }
    add_pair(pairs, left, grammar.terminals())
}

fn add_pair(pairs: &mut Vec<(usize, usize)>, one: usize, other: usize) -> Result<(), AllocError> {
    if !pairs.contains(&(one, other)) {
        push(pairs, (one, other))?;
    }
    Ok(())
}

// Adds the terminals of one nonterminal to another.
fn add_firsts(
    terminals: usize,
    left: usize,
    below: usize,
    pairs: &mut Vec<(usize, usize)>,
) -> Result<(), AllocError> {
    for terminal in 0..terminals {
        if pairs.contains(&(below, terminal)) {
            add_pair(pairs, left, terminal)?;
        }
    }
    Ok(())
}

// Adds what each nonterminal begins with.
fn add_all_firsts(grammar: &Grammar, pairs: &mut Vec<(usize, usize)>) -> Result<(), AllocError> {
    for _ in 0..LIMIT {
        for production in 0..grammar.productions() {
            add_first(grammar, production, pairs)?;
        }
    }
    Ok(())
}

// The symbol after a dot.
fn symbol_at(grammar: &Grammar, production: usize, dot: usize) -> Option<Symbol> {
    if production < grammar.productions() {
        return grammar.right(production).get(dot).copied();
    }
    if dot == 0 {
        Some(Symbol::Nonterminal(grammar.start()))
    } else {
        None
    }
}

// Whether a terminal begins the symbols after the one after the dot, with the item's lookahead after them.
fn begins(grammar: &Grammar, pairs: &[(usize, usize)], item: Item1, terminal: usize) -> bool {
    let end = grammar.terminals();
    for place in 1..LIMIT {
        match symbol_at(grammar, item.0, item.1.wrapping_add(place)) {
            None => return item.2 == terminal,
            Some(Symbol::Terminal(there)) => return there == terminal,
            Some(Symbol::Nonterminal(below)) => {
                if terminal != end && pairs.contains(&(below, terminal)) {
                    return true;
                }
                if !pairs.contains(&(below, end)) {
                    return false;
                }
            }
        }
    }
    false
}

// Adds the initial items of the nonterminal after an item's dot.
fn open(
    grammar: &Grammar,
    pairs: &[(usize, usize)],
    item: Item1,
    items: &mut Vec<Item1>,
) -> Result<(), AllocError> {
    let Some(Symbol::Nonterminal(below)) = symbol_at(grammar, item.0, item.1) else {
        return Ok(());
    };
    for production in 0..grammar.productions() {
        if grammar.left(production) == below {
            open_production(grammar, pairs, item, production, items)?;
        }
    }
    Ok(())
}

// Adds the initial items of one production.
fn open_production(
    grammar: &Grammar,
    pairs: &[(usize, usize)],
    item: Item1,
    production: usize,
    items: &mut Vec<Item1>,
) -> Result<(), AllocError> {
    for terminal in 0..grammar.lookahead_count()? {
        if begins(grammar, pairs, item, terminal) {
            add_item(items, (production, 0, terminal))?;
        }
    }
    Ok(())
}

fn add_item(items: &mut Vec<Item1>, item: Item1) -> Result<(), AllocError> {
    if !items.contains(&item) {
        push(items, item)?;
    }
    Ok(())
}

// Closes a set.
fn close(
    grammar: &Grammar,
    pairs: &[(usize, usize)],
    items: &mut Vec<Item1>,
) -> Result<(), AllocError> {
    for at in 0..LIMIT {
        if at < items.len() {
            let item = items[at];
            open(grammar, pairs, item, items)?;
        }
    }
    items.sort()?;
    Ok(())
}

// The grammar and the pairs that sets are made from.
#[derive(Clone, Copy)]
struct Context<'a> {
    grammar: &'a Grammar,
    kernels: &'a Kernels,
    pairs: &'a [(usize, usize)],
}

// Adds the items after a symbol, and closes them.
fn move_over(
    context: &Context,
    items: &[Item1],
    symbol: Symbol,
    moved: &mut Vec<Item1>,
) -> Result<(), AllocError> {
    for item in items {
        if symbol_at(context.grammar, item.0, item.1) == Some(symbol) {
            add_item(moved, (item.0, item.1.wrapping_add(1), item.2))?;
        }
    }
    close(context.grammar, context.pairs, moved)
}

// Whether a set is among others.
fn is_among(sets: &[Set], items: &[Item1]) -> bool {
    for set in sets {
        if set.items.as_slice() == items {
            return true;
        }
    }
    false
}

// Adds a set, unless it is there already.
fn add_set(sets: &mut Vec<Set>, kernel: usize, items: Vec<Item1>) -> Result<(), AllocError> {
    if is_among(sets, &items) {
        return Ok(());
    }
    push(sets, Set { kernel, items })
}

// Adds the set after a symbol, unless it is empty or there already.
fn add_after(
    alloc: Global,
    context: &Context,
    at: usize,
    symbol: Symbol,
    sets: &mut Vec<Set>,
) -> Result<(), AllocError> {
    if at >= sets.len() || sets[at].kernel >= context.kernels.count() {
        return Ok(());
    }
    let Some(kernel) = context.kernels.next(sets[at].kernel, symbol) else {
        return Ok(());
    };
    let mut items = Vec::new(alloc);
    move_over(context, sets[at].items.as_slice(), symbol, &mut items)?;
    add_set(sets, kernel, items)
}

// Adds the set of the empty prefix.
fn add_start(alloc: Global, context: &Context, sets: &mut Vec<Set>) -> Result<(), AllocError> {
    let grammar = context.grammar;
    let mut items = vec![in alloc; (grammar.productions(), 0, grammar.terminals())]?;
    close(grammar, context.pairs, &mut items)?;
    add_set(sets, 0, items)
}

// Adds all canonical sets.
fn add_sets(alloc: Global, context: &Context, sets: &mut Vec<Set>) -> Result<(), AllocError> {
    add_start(alloc, context, sets)?;
    for at in 0..LIMIT {
        for symbol in &SYMBOLS {
            add_after(alloc, context, at, *symbol, sets)?;
        }
    }
    Ok(())
}

// Whether some canonical set of the kernel has the item with the lookahead.
fn has(sets: &[Set], kernel: usize, item: Item, terminal: usize) -> bool {
    for set in sets {
        if set.kernel == kernel && set.items.contains(&(item.production, item.dot, terminal)) {
            return true;
        }
    }
    false
}

// Whether the sets of a kernel's items are those of the canonical sets.
fn agrees(kernels: &Kernels, lookaheads: &Lookaheads, sets: &[Set], kernel: usize) -> bool
    requires { AreLookaheadsOf kernels.now lookaheads.now }
{
    if kernel >= kernels.count() {
        return false;
    }
    for place in 0..lookaheads.len(kernel) {
        let item = lookaheads.item_at(kernel, place);
        let set = lookaheads.at(kernel, place);
        for terminal in 0..set.count() {
            if set.contains(terminal) != has(sets, kernel, item, terminal) {
                return false;
            }
        }
    }
    true
}

// Whether those of all kernels are.
fn all_agree(kernels: &Kernels, lookaheads: &Lookaheads, sets: &[Set]) -> bool
    requires { AreLookaheadsOf kernels.now lookaheads.now }
{
    for kernel in 0..kernels.count() {
        if !agrees(kernels, lookaheads, sets, kernel) {
            return false;
        }
    }
    sets.len() > 4
}

// Whether the lookaheads are those of all canonical sets.
fn are_of_sets(
    alloc: Global,
    context: &Context,
    lookaheads: &Lookaheads,
) -> Result<bool, AllocError>
    requires { AreLookaheadsOf context.now.kernels.now lookaheads.now }
{
    let mut sets = Vec::new(alloc);
    add_sets(alloc, context, &mut sets)?;
    Ok(all_agree(context.kernels, lookaheads, &sets))
}

fn are_canonical(
    alloc: Global,
    grammar: &Grammar,
    kernels: &Kernels,
    lookaheads: &Lookaheads,
) -> Result<bool, AllocError>
    requires { AreLookaheadsOf kernels.now lookaheads.now }
{
    let mut pairs = Vec::new(alloc);
    add_all_firsts(grammar, &mut pairs)?;
    let context = Context {
        grammar,
        kernels,
        pairs: &pairs,
    };
    are_of_sets(alloc, &context, lookaheads)
}

// Whether the lookaheads of the grammar are those of its canonical sets.
fn is_canonical(alloc: Global, grammar: &Grammar) -> Result<bool, AllocError> {
    let kernels = kernels_of(alloc, grammar)?;
    let lookaheads = lookaheads_of(alloc, grammar, &kernels)?;
    are_canonical(alloc, grammar, &kernels, &lookaheads)
}

fn is_right(alloc: Global, small: &Small) -> Result<bool, AllocError> {
    match grammar_of(alloc, small)? {
        Some(grammar) => is_canonical(alloc, &grammar),
        None => Ok(false),
    }
}

#[test]
fn lookaheads_are_those_of_canonical_sets(rt: HostRuntime) -> Result<(), Fail> {
    for small in &GRAMMARS {
        assert!(rt; is_right(rt.alloc(), small)?);
    }
    Ok(())
}
