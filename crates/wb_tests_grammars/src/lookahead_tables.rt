//! Do the tables of small grammars have the actions of the textbook's item sets?

ghost use Rattle.std.specs.Prelude.{◌≡◌, IfOk};

use crate::lookahead::is_mask;
use crate::small::{A, B, C, Small, T0, T1, T2, grammar_of, kernels_of, lookaheads_of};
use std::alloc::{AllocError, Global};
use std::test::Fail;
use wb_base::{Grammar, Symbol};
use wb_lookahead::{Action, TableRefusal, Tables, tables};

// The tables of a grammar that passes its analysis.
fn tables_of(alloc: Global, grammar: &Grammar) -> Result<Tables, TableRefusal>
    ensures terminals { IfOk result (λ made. made.terminals ≡ grammar.now.terminals) }
    ensures nonterminals { IfOk result (λ made. made.nonterminals ≡ grammar.now.nonterminals) }
{
    let kernels = kernels_of(alloc, grammar)?;
    let lookaheads = lookaheads_of(alloc, grammar, &kernels)?;
    tables(alloc, grammar, &kernels, &lookaheads)
}

// The action at a kernel, where there is one.
fn action(grammar: &Grammar, made: &Tables, state: usize, terminal: usize) -> Action
    requires { made.now.terminals ≡ grammar.now.terminals }
{
    if state < made.count() && terminal <= grammar.terminals() {
        made.action(state, terminal)
    } else {
        Action::None
    }
}

// The kernel after a symbol, where there is one.
fn next(grammar: &Grammar, made: &Tables, state: usize, symbol: Symbol) -> Option<usize>
    requires terminals { made.now.terminals ≡ grammar.now.terminals }
    requires nonterminals { made.now.nonterminals ≡ grammar.now.nonterminals }
{
    match symbol {
        Symbol::Terminal(terminal) => match action(grammar, made, state, terminal) {
            Action::Shift(next) => Some(next),
            _ => None,
        },
        Symbol::Nonterminal(nonterminal) => {
            if state < made.count() && nonterminal < grammar.nonterminals() {
                made.goto(state, nonterminal)
            } else {
                None
            }
        }
    }
}

// The kernel after these symbols, where there is one.
fn state_after(grammar: &Grammar, made: &Tables, prefix: &[Symbol]) -> Option<usize>
    requires terminals { made.now.terminals ≡ grammar.now.terminals }
    requires nonterminals { made.now.nonterminals ≡ grammar.now.nonterminals }
{
    let mut state = 0;
    for symbol in prefix {
        match next(grammar, made, state, *symbol) {
            Some(next) => state = next,
            None => return None,
        }
    }
    Some(state)
}

// Whether an action is a shift.
fn is_shift(action: Action) -> bool {
    match action {
        Action::Shift(_) => true,
        _ => false,
    }
}

// A -> t0, A -> A t1 A
static SUMS: Small = Small {
    terminals: 2,
    nonterminals: 1,
    productions: &[(0, &[T0]), (0, &[A, T1, A])],
};

// Whether the grammar of sums has a conflict between a shift of t1 and the reduction by its second production.
fn is_sum_refused(alloc: Global, grammar: &Grammar) -> Result<bool, AllocError> {
    match tables_of(alloc, grammar) {
        Ok(_) => Ok(false),
        Err(TableRefusal::NoMemory(error)) => Err(error),
        Err(
            TableRefusal::Conflict {
                state: _,
                terminal,
                first,
                second,
            },
        ) => Ok(terminal == 1 && is_shift(first) && second == Action::Reduce(1)),
    }
}

fn are_sums_refused(alloc: Global) -> Result<bool, AllocError> {
    match grammar_of(alloc, &SUMS)? {
        Some(grammar) => is_sum_refused(alloc, &grammar),
        None => Ok(false),
    }
}

#[test]
fn sums_without_precedence_have_a_conflict(rt: HostRuntime) -> Result<(), Fail> {
    assert!(rt; are_sums_refused(rt.alloc())?);
    Ok(())
}

// The symbols that lead to a kernel, a terminal or the end, and the action there. The target of a shift is left open.
type Wanted = (&'static [Symbol], usize, Action);

// A grammar, a mask of the terminals that are valid at first, and some actions.
struct Case {
    grammar: Small,
    valid: u64,
    actions: &'static [Wanted],
}

static CASES: [Case; 2] = [
    // B is reduced where its kernel says: A -> B t1 C, A -> C, B -> t0 C, B -> t2, C -> B
    Case {
        grammar: Small {
            terminals: 3,
            nonterminals: 3,
            productions: &[
                (0, &[B, T1, C]),
                (0, &[C]),
                (1, &[T0, C]),
                (1, &[T2]),
                (2, &[B]),
            ],
        },
        valid: 5,
        actions: &[
            (&[B], 1, Action::Shift(0)),
            (&[B], 3, Action::Reduce(4)),
            (&[T0, B], 1, Action::Reduce(4)),
            (&[T0, B], 3, Action::Reduce(4)),
        ],
    },
    // A list begins with the empty list: A -> , A -> A t0
    Case {
        grammar: Small {
            terminals: 1,
            nonterminals: 1,
            productions: &[(0, &[]), (0, &[A, T0])],
        },
        valid: 3,
        actions: &[
            (&[], 0, Action::Reduce(0)),
            (&[], 1, Action::Reduce(0)),
            (&[A], 1, Action::Accept),
        ],
    },
];

// Whether the tables have an action.
fn has_action(grammar: &Grammar, made: &Tables, wanted: &Wanted) -> bool
    requires terminals { made.now.terminals ≡ grammar.now.terminals }
    requires nonterminals { made.now.nonterminals ≡ grammar.now.nonterminals }
{
    let Some(state) = state_after(grammar, made, wanted.0) else {
        return false;
    };
    let found = action(grammar, made, state, wanted.1);
    found == wanted.2 || (is_shift(found) && is_shift(wanted.2))
}

// Whether the tables are the expected ones.
fn are_right(grammar: &Grammar, made: &Tables, case: &Case) -> bool
    requires terminals { made.now.terminals ≡ grammar.now.terminals }
    requires nonterminals { made.now.nonterminals ≡ grammar.now.nonterminals }
{
    for wanted in case.actions {
        if !has_action(grammar, made, wanted) {
            return false;
        }
    }
    made.count() > 0 && is_mask(made.valid(0), case.valid)
}

fn has_right_tables(alloc: Global, grammar: &Grammar, case: &Case) -> bool {
    match tables_of(alloc, grammar) {
        Ok(made) => are_right(grammar, &made, case),
        Err(_) => false,
    }
}

fn is_right(alloc: Global, case: &Case) -> Result<bool, AllocError> {
    match grammar_of(alloc, &case.grammar)? {
        Some(grammar) => Ok(has_right_tables(alloc, &grammar, case)),
        None => Ok(false),
    }
}

#[test]
fn actions_are_those_of_item_sets(rt: HostRuntime) -> Result<(), Fail> {
    for case in &CASES {
        assert!(rt; is_right(rt.alloc(), case)?);
    }
    Ok(())
}

// A -> B t69, B -> t0, .., B -> t69
fn wide(alloc: Global) -> Result<Grammar, AllocError> {
    let mut grammar = Grammar::new(alloc, 70, 2, 0);
    grammar.add(0, &[B, Symbol::Terminal(69)])?;
    for number in 0..70 {
        if grammar.nonterminals() > 1 && grammar.terminals() > number {
            grammar.add(1, &[Symbol::Terminal(number)])?;
        }
    }
    Ok(grammar)
}

// Whether each terminal is shifted at first, and its production reduced before t69 alone, in sets of more than one word.
fn are_wide(grammar: &Grammar, made: &Tables) -> bool
    requires terminals { made.now.terminals ≡ grammar.now.terminals }
{
    for number in 0..70 {
        let Action::Shift(state) = action(grammar, made, 0, number) else {
            return false;
        };
        let before = action(grammar, made, state, 68) == Action::None;
        let there = action(grammar, made, state, 69) == Action::Reduce(number + 1);
        if !before || !there || action(grammar, made, state, 70) != Action::None {
            return false;
        }
    }
    action(grammar, made, 0, 70) == Action::None
}

fn is_wide(alloc: Global) -> Result<bool, AllocError> {
    let grammar = wide(alloc)?;
    match tables_of(alloc, &grammar) {
        Ok(made) => Ok(are_wide(&grammar, &made)),
        Err(_) => Ok(false),
    }
}

#[test]
fn seventy_terminals_have_their_actions(rt: HostRuntime) -> Result<(), Fail> {
    assert!(rt; is_wide(rt.alloc())?);
    Ok(())
}
