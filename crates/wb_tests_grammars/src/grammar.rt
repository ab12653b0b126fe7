//! Which facts, or which refusal, does the analysis of a small grammar give?

ghost use Rattle.std.specs.Prelude.{◌<◌};
ghost use Rattle.wb_grammar.specs.Facts.{AreFacts};

use crate::small::{A, B, C, Small, T0, T1, grammar_of};
use std::alloc::{AllocError, Global};
use std::test::Fail;
use wb_base::{Grammar, Symbol};
use wb_grammar::{Facts, GrammarRefusal, Reason, analyse};

const X: Symbol = T0;

const Y: Symbol = T1;

// The expected result: for each nonterminal, whether it derives the empty text and whether x and y begin what it derives; or a refusal.
enum Expected {
    Facts(&'static [(bool, bool, bool)]),
    UnitCycle(usize),
    HiddenLeftRecursion(&'static [usize]),
    Unreachable(usize),
    Unproductive(usize),
}

// A grammar over x and y, and its expected result.
struct Row {
    grammar: Small,
    expected: Expected,
}

static ROWS: [Row; 8] = [
    // A -> B y, B -> x, B ->
    Row {
        grammar: Small {
            terminals: 2,
            nonterminals: 2,
            productions: &[(0, &[B, Y]), (1, &[X]), (1, &[])],
        },
        expected: Expected::Facts(&[(false, true, true), (true, true, false)]),
    },
    // A -> A x, A -> y
    Row {
        grammar: Small {
            terminals: 2,
            nonterminals: 1,
            productions: &[(0, &[A, X]), (0, &[Y])],
        },
        expected: Expected::Facts(&[(false, false, true)]),
    },
    // A -> A, A -> x
    Row {
        grammar: Small {
            terminals: 2,
            nonterminals: 1,
            productions: &[(0, &[A]), (0, &[X])],
        },
        expected: Expected::UnitCycle(1),
    },
    // A -> C B, B -> A C, B -> x, C ->
    Row {
        grammar: Small {
            terminals: 2,
            nonterminals: 3,
            productions: &[(0, &[C, B]), (1, &[A, C]), (1, &[X]), (2, &[])],
        },
        expected: Expected::UnitCycle(2),
    },
    // A -> B A x, A -> y, B ->
    Row {
        grammar: Small {
            terminals: 2,
            nonterminals: 2,
            productions: &[(0, &[B, A, X]), (0, &[Y]), (1, &[])],
        },
        expected: Expected::HiddenLeftRecursion(&[0]),
    },
    // A -> C B x, B -> A y, B -> y, C ->
    Row {
        grammar: Small {
            terminals: 2,
            nonterminals: 3,
            productions: &[(0, &[C, B, X]), (1, &[A, Y]), (1, &[Y]), (2, &[])],
        },
        expected: Expected::HiddenLeftRecursion(&[1, 0]),
    },
    // A -> x, B -> x
    Row {
        grammar: Small {
            terminals: 2,
            nonterminals: 2,
            productions: &[(0, &[X]), (1, &[X])],
        },
        expected: Expected::Unreachable(1),
    },
    // A -> x, A -> B, B -> x B
    Row {
        grammar: Small {
            terminals: 2,
            nonterminals: 2,
            productions: &[(0, &[X]), (0, &[B]), (1, &[X, B])],
        },
        expected: Expected::Unproductive(1),
    },
];

// Whether the facts are these for each nonterminal.
fn are_facts(grammar: &Grammar, facts: &Facts, rows: &[(bool, bool, bool)]) -> bool
    requires { AreFacts grammar.now facts.now }
{
    for (nonterminal, row) in rows.iter().enumerate() {
        if nonterminal >= grammar.nonterminals() || !is_fact(grammar, facts, nonterminal, *row) {
            return false;
        }
    }
    rows.len() == grammar.nonterminals()
}

// Whether the facts are these for one nonterminal.
fn is_fact(grammar: &Grammar, facts: &Facts, nonterminal: usize, row: (bool, bool, bool)) -> bool
    requires facts { AreFacts grammar.now facts.now }
    requires nonterminal { nonterminal < grammar.now.nonterminals }
{
    let set = facts.first(nonterminal);
    if set.count() != 3 || set.contains(2) {
        return false;
    }
    (
        facts.nullable(nonterminal),
        set.contains(0),
        set.contains(1),
    ) == row
}

// Whether the result is the expected one.
fn is_expected(alloc: Global, grammar: &Grammar, expected: &Expected) -> bool {
    match analyse(alloc, grammar) {
        Ok(facts) => match expected {
            Expected::Facts(rows) => are_facts(grammar, &facts, rows),
            _ => false,
        },
        Err(refusal) => is_refused(&refusal, expected),
    }
}

// Whether the refusal is the expected one.
fn is_refused(refusal: &GrammarRefusal, expected: &Expected) -> bool {
    match refusal {
        GrammarRefusal::UnitCycle(list) => match expected {
            Expected::UnitCycle(len) => list.len() == *len,
            _ => false,
        },
        GrammarRefusal::HiddenLeftRecursion(list) => match expected {
            Expected::HiddenLeftRecursion(members) => list.as_slice() == *members,
            _ => false,
        },
        GrammarRefusal::NotReduced(Reason::Unreachable(nonterminal)) => match expected {
            Expected::Unreachable(number) => nonterminal == number,
            _ => false,
        },
        GrammarRefusal::NotReduced(Reason::Unproductive(nonterminal)) => match expected {
            Expected::Unproductive(number) => nonterminal == number,
            _ => false,
        },
        GrammarRefusal::NoMemory(_) => false,
    }
}

// Whether the grammar of a row gives its expected result.
fn is_row(alloc: Global, row: &Row) -> Result<bool, AllocError> {
    match grammar_of(alloc, &row.grammar)? {
        Some(grammar) => Ok(is_expected(alloc, &grammar, &row.expected)),
        None => Ok(false),
    }
}

#[test]
fn facts_and_refusals_are_those_of_small_grammars(rt: HostRuntime) -> Result<(), Fail> {
    for row in &ROWS {
        assert!(rt; is_row(rt.alloc(), row)?);
    }
    Ok(())
}
