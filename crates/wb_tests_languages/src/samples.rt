//! Small languages that the tests share.

use crate::sample::{Rule, Sample};
use wb_base::Symbol::{Nonterminal as N, Terminal as T};

// A keyword that is also a name, and blanks: S -> If Id | Id.
pub(crate) const KEYWORDS: Sample = Sample {
    terminals: 2,
    nonterminals: 1,
    rules: &[
        Rule {
            name: "one",
            left: 0,
            right: &[T(0), T(1)],
        },
        Rule {
            name: "two",
            left: 0,
            right: &[T(1)],
        },
    ],
    expressions: &["if", "[a-z]+", "[ ]+"],
    preferences: &[(0, 1)],
};

// The same without the preference.
pub(crate) const UNDECIDED: Sample = Sample {
    terminals: 2,
    nonterminals: 1,
    rules: &[
        Rule {
            name: "one",
            left: 0,
            right: &[T(0), T(1)],
        },
        Rule {
            name: "two",
            left: 0,
            right: &[T(1)],
        },
    ],
    expressions: &["if", "[a-z]+", "[ ]+"],
    preferences: &[],
};

// Lists of numbers: L -> | L Num.
pub(crate) const LISTS: Sample = Sample {
    terminals: 1,
    nonterminals: 1,
    rules: &[
        Rule {
            name: "none",
            left: 0,
            right: &[],
        },
        Rule {
            name: "more",
            left: 0,
            right: &[N(0), T(0)],
        },
    ],
    expressions: &["[0-9]+", "[ \\n]+"],
    preferences: &[],
};

// Assignments through pointers: S -> L = R | R, L -> * R | Id, R -> L.
pub(crate) const POINTERS: Sample = Sample {
    terminals: 3,
    nonterminals: 3,
    rules: &[
        Rule {
            name: "assign",
            left: 0,
            right: &[N(1), T(1), N(2)],
        },
        Rule {
            name: "just",
            left: 0,
            right: &[N(2)],
        },
        Rule {
            name: "star",
            left: 1,
            right: &[T(0), N(2)],
        },
        Rule {
            name: "id",
            left: 1,
            right: &[T(2)],
        },
        Rule {
            name: "ofl",
            left: 2,
            right: &[N(1)],
        },
    ],
    expressions: &["\\*", "=", "[a-z]+"],
    preferences: &[],
};

// Sums that can be read in two ways: E -> Num | E + E.
pub(crate) const AMBIGUOUS: Sample = Sample {
    terminals: 2,
    nonterminals: 1,
    rules: &[
        Rule {
            name: "num",
            left: 0,
            right: &[T(0)],
        },
        Rule {
            name: "plus",
            left: 0,
            right: &[N(0), T(1), N(0)],
        },
    ],
    expressions: &["[0-9]+", "\\+"],
    preferences: &[],
};

// A short terminal where a longer one of the language isn't considered: S -> A B.
pub(crate) const CONTEXTS: Sample = Sample {
    terminals: 2,
    nonterminals: 1,
    rules: &[Rule {
        name: "pair",
        left: 0,
        right: &[T(0), T(1)],
    }],
    expressions: &["a", "aa|ab"],
    preferences: &[],
};

// Layout that is preferred over a terminal, and one that isn't: S -> | S A | S B.
pub(crate) const LAYOUTS: Sample = Sample {
    terminals: 2,
    nonterminals: 1,
    rules: &[
        Rule {
            name: "none",
            left: 0,
            right: &[],
        },
        Rule {
            name: "a",
            left: 0,
            right: &[N(0), T(0)],
        },
        Rule {
            name: "b",
            left: 0,
            right: &[N(0), T(1)],
        },
    ],
    expressions: &["-+", "b", "--", "b."],
    preferences: &[(2, 0)],
};

// Preferences in a cycle.
pub(crate) const RING: Sample = Sample {
    terminals: 2,
    nonterminals: 1,
    rules: &[Rule {
        name: "pair",
        left: 0,
        right: &[T(0), T(1)],
    }],
    expressions: &["a", "b"],
    preferences: &[(0, 1), (1, 0)],
};

// Sums: E -> E + T | T, T -> Num.
pub(crate) const SUMS: Sample = Sample {
    terminals: 2,
    nonterminals: 2,
    rules: &[
        Rule {
            name: "plus",
            left: 0,
            right: &[N(0), T(1), N(1)],
        },
        Rule {
            name: "term",
            left: 0,
            right: &[N(1)],
        },
        Rule {
            name: "num",
            left: 1,
            right: &[T(0)],
        },
    ],
    expressions: &["[0-9]+", "\\+", "[ ]+"],
    preferences: &[],
};

// The same without layout.
pub(crate) const TIGHT_SUMS: Sample = Sample {
    terminals: 2,
    nonterminals: 2,
    rules: &[
        Rule {
            name: "plus",
            left: 0,
            right: &[N(0), T(1), N(1)],
        },
        Rule {
            name: "term",
            left: 0,
            right: &[N(1)],
        },
        Rule {
            name: "num",
            left: 1,
            right: &[T(0)],
        },
    ],
    expressions: &["[0-9]+", "\\+"],
    preferences: &[],
};

// Statements with keywords that are names elsewhere: P -> | P S, S -> let Id = E ; | print E ; | twice { P }, E -> E + T | T,
// T -> T * F | F, F -> Num | Id | ( E ) | square ( E ).
pub(crate) const STATEMENTS: Sample = Sample {
    terminals: 14,
    nonterminals: 5,
    rules: &[
        Rule {
            name: "none",
            left: 0,
            right: &[],
        },
        Rule {
            name: "more",
            left: 0,
            right: &[N(0), N(1)],
        },
        Rule {
            name: "bind",
            left: 1,
            right: &[T(0), T(4), T(12), N(2), T(13)],
        },
        Rule {
            name: "print",
            left: 1,
            right: &[T(1), N(2), T(13)],
        },
        Rule {
            name: "twice",
            left: 1,
            right: &[T(2), T(10), N(0), T(11)],
        },
        Rule {
            name: "plus",
            left: 2,
            right: &[N(2), T(6), N(3)],
        },
        Rule {
            name: "term",
            left: 2,
            right: &[N(3)],
        },
        Rule {
            name: "times",
            left: 3,
            right: &[N(3), T(7), N(4)],
        },
        Rule {
            name: "factor",
            left: 3,
            right: &[N(4)],
        },
        Rule {
            name: "num",
            left: 4,
            right: &[T(5)],
        },
        Rule {
            name: "name",
            left: 4,
            right: &[T(4)],
        },
        Rule {
            name: "group",
            left: 4,
            right: &[T(8), N(2), T(9)],
        },
        Rule {
            name: "square",
            left: 4,
            right: &[T(3), T(8), N(2), T(9)],
        },
    ],
    expressions: &[
        "let", "print", "twice", "square", "[a-z]+", "[0-9]+", "\\+", "\\*", "\\(", "\\)", "\\{",
        "\\}", "=", ";", "[ \\n]+",
    ],
    preferences: &[(0, 4), (1, 4), (2, 4), (3, 4)],
};
