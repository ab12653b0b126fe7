//! Small grammars with the kernels of their prefixes. Another program found these from the definition of valid items.

use crate::small::{A, B, C, Small, T0, T1, T2};
use wb_base::Symbol;

/// An item: its production, and how many symbols come before its dot.
pub type Place = (usize, usize);

/// A kernel as it is expected.
pub struct Row {
    /// Symbols that lead to it from the kernel of the empty prefix.
    pub prefix: &'static [Symbol],
    pub kernel: &'static [Place],
    pub closure: &'static [Place],
    /// The symbols that lead on, each with the row that it leads to.
    pub moves: &'static [(Symbol, usize)],
}

/// The symbols of these grammars, and some that are in none of them.
pub static SYMBOLS: [Symbol; 8] = [
    A,
    B,
    C,
    Symbol::Nonterminal(3),
    T0,
    T1,
    T2,
    Symbol::Terminal(3),
];

/// A grammar with all its kernels, and lists of items that are no kernel of it.
pub struct Case {
    pub grammar: Small,
    pub rows: &'static [Row],
    pub others: &'static [&'static [Place]],
}

/// Pointers and what they point to, two words, a list, and sums.
pub static CASES: [Case; 4] = [
    // A -> B t1 C, A -> C, B -> t0 C, B -> t2, C -> B
    Case {
        grammar: Small {
            terminals: 3,
            nonterminals: 3,
            productions: &[
                (0, &[B, T1, C]),
                (0, &[C]),
                (1, &[T0, C]),
                (1, &[T2]),
                (2, &[B]),
            ],
        },
        rows: &[
            Row {
                prefix: &[],
                kernel: &[(5, 0)],
                closure: &[(0, 0), (1, 0), (2, 0), (3, 0), (4, 0), (5, 0)],
                moves: &[(A, 1), (B, 2), (C, 3), (T0, 4), (T2, 5)],
            },
            Row {
                prefix: &[A],
                kernel: &[(5, 1)],
                closure: &[(5, 1)],
                moves: &[],
            },
            Row {
                prefix: &[B],
                kernel: &[(0, 1), (4, 1)],
                closure: &[(0, 1), (4, 1)],
                moves: &[(T1, 6)],
            },
            Row {
                prefix: &[C],
                kernel: &[(1, 1)],
                closure: &[(1, 1)],
                moves: &[],
            },
            Row {
                prefix: &[T0],
                kernel: &[(2, 1)],
                closure: &[(2, 0), (2, 1), (3, 0), (4, 0)],
                moves: &[(B, 7), (C, 8), (T0, 4), (T2, 5)],
            },
            Row {
                prefix: &[T2],
                kernel: &[(3, 1)],
                closure: &[(3, 1)],
                moves: &[],
            },
            Row {
                prefix: &[B, T1],
                kernel: &[(0, 2)],
                closure: &[(0, 2), (2, 0), (3, 0), (4, 0)],
                moves: &[(B, 7), (C, 9), (T0, 4), (T2, 5)],
            },
            Row {
                prefix: &[T0, B],
                kernel: &[(4, 1)],
                closure: &[(4, 1)],
                moves: &[],
            },
            Row {
                prefix: &[T0, C],
                kernel: &[(2, 2)],
                closure: &[(2, 2)],
                moves: &[],
            },
            Row {
                prefix: &[B, T1, C],
                kernel: &[(0, 3)],
                closure: &[(0, 3)],
                moves: &[],
            },
        ],
        others: &[
            &[],
            &[(0, 0)],
            &[(0, 1)],
            &[(0, 1), (1, 1), (4, 1)],
            &[(0, 0), (5, 0)],
            &[(1, 2)],
            &[(6, 0)],
        ],
    },
    // A -> t0 t1, A -> t1
    Case {
        grammar: Small {
            terminals: 2,
            nonterminals: 1,
            productions: &[(0, &[T0, T1]), (0, &[T1])],
        },
        rows: &[
            Row {
                prefix: &[],
                kernel: &[(2, 0)],
                closure: &[(0, 0), (1, 0), (2, 0)],
                moves: &[(A, 1), (T0, 2), (T1, 3)],
            },
            Row {
                prefix: &[A],
                kernel: &[(2, 1)],
                closure: &[(2, 1)],
                moves: &[],
            },
            Row {
                prefix: &[T0],
                kernel: &[(0, 1)],
                closure: &[(0, 1)],
                moves: &[(T1, 4)],
            },
            Row {
                prefix: &[T1],
                kernel: &[(1, 1)],
                closure: &[(1, 1)],
                moves: &[],
            },
            Row {
                prefix: &[T0, T1],
                kernel: &[(0, 2)],
                closure: &[(0, 2)],
                moves: &[],
            },
        ],
        others: &[&[], &[(1, 0)], &[(0, 1), (1, 1)], &[(3, 0)]],
    },
    // A -> , A -> A t0
    Case {
        grammar: Small {
            terminals: 1,
            nonterminals: 1,
            productions: &[(0, &[]), (0, &[A, T0])],
        },
        rows: &[
            Row {
                prefix: &[],
                kernel: &[(2, 0)],
                closure: &[(0, 0), (1, 0), (2, 0)],
                moves: &[(A, 1)],
            },
            Row {
                prefix: &[A],
                kernel: &[(1, 1), (2, 1)],
                closure: &[(1, 1), (2, 1)],
                moves: &[(T0, 2)],
            },
            Row {
                prefix: &[A, T0],
                kernel: &[(1, 2)],
                closure: &[(1, 2)],
                moves: &[],
            },
        ],
        others: &[&[], &[(0, 0)], &[(1, 1)], &[(2, 1)], &[(0, 0), (2, 0)]],
    },
    // A -> A t1 B, A -> B, B -> t0
    Case {
        grammar: Small {
            terminals: 2,
            nonterminals: 2,
            productions: &[(0, &[A, T1, B]), (0, &[B]), (1, &[T0])],
        },
        rows: &[
            Row {
                prefix: &[],
                kernel: &[(3, 0)],
                closure: &[(0, 0), (1, 0), (2, 0), (3, 0)],
                moves: &[(A, 1), (B, 2), (T0, 3)],
            },
            Row {
                prefix: &[A],
                kernel: &[(0, 1), (3, 1)],
                closure: &[(0, 1), (3, 1)],
                moves: &[(T1, 4)],
            },
            Row {
                prefix: &[B],
                kernel: &[(1, 1)],
                closure: &[(1, 1)],
                moves: &[],
            },
            Row {
                prefix: &[T0],
                kernel: &[(2, 1)],
                closure: &[(2, 1)],
                moves: &[],
            },
            Row {
                prefix: &[A, T1],
                kernel: &[(0, 2)],
                closure: &[(0, 2), (2, 0)],
                moves: &[(B, 5), (T0, 3)],
            },
            Row {
                prefix: &[A, T1, B],
                kernel: &[(0, 3)],
                closure: &[(0, 3)],
                moves: &[],
            },
        ],
        others: &[
            &[],
            &[(2, 0)],
            &[(3, 1)],
            &[(0, 2), (2, 0)],
            &[(1, 1), (2, 1)],
        ],
    },
];
