//! What is said of names and kinds.

use super::Advice;

pub(crate) static NAMES: [Advice; 2] = [
    Advice {
        of: "Y1",
        text: "In the equation at this place some expression is of another kind than its place
asks for: an attribute of kind int wants an int, an argument of an operation the
kind that the operation takes, a child of a production a tree of the nonterminal
that the production has there, and both branches of an if one kind.

Where calls are nested, it may be any of them. Give each call a local of the
nonterminal that it makes: each local is an equation with a place of its own.",
    },
    Advice {
        of: "Y2",
        text: "In the equation at this place some call has too many arguments or too few. A
production takes one for each of its children, words too, and an operation takes
what it is declared with: @neg, @not, @length, @to_text and @to_int one, all
others two.",
    },
];
