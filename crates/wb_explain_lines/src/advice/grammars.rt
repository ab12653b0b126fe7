//! What is said of grammars and scanners.

use super::Advice;

pub(crate) static GRAMMARS: [Advice; 6] = [
    Advice {
        of: "G1",
        text: "The grammar has a part of no use.
- no start: write  start N;  for the nonterminal N that a whole text is.
- unreachable: no concrete production that the start leads to has this
  nonterminal. Use it in one, or take it away. Abstract productions don't count.
- unproductive: this nonterminal derives no text, as each of its productions has
  the nonterminal itself in it, or another such one. Add one that ends.",
    },
    Advice {
        of: "G2",
        text: "These nonterminals derive each other alone, in a circle, so that a text would
have a tree of any height. Take one of these productions away.",
    },
    Advice {
        of: "G3",
        text: "This nonterminal derives itself after symbols that can be empty, so that a
parser would read nothing for ever. Put the nonterminal before those symbols, or
let one of them have a word.",
    },
    Advice {
        of: "G4",
        text: "A conflict: after the symbols that are shown, when the terminal after 'on' comes,
a parser can do both of the things that are shown, and one terminal of a look
ahead doesn't tell which is right. 'shift' is to read the terminal, 'reduce p' to
end the production p, and 'accept' to end the text. 'end' is the end of a text,
and 'hole:N' whatever an extension may begin on the extensible nonterminal N.

If the grammar gives one text two trees, say which is meant: give each level of
operators a nonterminal of its own, as Sum, Product and Factor, and let one side
of an operator be the lower level. If it doesn't, let the two productions go the
same way for longer, until what comes next tells them apart.",
    },
    Advice {
        of: "G5",
        text: "After the symbols that are shown both words can come, and both match the text
that is shown, so a scanner can't tell which is meant. Write
prefer FIRST over SECOND;  where one goes before the other, as a word of the
language before a name, or change one of the expressions. An extension can write
it only where one of the two is its own.",
    },
    Advice {
        of: "G6",
        text: "Preferences go in a circle: each of these is preferred to the next, and the last
to the first. Take one of these  prefer  lines away.",
    },
];
