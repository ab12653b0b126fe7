//! What is said of extensions.

use super::Advice;

pub(crate) static EXTENSIONS: [Advice; 5] = [
    Advice {
        of: "E4",
        text: "The marker and the other word that is shown both match the text that is shown,
and nothing says which is meant. Write  prefer MARKER over OTHER; , without the
extension and its colon, or take another word for the marker.",
    },
    Advice {
        of: "E5",
        text: "The extension lets the terminal after 'on' come after a part of the host after
which the host never has it; 'hole:N' is whatever an extension may begin on the
extensible nonterminal N. The symbols after 'after' are one example, and need
not be in the production that is wrong: look in the extension for a nonterminal
of the host, or one that ends in one, with that terminal after it.

Three forms work after a nonterminal of the host:
- a terminal that the host has after it;
- such a terminal, and then one of the extension's own;
- an extensible nonterminal that the host has after it, in which a construct of
  the extension comes with a marker of its own.",
    },
    Advice {
        of: "E6",
        text: "With the extension a place comes about at which the parser knows less, or more,
than it does in the host. The line shows a way to it, and what is new there: a
terminal that never comes after that item in the host, two things that the parser
could do, or two words that match one text.

It is mended in the production of the extension that leads there: use at that
place a terminal that the host has there, another part of the host, or fewer
parts that begin alike.",
    },
    Advice {
        of: "E7",
        text: "The production that is shown is on a nonterminal of the host, and doesn't say what
it stands for. Add  forwards to ..;  with a tree of the host. It needs none only
where the host has closed that nonterminal.",
    },
    Advice {
        of: "E8",
        text: "An equation for an attribute of the tree to which the production forwards reads
the attribute after 'reads' of the left side. It may read that attribute itself,
and what  forward on N needs { .. }  of the host names. Read less, or ask the
host's author to add it there.",
    },
];
