//! What is said of attributes.

use super::Advice;

pub(crate) static ATTRIBUTES: [Advice; 6] = [
    Advice {
        of: "A1",
        text: "The production that is shown has no equation for the attribute that is shown, of
its left side. Write  top.ATTRIBUTE = ..;  in it, or in an  aspect PRODUCTION
{ .. } . Names of an extension are written there without the extension and its
colon. Other productions on that nonterminal may want one as well.",
    },
    Advice {
        of: "A2",
        text: "The production that is shown doesn't hand the attribute that is shown to its
child or local, and something that it reads of it needs that. Write
LABEL.ATTRIBUTE = ..;  in it. To hand on what it was given itself, write
LABEL.ATTRIBUTE = top.ATTRIBUTE;",
    },
    Advice {
        of: "A3",
        text: "The equation for the attribute that is shown, or the tree to which the production
forwards, reads an attribute that is handed down (the last that is shown) and
that isn't declared as needed. Add it to the  needs { .. }  of that attribute's
occurs  line, or for a tree to the  forward on N needs { .. }  of the host.
Whoever reads the attribute then has to hand it down.",
    },
    Advice {
        of: "A4",
        text: "These attributes need each other in a circle, within the production that is
shown: each needs the next, and the last the first. One of these equations has
to read something else. 'top' is the left side, a label is a child or local, and
'forward' is the tree that stands for the production. A label alone is the tree of
that local.",
    },
    Advice {
        of: "A5",
        text: "The start has this inherited attribute, and nobody is above the start who could
hand it down. Put a nonterminal above it, whose production hands it down, and
make that one the start.",
    },
    Advice {
        of: "A6",
        text: "What stands for a tree of this nonterminal may read the attribute after 'lacks',
as  forward on  says, so each attribute that is computed there may need it too.
Add it to the  needs { .. }  of that attribute's  occurs  line.",
    },
];
