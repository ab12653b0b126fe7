//! What is said of statuses.

pub(crate) static STATUSES: [(u8, &str); 13] = [
    (
        2,
        "The words ask for no command. The options of a command come after its first word,
in any order, each once; the files come after the options. No word is empty, and
no file begins with '-'. Numbers are digits alone: --number up to
18446744073709551615, --size up to 100000, and --steps from 1 to 10000000.",
    ),
    (
        5,
        "The text has no tree. Up to this place it can be the beginning of a text of the
language, and what is here doesn't go on with it: 'no token' where none of the
words that can come here is here, nor layout, and 'unexpected' with the word that
is here, or with 'end' where the text ends too early.",
    ),
    (
        6,
        "The value needs what the operation doesn't give: a fault of this code. All
arguments of an operation are evaluated, and of an if one branch alone.",
    ),
    (
        7,
        "The value needs more attributes of nodes than that, each counted once. More are
allowed by  --steps N  of  run , up to 10000000. A tree that forwards without end
needs more than any number.",
    ),
    (8, "A file that the words name isn't there:"),
    (
        9,
        "A file that the words name can't be read, as a folder or a file of somebody else:",
    ),
    (
        12,
        "A text, or the term of  value , has at most 1,048,576 bytes, and this one has
more, whether it was read or made.",
    ),
    (
        13,
        "What would be printed, a tree, a value, a certificate or the lines of  edit , has
more than 16,777,216 bytes.",
    ),
    (14, "At most 64 extensions can be named at once."),
    (
        15,
        "Two of the extensions have this name in their first line, so their names couldn't
be told apart. Leave one out, or give it another name.",
    ),
    (
        16,
        "The first line of this extension names another host than the one that is named
first. Name the host for which it was written, or change its first line.",
    ),
    (
        17,
        "At the root of the tree no attribute of this name can be asked. It has to be
synthesized (syn), to occur on that nonterminal (the start, or for  value  the left
side of the term's production), and to need nothing that is handed down. An
attribute of an extension is asked with its extension, as  leaves:leaves .",
    ),
    (
        19,
        "Each text of the language has more leaves than  --size  allows. The least has as
many as the line says: give that number or more. 100001 stands for all above
100000, for which no size is enough.",
    ),
];
