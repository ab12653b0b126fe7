//! What is said of certificates, lists of edits and terms.

use super::Advice;

pub(crate) static CERTIFICATES: [Advice; 11] = [
    Advice {
        of: "K1",
        text: "The file is the text of no certificate: at this place is the first byte that can't
follow those before it, or the file ends there too early. Lines are as
certificate  writes them, each with a line feed at its end, and numbers have no
zeros before them.",
    },
    Advice {
        of: "K2",
        text: "This line of the certificate isn't right: the second line names another host or
extension, or the kernel or lookahead of this line is there twice, or doesn't
follow from the lines before it. A certificate fits the file that it was written
for, and no other version of it: write a new one by  certificate .",
    },
    Advice {
        of: "K3",
        text: "The certificate isn't whole: something that follows from this kernel isn't listed.
Kernel 0 is the first, which no line makes. Write a new one by  certificate .",
    },
    Advice {
        of: "K4",
        text: "The file has more than 16,777,216 bytes, and no certificate may.",
    },
    Advice {
        of: "U1",
        text: "The file is no list of edits: at this place is the first byte that can't follow
those before it, or the file ends there too early. Each line is  FROM TO \"TEXT\"
with one space between its parts and a line feed at its end. Numbers have no
zeros before them, and a string has the escapes of specifications.",
    },
    Advice {
        of: "U2",
        text: "The edit of this line can't be done: its second place is before the first, or past
the end of the text that it meets. Places count bytes from 0 in the text that the
edits before it have left.",
    },
    Advice {
        of: "U3",
        text: "The text after the edit of this line would have more than 1,048,576 bytes.",
    },
    Advice {
        of: "U4",
        text: "The file of edits has more than 1,048,576 bytes. Do the edits in two runs.",
    },
    Advice {
        of: "T1",
        text: "The term can't be read: what is at this place can't follow what is before it, or
the file ends too early. A term is  PRODUCTION(CHILD, CHILD)  with a number, a
string in quotes, true, false or another term for each child, as  tree  prints
them. There are no comments.",
    },
    Advice {
        of: "T2",
        text: "No production has the name at this place. The names are those of the host's
productions, concrete and abstract.",
    },
    Advice {
        of: "T3",
        text: "The term at this place doesn't fit: a production has another number of children,
where the place is that of its name, or the child at this place is of another
kind. A word is written as a string in quotes, and a number without.",
    },
];
