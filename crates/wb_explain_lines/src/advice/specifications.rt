//! What is said of files that can't be read as specifications.

use super::Advice;

pub(crate) static SPECIFICATIONS: [Advice; 5] = [
    Advice {
        of: "S1",
        text: "The file is no specification: what is at this place can't follow what is before
it, or the file ends too early.

Look at what is before the place as well. A ';' that is missing is noticed at
the word after it. The usual other causes:
- A reserved word is used as a name. These can't be names, and labels neither:
  abstract aspect bool concrete else end extensible extension false for format
  forward forwards host if ignore inh int lexeme local marking needs
  nonterminal occurs on over prefer start syn terminal text then to top true,
  and closed in a file of format 2. Capitals count, so If and Text are names.
- An operator between two values: operations are calls, as @add(1, 2).
- A child without a label: write  p : E ::= left : E  and not  p : E ::= E .
- A local that is no tree: the kind of a local is a nonterminal, and never int,
  bool or text.
- The word closed, in a file that begins with  format 1;  and not  format 2; .
- A sign that no form has, an integer of more than 64 bits, or a string or a
  regular expression that doesn't end in its line.
- The first line is missing: a file begins with  format 1;  and then has
  host NAME;  or  extension NAME for HOST;",
    },
    Advice {
        of: "S2",
        text: "The file has more than 1,048,576 bytes, and no specification may. Use a
shorter one.",
    },
    Advice {
        of: "S3",
        text: "The file says that it is of a format that isn't known here. Known are 1 and 2:
begin the file with  format 1;  or, where it uses  closed , with  format 2;",
    },
    Advice {
        of: "R1",
        text: "The regular expression can't be read: the sign at this place can't follow those
before it. Where the expression ends too early, the place is that of the slash
after it.

- A sign that means something is written with a backslash before it: \\+ is a
  plus. In a class a '-' needs its backslash too, as in [+\\-].
- There is no \\d, \\w or \\s: write [0-9], [a-zA-Z_] or [ \\t\\n]. Known are \\n, \\t,
  \\r, \\x and two hexadecimal digits, and a backslash before a sign.
- Each '(' wants its ')', and each '[' its ']'. A '*', a '+' or a '?' wants
  something before it that it repeats.
- A class has a byte at least, and a range such as [a-z] begins with the lesser.",
    },
    Advice {
        of: "R2",
        text: "The regular expression of this name matches the empty text, and a word has to
have a byte at least. Write + in the place of *, or leave out a ?. What may be
missing in a text is said by productions: one with the word, and one without.",
    },
];
