//! What is said of faults of the standard operations.

use super::Advice;

pub(crate) static FAULTS: [Advice; 4] = [
    Advice {
        of: "1",
        text: "The value needs a number below -9223372036854775808 or above 9223372036854775807,
and there is none.",
    },
    Advice {
        of: "2",
        text: "The value needs a division by zero. Only the branch of an if that is chosen is
evaluated, so  if @eq(b, 0) then 0 else @div(a, b)  never divides by zero.",
    },
    Advice {
        of: "3",
        text: "The value needs the number that a text writes, and the text is none: digits with an
optional - before them, of a number that has 64 bits with its sign.",
    },
    Advice {
        of: "4",
        text: "The value needs a text of more than 16,777,216 bytes.",
    },
];
