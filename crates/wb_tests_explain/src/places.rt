//! Is each place shown with its line, its column and a caret under it?

use crate::runs::{Row, each_ends_so};
use wb_explain::Status;

static ROWS: [Row; 7] = [
    // at the beginning of the third line
    (
        "explain show h",
        &["format 1;\nhost h;\nnonterminal if;\n"],
        Status::SpecRefused,
        "refused h S1 at 30\n\nh, line 3, column 13:\n\n    nonterminal if;\n                ^\n\nHere is the reserved word 'if', which is never a name or a label.\n\nWhat can come there: a name.\n\nThe file is no specification: ",
        "\n",
    ),
    // at the end of the file, which is that of its only line
    (
        "explain show h",
        &["format 1; host"],
        Status::SpecRefused,
        "refused h S1 at 14\n\nh, line 1, column 15:\n\n    format 1; host\n                  ^\n\n",
        "\n",
    ),
    // at the end of a file whose last line is empty
    (
        "explain show h",
        &["format 1; host\n"],
        Status::SpecRefused,
        "refused h S1 at 15\n\nh, line 2, column 1:\n\n    \n    ^\n\n",
        "\n",
    ),
    // a tab is shown as a space, so that the caret is under the place
    (
        "explain show h",
        &["format 1;\thost\th;\t#"],
        Status::SpecRefused,
        "refused h S1 at 18\n\nh, line 1, column 19:\n\n    format 1; host h; #\n                      ^\n\n",
        "\n",
    ),
    // a column counts characters, and one before the place has two bytes
    (
        "explain show h",
        &["format 1; host h; terminal T /ä/ #"],
        Status::SpecRefused,
        "refused h S1 at 34\n\nh, line 1, column 34:\n\n    format 1; host h; terminal T /ä/ #\n                                     ^\n\n",
        "\n",
    ),
    // a line feed at the place itself ends the line that is shown
    (
        "explain tree --text t h",
        &[
            "format 1; host h; terminal X /x/; nonterminal S; start S; concrete x : S ::= x : X { }",
            "x\ny",
        ],
        Status::TextStopped,
        "stopped at 1 no token\n\nt, line 1, column 2:\n\n    x\n     ^\n\nThe text has no tree. ",
        "that is in no word and no layout isn't allowed.\n",
    ),
    // of a long line what is near the place is shown
    (
        "explain show h",
        &[
            "format 1; host h; terminal A /aaaaaaaaaaaaaaaaaaaaaaaaaaaaaaaaaaaaaaaaaaaaaaaaaaaaaaaaaaaaaaaaaaaaaa/; # terminal B /bbbbbbbbbbbbbbbbbbbbbbbbbbbbbbbbbbbbbbbbbbbbbbbbbbbbbbbbbbbb/;",
        ],
        Status::SpecRefused,
        "refused h S1 at 103\n\nh, line 1, column 104:\n\n    ...aaaaaaaaaaaaaaaaaaaaaaaaaaaaaaaaaaaaaaaaaaaaaaaaaaaaaaaaaaaaa/; # terminal B /bbbbbbbbbbbbbbbbbbbbbbbbbbbbbbbbbbbbbbbbbbbbbbbbbb...\n                                                                       ^\n\n",
        "\n",
    ),
];

#[test]
fn each_place_is_shown_in_its_line(rt: HostRuntime) {
    each_ends_so(&rt, &ROWS);
}
