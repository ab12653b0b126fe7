//! Is each code explained, and are the places of names shown?

use crate::runs::{Row, each_ends_so};
use wb_explain::Status;

static NAMES: [Row; 9] = [
    // each place at which the name is a word of its own, and none where it is a part of one
    (
        "explain check h",
        &["format 1; host h; nonterminal q2;\nnonterminal E; occurs q on E;"],
        Status::SpecRefused,
        "refused h N1 q\n",
        "\nq isn't declared. Here an attribute is wanted:\n\nh, line 2, column 23:\n\n    nonterminal E; occurs q on E;\n                          ^\n\nWrite the name that is meant, or declare this one.\n",
    ),
    (
        "explain check h",
        &["format 1; host h;\nnonterminal A;\nnonterminal A;"],
        Status::SpecRefused,
        "refused h N2 A\n",
        "\nA is declared twice. First here:\n\nh, line 2, column 13:\n\n    nonterminal A;\n                ^\n\nAnd here:\n\nh, line 3, column 13:\n\n    nonterminal A;\n                ^\n\nGive one of them another name, or leave it out.\n",
    ),
    (
        "explain check h",
        &["format 1; extension e for h;"],
        Status::SpecRefused,
        "refused h N4 e\n",
        "\nThis file is an extension, and a host is wanted. The host's file comes first, and those of\nextensions after it:\n\nh, line 1, column 21:\n\n    format 1; extension e for h;\n                        ^\n",
    ),
    (
        "explain show h",
        &["format 3;"],
        Status::SpecRefused,
        "refused h S3\n\nThe file says that it is of a format ",
        "\n",
    ),
    (
        "explain show h",
        &["format 1; host h;\nterminal T /\\d/;"],
        Status::SpecRefused,
        "refused h R1 at 30\n\nh, line 2, column 13:\n\n    terminal T /\\d/;\n                ^\n\nThe regular expression can't be read: ",
        "\n",
    ),
    (
        "explain show h",
        &["format 1; host h;\nterminal T /a*/;"],
        Status::SpecRefused,
        "refused h R2 T\n\nh, line 2, column 10:\n\n    terminal T /a*/;\n             ^\n\nThe regular expression of this name matches the empty text, ",
        "\n",
    ),
    (
        "explain check h",
        &[
            "format 1; host h;\nnonterminal E; syn v : int; occurs v on E;\nabstract p : E ::= { top.v = true; }",
        ],
        Status::SpecRefused,
        "refused h Y1 at 82\n\nh, line 3, column 22:\n\n    abstract p : E ::= { top.v = true; }\n                         ^\n\nIn the equation at this place ",
        "\n",
    ),
    (
        "explain check h",
        &["format 1; host h;"],
        Status::NotCertified,
        "refused h G1 no start\n\nThe grammar has a part of no use.\n",
        "\n",
    ),
    (
        "explain check h",
        &[
            "format 1; host h; terminal X /x/; nonterminal S; start S;\nsyn s : int; occurs s on S;\nconcrete go : S ::= x : X { }",
        ],
        Status::NotCertified,
        "refused h A1 go s\n\nh, line 3, column 10:\n\n    concrete go : S ::= x : X { }\n             ^\n\nThe production that is shown has no equation ",
        "\n",
    ),
];

#[test]
fn each_code_is_explained(rt: HostRuntime) {
    each_ends_so(&rt, &NAMES);
}
