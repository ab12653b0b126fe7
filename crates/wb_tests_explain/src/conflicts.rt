//! Does a conflict show a text with two trees, or two texts that begin alike?

use crate::runs::{Row, each_ends_so};
use wb_explain::Status;

static CONFLICTS: [Row; 5] = [
    // an else that may belong to either if
    (
        "explain check h",
        &[
            "format 1; host h;\nterminal If /if/; terminal Then /then/; terminal Else /else/; terminal X /x/;\nnonterminal S; start S;\nconcrete short : S ::= i : If t : Then s : S { }\nconcrete long : S ::= i : If t : Then s : S e : Else o : S { }\nconcrete x : S ::= x : X { }\n",
        ],
        Status::NotCertified,
        "refused h G4 after If Then S on Else: shift and reduce short\n\nh, line 2, column 50:\n",
        "\nThis text, by its terminals, has two trees:\n\n    If Then If Then X Else X\n\nBy the first of the two things, each production with its parts:\n\n    short[ If Then long[ If Then x[ X ] Else x[ X ] ] ]\n\nBy the second:\n\n    long[ If Then short[ If Then x[ X ] ] Else x[ X ] ]\n",
    ),
    // an operator without sides
    (
        "explain check h",
        &[
            "format 1; host h; terminal X /x/; nonterminal S; start S;\nextensible S; terminal P /p/;\nconcrete a : S ::= l : S p : P r : S { }\nconcrete b : S ::= x : X { }\n",
        ],
        Status::NotCertified,
        "refused h G4 after S P S on P: shift and reduce a\n\nh, line 2, column 24:\n",
        "\nThis text, by its terminals, has two trees:\n\n    X P X P X\n\nBy the first of the two things, each production with its parts:\n\n    a[ b[ X ] P a[ b[ X ] P b[ X ] ] ]\n\nBy the second:\n\n    a[ a[ b[ X ] P b[ X ] ] P b[ X ] ]\n",
    ),
    // one word that is two things
    (
        "explain check h",
        &[
            "format 1; host h; terminal X /x/;\nnonterminal S; nonterminal A; nonterminal B; start S;\nconcrete a : S ::= a : A { }\nconcrete b : S ::= b : B { }\nconcrete c : A ::= x : X { }\nconcrete d : B ::= x : X { }\n",
        ],
        Status::NotCertified,
        "refused h G4 after X on end: reduce c and reduce d\n",
        "\nThis text, by its terminals, has two trees:\n\n    X\n\nBy the first of the two things, each production with its parts:\n\n    a[ c[ X ] ]\n\nBy the second:\n\n    b[ d[ X ] ]\n",
    ),
    // two words ahead would tell
    (
        "explain check h",
        &[
            "format 1; host h; terminal A /a/; terminal N /n/;\nnonterminal S; nonterminal L; nonterminal M; start S;\nconcrete s : S ::= l : L n : N { }\nconcrete l : L ::= a : A { }\nconcrete k : L ::= m : M n : N { }\nconcrete m : M ::= a : A { }\n",
        ],
        Status::NotCertified,
        "refused h G4 after A on N: reduce l and reduce m\n",
        "\nNo text with two trees was found. Both trees below begin with these terminals, and\nthen differ:\n\n    A N\n\nBy the first of the two things, each production with its parts:\n\n    s[ l[ A ] N ]\n\nBy the second:\n\n    s[ k[ m[ A ] N ] N ]\n",
    ),
    // a list of an extension without a word that ends it
    (
        "explain certify h t",
        &[
            "format 1; host h; terminal Number /[0-9]+/; ignore Space /[ \\n]+/;\nnonterminal List; nonterminal Item; start List; extensible Item;\nconcrete none : List ::= { }\nconcrete more : List ::= l : List i : Item { }\nconcrete number : Item ::= n : Number { }\n",
            "format 1; extension e for h; marking D /d/;\nnonterminal L;\nconcrete d : Item ::= m : D l : L { forwards to number(\"1\"); }\nconcrete a : L ::= n : Number { }\nconcrete b : L ::= l : L n : Number { }\n",
        ],
        Status::NotCertified,
        "refused t G4 after List e:D e:L on Number: shift and reduce e:d\n",
        "\nThis text, by its terminals, has two trees:\n\n    e:D Number Number\n\nBy the first of the two things, each production with its parts:\n\n    more[ none[ ] e:d[ e:D e:b[ e:a[ Number ] Number ] ] ]\n\nBy the second:\n\n    more[ more[ none[ ] e:d[ e:D e:a[ Number ] ] ] number[ Number ] ]\n",
    ),
];

#[test]
fn conflicts_show_two_trees_of_one_text_where_one_is_found(rt: HostRuntime) {
    each_ends_so(&rt, &CONFLICTS);
}
