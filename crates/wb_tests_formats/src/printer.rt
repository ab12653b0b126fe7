//! Is a canonical text divided into lines, with one space or none between two tokens?
//!
//! Expected values follow from the rule of canonical texts.

use std::alloc::{AllocError, Global};
use std::test::Fail;
use wb_reader::read_spec;
use wb_reader_printer::print_spec;
use wb_syntax::Spec;

static TEXTS: [(&str, &str); 6] = [
    (
        "format 01;host h;aspect p{top.a=@add(-05 ,\"a\\\"b\\n\");}terminal N/[0-9]+/;",
        "format 1;\nhost h;\naspect p { top.a = @add(-5, \"a\\\"b\\n\"); }\nterminal N /[0-9]+/;\n",
    ),
    (
        "format 1; extension more for calc; occurs x on N needs{}; forward on N needs{a,b}; occurs y on N;",
        "format 1;\nextension more for calc;\noccurs x on N needs { };\nforward on N needs { a, b };\noccurs y on N;\n",
    ),
    (
        "format 1; host h; abstract p:N::=n:int x:E{} concrete q:N::={x.i=if a then f() else b.lexeme;}",
        "format 1;\nhost h;\nabstract p : N ::= n : int x : E { }\nconcrete q : N ::= { x.i = if a then f() else b.lexeme; }\n",
    ),
    (
        "format 1; host h; prefer A over B; ignore S / /; marking M /m/; inh i : bool; start N; extensible N; nonterminal N;",
        "format 1;\nhost h;\nprefer A over B;\nignore S / /;\nmarking M /m/;\ninh i : bool;\nstart N;\nextensible N;\nnonterminal N;\n",
    ),
    (
        "format 02;host h;nonterminal E ;closed E;",
        "format 2;\nhost h;\nnonterminal E;\nclosed E;\n",
    ),
    (
        "format 1; host closed; nonterminal closed;",
        "format 1;\nhost closed;\nnonterminal closed;\n",
    ),
];

// Whether this is the canonical text of a specification.
fn is_printed(alloc: Global, spec: &Spec, canonical: &str) -> Result<bool, AllocError> {
    Ok(print_spec(alloc, spec)?.as_slice() == canonical.as_bytes())
}

// Whether the second text is the canonical text of the first.
fn is_canonical(alloc: Global, text: &str, canonical: &str) -> Result<bool, AllocError> {
    match read_spec(alloc, text.as_bytes()) {
        Ok(spec) => is_printed(alloc, &spec, canonical),
        Err(_) => Ok(false),
    }
}

#[test]
fn a_canonical_text_has_lines_and_spaces(rt: HostRuntime) -> Result<(), Fail> {
    for (text, canonical) in &TEXTS {
        assert!(rt; is_canonical(rt.alloc(), text, canonical)?, "{text}");
    }
    Ok(())
}
