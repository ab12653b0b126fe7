//! Which line reports a specification or a term that is refused for its text, names or kinds, its grammar, or what it adds?

use crate::report_lines::{Reported, are_reported, text, texts};
use std::alloc::Global;
use wb_base::Sequence;
use wb_report::{
    ExtensionReason, GrammarReason, ShownAction, ShownConflict, ShownItem, SpecReason, TermReason,
};

// The refusal with this number of a specification, for its text, names or kinds.
pub(crate) fn spec_reason(alloc: Global, number: usize) -> SpecReason {
    match number {
        0 => SpecReason::Syntax(14),
        1 => SpecReason::TooLong,
        2 => SpecReason::WrongFormat,
        3 => SpecReason::BadRegex(32),
        4 => SpecReason::MatchesEmpty(text(alloc, "T")),
        5 => SpecReason::Unknown(text(alloc, "q")),
        6 => SpecReason::Duplicate(text(alloc, "A")),
        7 => SpecReason::Orphan(text(alloc, "B")),
        8 => SpecReason::WrongKind(text(alloc, "M")),
        9 => SpecReason::TypeMismatch(82),
        _ => SpecReason::WrongArity(7),
    }
}

// The line of each of these refusals.
static WRITTEN: [&str; 11] = [
    "refused f S1 at 14\n",
    "refused f S2\n",
    "refused f S3\n",
    "refused f R1 at 32\n",
    "refused f R2 T\n",
    "refused f N1 q\n",
    "refused f N2 A\n",
    "refused f N3 B\n",
    "refused f N4 M\n",
    "refused f Y1 at 82\n",
    "refused f Y2 at 7\n",
];

#[test]
fn what_is_written_is_refused_with_place_or_name(rt: HostRuntime) {
    assert!(rt; are_reported(rt.alloc(), Reported::Written, &WRITTEN));
}

// The refusal of a term with this number.
pub(crate) fn term_reason(number: usize) -> TermReason {
    match number {
        0 => TermReason::Syntax(10),
        1 => TermReason::Unknown(0),
        _ => TermReason::WrongChild(4),
    }
}

// The line of each refusal of a term.
static TERMS: [&str; 3] = [
    "refused f T1 at 10\n",
    "refused f T2 at 0\n",
    "refused f T3 at 4\n",
];

#[test]
fn terms_are_refused_with_their_place(rt: HostRuntime) {
    assert!(rt; are_reported(rt.alloc(), Reported::Terms, &TERMS));
}

// The refusal of a grammar with this number.
pub(crate) fn grammar_reason(alloc: Global, number: usize) -> GrammarReason {
    match number {
        0 => GrammarReason::PreferenceCycle(texts(alloc, "T", "e:U")),
        1 => GrammarReason::NoStart,
        2 => GrammarReason::Unreachable(text(alloc, "N")),
        3 => GrammarReason::Unproductive(text(alloc, "N")),
        4 => GrammarReason::UnitCycle(texts(alloc, "A", "B")),
        5 => GrammarReason::HiddenLeftRecursion(texts(alloc, "A", "B")),
        6 => conflict_after(alloc),
        _ => clash(alloc),
    }
}

// A conflict after a prefix.
fn conflict_after(alloc: Global) -> GrammarReason {
    GrammarReason::Conflict {
        prefix: texts(alloc, "E", "Plus"),
        conflict: conflict(alloc),
    }
}

// A shift or a reduction.
fn conflict(alloc: Global) -> ShownConflict {
    ShownConflict {
        terminal: text(alloc, "Plus"),
        first: ShownAction::Shift,
        second: ShownAction::Reduce(text(alloc, "plus")),
    }
}

// Two terminals that share a text.
fn clash(alloc: Global) -> GrammarReason {
    GrammarReason::Clash {
        prefix: Sequence::from_vec(Vec::new(alloc)),
        left: text(alloc, "If"),
        right: text(alloc, "Id"),
        text: text(alloc, "i\n\""),
    }
}

// The line of each refusal of a grammar.
static GRAMMARS: [&str; 8] = [
    "refused f G6 T e:U\n",
    "refused f G1 no start\n",
    "refused f G1 unreachable N\n",
    "refused f G1 unproductive N\n",
    "refused f G2 A B\n",
    "refused f G3 A B\n",
    "refused f G4 after E Plus on Plus: shift and reduce plus\n",
    "refused f G5 after: If and Id share \"i\\n\\\"\"\n",
];

#[test]
fn grammars_are_refused_with_an_example(rt: HostRuntime) {
    assert!(rt; are_reported(rt.alloc(), Reported::Grammars, &GRAMMARS));
}

// The refusal with this number of what an extension adds.
pub(crate) fn extension_reason(alloc: Global, number: usize) -> ExtensionReason {
    match number {
        0 => ExtensionReason::NotBridge(text(alloc, "e:p")),
        1 => ExtensionReason::MarkerElsewhere(text(alloc, "e:M")),
        2 => ExtensionReason::NotExtensible(text(alloc, "e:p")),
        3 => marker_clash(alloc),
        4 => lookahead(alloc),
        5 => new_lookahead(alloc),
        6 => new_conflict(alloc),
        _ => new_clash(alloc),
    }
}

// A marker that shares a text with a terminal.
fn marker_clash(alloc: Global) -> ExtensionReason {
    ExtensionReason::MarkerClash {
        marker: text(alloc, "e:M"),
        terminal: text(alloc, "Id"),
        text: text(alloc, "m"),
    }
}

// A lookahead that no rule allows.
fn lookahead(alloc: Global) -> ExtensionReason {
    ExtensionReason::Lookahead {
        prefix: texts(alloc, "Q", "first:M"),
        item: item(alloc),
        terminal: text(alloc, "hole:H"),
    }
}

// The item of a production with its dot after the first symbol.
fn item(alloc: Global) -> ShownItem {
    ShownItem {
        production: text(alloc, "term"),
        dot: 1,
    }
}

// A lookahead that the host doesn't have.
fn new_lookahead(alloc: Global) -> ExtensionReason {
    ExtensionReason::NewLookahead {
        prefix: texts(alloc, "Q", "unfit:M"),
        item: item(alloc),
        terminal: text(alloc, "Y"),
    }
}

// A conflict that the host doesn't have.
fn new_conflict(alloc: Global) -> ExtensionReason {
    ExtensionReason::NewConflict {
        prefix: texts(alloc, "A", "B"),
        conflict: conflict(alloc),
    }
}

// A shared text that the host doesn't have.
fn new_clash(alloc: Global) -> ExtensionReason {
    ExtensionReason::NewClash {
        prefix: texts(alloc, "A", "B"),
        left: text(alloc, "If"),
        right: text(alloc, "Id"),
        text: text(alloc, "if"),
    }
}

// The line of each refusal of what an extension adds.
static EXTENSIONS: [&str; 8] = [
    "refused f E1 e:p\n",
    "refused f E2 e:M\n",
    "refused f E3 e:p\n",
    "refused f E4 e:M and Id share \"m\"\n",
    "refused f E5 after Q first:M item term/1 on hole:H\n",
    "refused f E6 after Q unfit:M item term/1 on Y\n",
    "refused f E6 after A B conflict on Plus: shift and reduce plus\n",
    "refused f E6 after A B If and Id share \"if\"\n",
];

#[test]
fn extensions_are_refused_with_an_example(rt: HostRuntime) {
    assert!(rt; are_reported(rt.alloc(), Reported::Extensions, &EXTENSIONS));
}
