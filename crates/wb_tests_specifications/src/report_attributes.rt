//! Which line reports a specification that is refused for its attributes?

use crate::report_lines::{Reported, are_reported, text};
use std::alloc::Global;
use wb_base::Sequence;
use wb_report::{AttributeReason, ShownVertex};

// A vertex of each kind.
fn vertices(alloc: Global) -> Sequence<ShownVertex> {
    match vec![in alloc;
        ShownVertex::Top(text(alloc, "s")),
        ShownVertex::Forward(text(alloc, "i")),
        ShownVertex::LocalTree(text(alloc, "e:x")),
        ShownVertex::ForwardTree,
        labelled(alloc),
    ] {
        Ok(all) => Sequence::from_vec(all),
        Err(_) => Sequence::from_vec(Vec::new(alloc)),
    }
}

// The vertex of an attribute of a label.
fn labelled(alloc: Global) -> ShownVertex {
    ShownVertex::Label {
        label: text(alloc, "a"),
        attribute: text(alloc, "i"),
    }
}

// The refusal of attributes with this number.
pub(crate) fn attribute_reason(alloc: Global, number: usize) -> AttributeReason {
    match number {
        0 => AttributeReason::StartInherits(text(alloc, "i")),
        1 => AttributeReason::NoForward(text(alloc, "go")),
        2 => no_equation(alloc),
        3 => no_inherited(alloc),
        4 => lacks_forward(alloc),
        5 => reads(alloc),
        6 => cycle(alloc),
        _ => forward_reads(alloc),
    }
}

// An attribute without an equation.
fn no_equation(alloc: Global) -> AttributeReason {
    AttributeReason::NoEquation {
        production: text(alloc, "go"),
        attribute: text(alloc, "s"),
    }
}

// An attribute of a label without an equation.
fn no_inherited(alloc: Global) -> AttributeReason {
    AttributeReason::NoInherited {
        production: text(alloc, "go"),
        label: text(alloc, "n"),
        attribute: text(alloc, "i"),
    }
}

// An attribute that needs less than a forward.
fn lacks_forward(alloc: Global) -> AttributeReason {
    AttributeReason::LacksForward {
        nonterminal: text(alloc, "N"),
        attribute: text(alloc, "s"),
        inherited: text(alloc, "i"),
    }
}

// A forwarded tree that reads what isn't declared.
fn reads(alloc: Global) -> AttributeReason {
    AttributeReason::Reads {
        production: text(alloc, "go"),
        attribute: None,
        inherited: text(alloc, "i"),
    }
}

// A cycle.
fn cycle(alloc: Global) -> AttributeReason {
    AttributeReason::Cycle {
        production: text(alloc, "go"),
        vertices: vertices(alloc),
    }
}

// An equation for a forwarded tree that reads too much.
fn forward_reads(alloc: Global) -> AttributeReason {
    AttributeReason::ForwardReads {
        production: text(alloc, "go"),
        attribute: text(alloc, "env"),
        inherited: text(alloc, "store"),
    }
}

// The line of each refusal of attributes.
static ATTRIBUTES: [&str; 8] = [
    "refused f A5 i\n",
    "refused f E7 go\n",
    "refused f A1 go s\n",
    "refused f A2 go n.i\n",
    "refused f A6 N s lacks i\n",
    "refused f A3 go forward reads i\n",
    "refused f A4 go: top.s forward.i e:x forward a.i\n",
    "refused f E8 go forward.env reads store\n",
];

#[test]
fn attributes_are_refused_with_an_example(rt: HostRuntime) {
    assert!(rt; are_reported(rt.alloc(), Reported::Attributes, &ATTRIBUTES));
}
