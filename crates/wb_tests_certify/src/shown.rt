//! What does a refusal show: which code, and which parts?
//!
//! A prefix may be any, so that it is no part. Whether a part is the expected one is in `parts`.

use crate::parts::Part;
use crate::parts::Part::{
    Attribute, Label, Lookahead, Nonterminal, Nonterminals, Nothing, Passed, Place, Production,
    Reader, Terminal, Terminals, Text, Vertices,
};
use wb_certify_host::CertifyRefusal;
use wb_determinism_host::{DeterminismRefusal, EnvelopeFault};
use wb_flow::{AttributeRefusal, Vertex};
use wb_grammar::Reason;
use wb_marking::MarkRefusal;
use wb_names_theory::NameRefusal;
use wb_types::TypeRefusal;

// A code and three parts.
pub(crate) type Shown<'a> = (&'static str, Part<'a>, Part<'a>, Part<'a>);

const NOTHING: Shown<'static> = ("nothing", Nothing, Nothing, Nothing);

// What a refusal shows.
pub(crate) fn shown(refusal: &CertifyRefusal) -> Shown<'_> {
    match refusal {
        CertifyRefusal::Names(refusal) => shown_of_names(refusal),
        CertifyRefusal::Types(refusal) => shown_of_kinds(refusal),
        CertifyRefusal::NoStart => ("G1 no start", Nothing, Nothing, Nothing),
        CertifyRefusal::Determinism(refusal) => shown_of_determinism(refusal),
        CertifyRefusal::Attributes(refusal) => shown_of_attributes(refusal),
        CertifyRefusal::NoMemory(_) => NOTHING,
    }
}

// What a refusal for names shows.
pub(crate) fn shown_of_names(refusal: &NameRefusal) -> Shown<'_> {
    match refusal {
        NameRefusal::Unknown(name) => ("N1", Text(name.as_slice()), Nothing, Nothing),
        NameRefusal::Duplicate(name) => ("N2", Text(name.as_slice()), Nothing, Nothing),
        NameRefusal::Orphan(name) => ("N3", Text(name.as_slice()), Nothing, Nothing),
        NameRefusal::WrongKind(name) => ("N4", Text(name.as_slice()), Nothing, Nothing),
        NameRefusal::WrongHost(name) => ("N5", Text(name.as_slice()), Nothing, Nothing),
        NameRefusal::NoMemory(_) => NOTHING,
    }
}

// What a refusal for kinds shows.
fn shown_of_kinds(refusal: &TypeRefusal) -> Shown<'_> {
    match refusal {
        TypeRefusal::UnknownOperation(name) => ("N1", Text(name.as_slice()), Nothing, Nothing),
        TypeRefusal::WrongArity(place) => ("Y2", Place(*place), Nothing, Nothing),
        TypeRefusal::TypeMismatch(place) => ("Y1", Place(*place), Nothing, Nothing),
        TypeRefusal::NoMemory(_) => NOTHING,
    }
}

// What a refusal for markers, for what goes beyond the host, for the grammar or for the scanner shows.
fn shown_of_determinism(refusal: &DeterminismRefusal) -> Shown<'_> {
    match refusal {
        DeterminismRefusal::Markers(refusal) => shown_of_markers(refusal),
        DeterminismRefusal::Lookahead { item, terminal, .. } => {
            (
                "E5",
                Lookahead(*terminal),
                Production(item.production),
                Nothing,
            )
        }
        DeterminismRefusal::Envelope { fault, .. } => shown_of_fault(fault),
        other => shown_of_grammar(other),
    }
}

// What a refusal for markers shows.
fn shown_of_markers(refusal: &MarkRefusal) -> Shown<'_> {
    match refusal {
        MarkRefusal::NotBridge(number) => ("E1", Production(*number), Nothing, Nothing),
        MarkRefusal::MarkerElsewhere(marker) => ("E2", Terminal(*marker), Nothing, Nothing),
        MarkRefusal::NotExtensible(number) => ("E3", Production(*number), Nothing, Nothing),
        MarkRefusal::MarkerClash {
            marker,
            other,
            text,
        } => (
            "E4",
            Terminal(*marker),
            Terminal(*other),
            Text(text.as_slice()),
        ),
        MarkRefusal::NoMemory(_) => NOTHING,
    }
}

// What a refusal for the grammar or the scanner shows.
fn shown_of_grammar(refusal: &DeterminismRefusal) -> Shown<'_> {
    match refusal {
        DeterminismRefusal::PreferenceCycle(cycle) => {
            let cycle = Terminals(cycle.as_slice());
            ("G6", cycle, cycle, Nothing)
        }
        DeterminismRefusal::NotReduced(reason) => shown_of_reason(reason),
        DeterminismRefusal::UnitCycle(cycle) => {
            ("G2", Nonterminals(cycle.as_slice()), Nothing, Nothing)
        }
        DeterminismRefusal::HiddenLeftRecursion(cycle) => {
            ("G3", Nonterminals(cycle.as_slice()), Nothing, Nothing)
        }
        DeterminismRefusal::Conflict {
            terminal,
            first,
            second,
            ..
        } => (
            "G4",
            Lookahead(*terminal),
            Part::Action(*first),
            Part::Action(*second),
        ),
        DeterminismRefusal::Clash {
            left,
            right,
            text,
            ..
        } => (
            "G5",
            Terminal(*left),
            Terminal(*right),
            Text(text.as_slice()),
        ),
        _ => NOTHING,
    }
}

// What a grammar that isn't reduced shows.
fn shown_of_reason(reason: &Reason) -> Shown<'_> {
    match reason {
        Reason::Unreachable(number) => ("G1 unreachable", Nonterminal(*number), Nothing, Nothing),
        Reason::Unproductive(number) => {
            ("G1 unproductive", Nonterminal(*number), Nothing, Nothing)
        }
    }
}

// What a kernel that goes beyond what the host allows shows.
fn shown_of_fault(fault: &EnvelopeFault) -> Shown<'_> {
    match fault {
        EnvelopeFault::Lookahead { item, terminal } => {
            ("E6 item", Lookahead(*terminal), Passed(*item), Nothing)
        }
        EnvelopeFault::Conflict {
            terminal,
            first,
            second,
        } => (
            "E6 conflict",
            Lookahead(*terminal),
            Part::Action(*first),
            Part::Action(*second),
        ),
        EnvelopeFault::Clash { left, right, text } => {
            (
                "E6 clash",
                Terminal(*left),
                Terminal(*right),
                Text(text.as_slice()),
            )
        }
    }
}

// What a refusal for attributes shows.
fn shown_of_attributes(refusal: &AttributeRefusal) -> Shown<'_> {
    match refusal {
        AttributeRefusal::StartInherits(number) => ("A5", Attribute(*number), Nothing, Nothing),
        AttributeRefusal::NoForward(number) => ("E7", Production(*number), Nothing, Nothing),
        AttributeRefusal::NoEquation {
            production,
            attribute,
        } => (
            "A1",
            Production(*production),
            Attribute(*attribute),
            Nothing,
        ),
        AttributeRefusal::NoInherited { production, vertex } => {
            shown_of_child(*production, *vertex)
        }
        AttributeRefusal::LacksForward {
            nonterminal,
            attribute,
            inherited,
        } => (
            "A6",
            Nonterminal(*nonterminal),
            Attribute(*attribute),
            Attribute(*inherited),
        ),
        other => shown_of_flow(other),
    }
}

// What a refusal for the reads of an attribute shows.
fn shown_of_flow(refusal: &AttributeRefusal) -> Shown<'_> {
    match refusal {
        AttributeRefusal::Reads {
            production,
            attribute,
            inherited,
        } => (
            "A3",
            Production(*production),
            Reader(*attribute),
            Attribute(*inherited),
        ),
        AttributeRefusal::Cycle {
            production,
            vertices,
        } => {
            let cycle = Vertices(vertices.as_slice());
            ("A4", Production(*production), cycle, cycle)
        }
        AttributeRefusal::ForwardReads {
            production,
            attribute,
            inherited,
        } => (
            "E8",
            Production(*production),
            Attribute(*attribute),
            Attribute(*inherited),
        ),
        _ => NOTHING,
    }
}

// What an attribute that a child lacks shows.
fn shown_of_child(production: usize, vertex: Vertex) -> Shown<'static> {
    match vertex {
        Vertex::Child(place, attribute) => {
            (
                "A2",
                Production(production),
                Label(production, place),
                Attribute(attribute),
            )
        }
        _ => NOTHING,
    }
}
