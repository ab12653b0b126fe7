//! Why are attributes not well defined?
//!
//! The rules are defined in `wb_flow_theory`; `wb_flow` and the crate above it find where they fail.

use crate::Vertex;
use std::alloc::AllocError;
use wb_base::Sequence;

/// Which rule of attributes fails. Which of several examples is shown is left open.
#[derive(Drop)]
pub enum AttributeRefusal {
    /// A5: this inherited attribute occurs on the start.
    StartInherits(usize),
    /// E7: this production of an extension is on a nonterminal of the host that isn't closed, and doesn't forward.
    NoForward(usize),
    /// A1: this production has no equation for a synthesized attribute of its left side, and doesn't forward.
    NoEquation {
        /// The production.
        production: usize,
        /// The attribute.
        attribute: usize,
    },
    /// A2: this production has no equation for an inherited attribute of a child or local, though an attribute is read there whose flow
    /// type has it.
    NoInherited {
        /// The production.
        production: usize,
        /// The inherited attribute, of a child or local.
        vertex: Vertex,
    },
    /// A6: the flow type of an attribute on a nonterminal lacks an inherited one that the flow type of the nonterminal's forward has.
    LacksForward {
        /// The nonterminal.
        nonterminal: usize,
        /// The synthesized attribute.
        attribute: usize,
        /// What its flow type lacks.
        inherited: usize,
    },
    /// A3: in this production an inherited attribute of the top is needed that isn't in the flow type of what needs it.
    Reads {
        /// The production.
        production: usize,
        /// The synthesized attribute of its top that needs it, or none for the forwarded tree.
        attribute: Option<usize>,
        /// What isn't in the flow type.
        inherited: usize,
    },
    /// A4: in this production something needs itself.
    Cycle {
        /// The production.
        production: usize,
        /// The vertices, each once: each needs the next, and the last the first.
        vertices: Sequence<Vertex>,
    },
    /// E8: in this production of an extension on a nonterminal of the host, an equation for an inherited attribute of the forwarded tree
    /// needs an inherited attribute of the top that isn't in the flow type of the forward.
    ForwardReads {
        /// The production.
        production: usize,
        /// The attribute of the forwarded tree.
        attribute: usize,
        /// What isn't in the flow type.
        inherited: usize,
    },
    /// Out of memory.
    NoMemory(AllocError),
}

impl From<AllocError> for AttributeRefusal {
    ghost use Rattle.std.specs.Prelude.{◌≡◌};
    ghost use Rattle.wb_flow.specs.declared.refusal.AttributeRefusal.TheVariants.{NoMemory};

    ghost from_gives = { λ error refusal. refusal ≡ NoMemory error };

    fn from(error: AllocError) -> Self {
        AttributeRefusal::NoMemory(error)
    }
}

impl AttributeRefusal {
    /// Lets go of the refusal. A crate that calls this proves no drop of what it holds.
    pub fn release(self) {}
}
