//! Did the host close the nonterminal of a name?
//!
//! A base declares its terminals first and then its nonterminals, so the place at which a name is declared tells its row.

ghost use Rattle.std.specs.Prelude.{◌↔◌, Contains, IfOk, IsTrue};
ghost use Rattle.wb_names_theory.specs.Declares.{closed_names};
ghost use Rattle.wb_names_rules.specs.Inner.Closed as spec;

use crate::NameIndex;
use std::alloc::{AllocError, Global};
use wb_syntax_resolved::{Nonterminal, ResolvedParts};

// Whether a name is that of a closed nonterminal of a base, whose declarations are the first of the index.
pub(crate) fn is_closed(
    alloc: Global,
    index: &NameIndex,
    base: &ResolvedParts,
    name: &[u8],
) -> Result<bool, AllocError>
    requires { spec.IsOver base.now index.now }
    ensures { IfOk result (λ closed. IsTrue closed ↔ Contains (closed_names base.now) name.now) }
{
    match index.symbol(alloc, name)? {
        None => Ok(false),
        Some(place) => Ok(is_closed_at(base, place)),
    }
}

// Whether a closed nonterminal of a base is declared at a place.
fn is_closed_at(base: &ResolvedParts, place: usize) -> bool
    ensures { IsTrue result ↔ spec.IsClosedAt base.now place }
{
    let terminals = base.terminals.as_slice().len();
    if place < terminals {
        return false;
    }
    is_closed_row(
        base.attributes.parts().nonterminals.as_slice(),
        place - terminals,
    )
}

// Whether there is a nonterminal of this number, and it is closed.
fn is_closed_row(nonterminals: &[Nonterminal], number: usize) -> bool
    ensures { IsTrue result ↔ spec.HasClosed nonterminals.now number }
{
    match nonterminals.get(number) {
        Some(nonterminal) => nonterminal.closed,
        None => false,
    }
}
