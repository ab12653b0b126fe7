//! Which name does a report show for a number?
//!
//! Numbers are those of a resolved specification, and in a grammar with holes those of that grammar. A number that names nothing has the
//! empty name.

ghost use Rattle.std.specs.Prelude.{◌≡◌, IfOk};
ghost use Rattle.wb_syntax_resolved.specs.Owners.{printed_name};
ghost use Rattle.wb_certify_shown.specs.Names as spec;

use std::alloc::{AllocError, Global};
use wb_base::Bytes;
use wb_names_rows::signatures::printed;
use wb_syntax_resolved::{Resolved, ResolvedParts};

/// The name of a terminal or layout.
pub fn terminal_name(alloc: Global, resolved: &Resolved, number: usize) -> Result<Bytes, AllocError>
    ensures { IfOk result (λ name. name ≡ spec.terminal_shown resolved.now number) }
{
    let parts = resolved.parts();
    match parts.terminals.as_slice().get(number) {
        Some(terminal) => named(alloc, parts, terminal.owner, &terminal.name),
        None => Ok(Bytes::empty()),
    }
}

// The name of a nonterminal.
pub(crate) fn nonterminal_name(
    alloc: Global,
    resolved: &Resolved,
    number: usize,
) -> Result<Bytes, AllocError>
    ensures { IfOk result (λ name. name ≡ spec.nonterminal_shown resolved.now number) }
{
    let parts = resolved.parts();
    match parts.attributes.parts().nonterminals.as_slice().get(number) {
        Some(nonterminal) => named(alloc, parts, nonterminal.owner, &nonterminal.name),
        None => Ok(Bytes::empty()),
    }
}

// The name of an attribute.
pub(crate) fn attribute_name(
    alloc: Global,
    resolved: &Resolved,
    number: usize,
) -> Result<Bytes, AllocError>
    ensures { IfOk result (λ name. name ≡ spec.attribute_shown resolved.now number) }
{
    let parts = resolved.parts();
    match parts.attributes.parts().attributes.as_slice().get(number) {
        Some(attribute) => named(alloc, parts, attribute.owner, &attribute.name),
        None => Ok(Bytes::empty()),
    }
}

// The name of a production.
pub(crate) fn production_name(
    alloc: Global,
    resolved: &Resolved,
    number: usize,
) -> Result<Bytes, AllocError>
    ensures { IfOk result (λ name. name ≡ spec.production_shown resolved.now number) }
{
    let parts = resolved.parts();
    match parts.attributes.parts().productions.as_slice().get(number) {
        Some(production) => named(alloc, parts, production.owner, &production.name),
        None => Ok(Bytes::empty()),
    }
}

// A name of an owner.
pub(crate) fn named(
    alloc: Global,
    parts: &ResolvedParts,
    owner: usize,
    name: &Bytes,
) -> Result<Bytes, AllocError>
    ensures { IfOk result (λ shown. shown ≡ printed_name parts.now.attributes.extensions owner name.now) }
{
    let extensions = parts.attributes.parts().extensions.as_slice();
    let text = printed(alloc, extensions, owner, name.as_slice())?;
    Bytes::from_vec(text)
}
