//! What is there before a host? A resolved specification without anything but its name.

ghost use Rattle.std.specs.Prelude.{◌≡◌, [], None, IfOk};
ghost use Rattle.wb_base.specs.Identifiers.{IsName};
ghost use Rattle.wb_syntax_resolved.specs.declared.attribution.AttributionParts.{AttributionParts};
ghost use Rattle.wb_names.specs.Resolving.{empty_host};

use std::alloc::{AllocError, Global};
use wb_base::{Bytes, Sequence};
use wb_syntax_resolved::{Attribution, AttributionParts, Resolved, ResolvedParts};
use wb_values::Signatures;

// Nothing, for a host of this name.
pub(crate) fn nothing_before(alloc: Global, name: &[u8]) -> Result<Resolved, AllocError>
    requires { IsName name.now }
    ensures { IfOk result (λ made. made ≡ empty_host name.now) }
{
    let host = Bytes::from_slice(alloc, name)?;
    match no_attributes(alloc) {
        Ok(attributes) => Resolved::new(alloc, only_name(alloc, host, attributes)),
        Err(error) => {
            drop(host);
            Err(error)
        }
    }
}

// The parts of a specification with these attributes and nothing else but a name.
fn only_name(alloc: Global, host: Bytes, attributes: Attribution) -> ResolvedParts
    ensures { result ≡ record { host = host; grammar = None; terminals = []; preferences = []; extensible = []; attributes = attributes } }
{
    ResolvedParts {
        host,
        grammar: None,
        terminals: none(alloc),
        preferences: none(alloc),
        extensible: none(alloc),
        attributes,
    }
}

// No attributes, and nothing that has one.
fn no_attributes(alloc: Global) -> Result<Attribution, AllocError>
    ensures { IfOk result (λ made. made ≡ record { extensions = []; nonterminals = []; attributes = []; occurrences = []; productions = []; signatures = [] }) }
{
    Attribution::new(
        alloc,
        AttributionParts {
            extensions: none(alloc),
            nonterminals: none(alloc),
            attributes: none(alloc),
            occurrences: none(alloc),
            productions: none(alloc),
            signatures: Signatures::new(alloc),
        },
    )
}

// No values.
fn none<T>(alloc: Global) -> Sequence<T>
    ensures { result ≡ [] }
{
    Sequence::from_vec(Vec::new(alloc))
}
