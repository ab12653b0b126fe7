//! Which name has a piece of a tree of a grammar with holes?
//!
//! Those of the grammar come first, and then one for each extensible nonterminal.

ghost use Rattle.std.specs.Prelude.{◌≡◌, ◌++◌, IfOk};
ghost use lib.Chars.{codes};
ghost use Rattle.wb_certify_files.specs.Names as spec;
ghost use Rattle.wb_syntax_resolved.specs.Owners.{printed_name};
ghost use Rattle.wb_explain_conflicts.specs.Words.{piece_shown};

use std::alloc::{AllocError, Global};
use wb_base::{Bytes, Grammar};
use wb_certify_files::{terminal_name, terminals_in};
use wb_explain_readings::Piece;
use wb_names_rows::signatures::printed;
use wb_syntax_resolved::{Resolved, ResolvedParts};

// The name of a piece: a production's with a bracket, a terminal's, or a bracket.
pub(crate) fn piece_name(
    alloc: Global,
    resolved: &Resolved,
    piece: Piece,
) -> Result<Bytes, AllocError>
    ensures { IfOk result (λ name. name ≡ piece_shown resolved.now piece) }
{
    match piece {
        Piece::Leaf(terminal) => lookahead_name(alloc, resolved, terminal),
        Piece::Open(production) => {
            let name = reduction_name(alloc, resolved, production)?;
            let text = opened(alloc, name.as_slice());
            drop(name);
            text
        }
        Piece::Close => Bytes::from_slice(alloc, b"]"),
    }
}

// A name with a bracket after it.
fn opened(alloc: Global, name: &[u8]) -> Result<Bytes, AllocError>
    ensures { IfOk result (λ text. text ≡ name.now ++ codes "[") }
{
    let mut text = Vec::from_slice(alloc, name)?;
    text.extend_from_slice(b"[")?;
    Bytes::from_vec(text)
}

// The name of a terminal, or of the end of a text.
fn lookahead_name(alloc: Global, resolved: &Resolved, number: usize) -> Result<Bytes, AllocError>
    ensures { IfOk result (λ name. name ≡ spec.lookahead_shown resolved.now number) }
{
    let parts = resolved.parts();
    let terminals = terminals_in(&parts.grammar);
    if number < terminals {
        return terminal_name(alloc, resolved, number);
    }
    match parts.extensible.as_slice().get(number - terminals) {
        Some(nonterminal) => hole_name(alloc, resolved, *nonterminal),
        None => Bytes::from_slice(alloc, b"end"),
    }
}

// The name of a production.
fn reduction_name(alloc: Global, resolved: &Resolved, number: usize) -> Result<Bytes, AllocError>
    ensures { IfOk result (λ name. name ≡ spec.reduction_shown resolved.now number) }
{
    let parts = resolved.parts();
    let productions = productions_in(&parts.grammar);
    if number < productions {
        return production_name(alloc, resolved, number);
    }
    match parts.extensible.as_slice().get(number - productions) {
        Some(nonterminal) => hole_name(alloc, resolved, *nonterminal),
        None => Ok(Bytes::empty()),
    }
}

// The name of the hole of a nonterminal.
fn hole_name(alloc: Global, resolved: &Resolved, nonterminal: usize) -> Result<Bytes, AllocError>
    ensures { IfOk result (λ name. name ≡ spec.hole_name resolved.now nonterminal) }
{
    let name = nonterminal_name(alloc, resolved, nonterminal)?;
    let text = prefixed(alloc, name.as_slice());
    drop(name);
    text
}

// A name with `hole:` before it.
fn prefixed(alloc: Global, name: &[u8]) -> Result<Bytes, AllocError>
    ensures { IfOk result (λ text. text ≡ codes "hole:" ++ name.now) }
{
    let mut text = Vec::from_slice(alloc, b"hole:")?;
    text.extend_from_slice(name)?;
    Bytes::from_vec(text)
}

// How many productions a grammar has, where there is one.
fn productions_in(grammar: &Option<Grammar>) -> usize
    ensures { result ≡ spec.productions_in grammar.now }
{
    match grammar {
        Some(grammar) => grammar.productions(),
        None => 0,
    }
}

// The name of a nonterminal.
fn nonterminal_name(alloc: Global, resolved: &Resolved, number: usize) -> Result<Bytes, AllocError>
    ensures { IfOk result (λ name. name ≡ spec.nonterminal_shown resolved.now number) }
{
    let parts = resolved.parts();
    match parts.attributes.parts().nonterminals.as_slice().get(number) {
        Some(nonterminal) => named(alloc, parts, nonterminal.owner, &nonterminal.name),
        None => Ok(Bytes::empty()),
    }
}

// The name of a production of the grammar without holes.
fn production_name(alloc: Global, resolved: &Resolved, number: usize) -> Result<Bytes, AllocError>
    ensures { IfOk result (λ name. name ≡ spec.production_shown resolved.now number) }
{
    let parts = resolved.parts();
    match parts.attributes.parts().productions.as_slice().get(number) {
        Some(production) => named(alloc, parts, production.owner, &production.name),
        None => Ok(Bytes::empty()),
    }
}

// A name of an owner.
fn named(
    alloc: Global,
    parts: &ResolvedParts,
    owner: usize,
    name: &Bytes,
) -> Result<Bytes, AllocError>
    ensures { IfOk result (λ shown. shown ≡ printed_name parts.now.attributes.extensions owner name.now) }
{
    let extensions = parts.attributes.parts().extensions.as_slice();
    let text = printed(alloc, extensions, owner, name.as_slice())?;
    Bytes::from_vec(text)
}
