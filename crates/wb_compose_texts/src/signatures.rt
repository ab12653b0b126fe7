//! Builds the signatures of the productions of a union.

ghost use Rattle.std.specs.Prelude.{◌≡◌, ◌<◌, ◌≤◌, ◌+◌, ◌-◌, ◌++◌, ◌∷◌, [], IfOk, IfSome, OnOk, length, map, slice_get};
ghost use Rattle.wb_certify_shown.specs.Names.{productions_in as productions_of};
ghost use Rattle.wb_compose_theory.specs.Blocks.{lift};
ghost use Rattle.wb_compose_texts.specs.Signatures as spec;
ghost use Rattle.wb_compose_texts.specs.Unions.{all_resolved};
ghost use Rattle.wb_compose_texts.specs.Inner.Tables.{signatures_from};

use std::alloc::{AllocError, Global};
use wb_base::{Grammar, Kind, push};
use wb_compose::{CertifiedExtension, CertifiedHost};
use wb_syntax_resolved::Resolved;
use wb_values::Signatures;

/// The signatures of all productions of the union, by number: the host's, and then those that each extension adds, with their printed names
/// and in the union's numbers.
pub fn united_signatures(
    alloc: Global,
    host: &CertifiedHost,
    extensions: &[CertifiedExtension],
) -> Result<Signatures, AllocError>
    ensures { IfOk result (λ made. made ≡ spec.signatures_of host.now.resolved (all_resolved extensions.now)) }
{
    let mut made = Signatures::new(alloc);
    let host = host.resolved();
    add_host(&mut made, host)?;
    add_extensions(alloc, &mut made, host, extensions)?;
    Ok(made)
}

// Adds those of the host.
fn add_host(made: &mut Signatures, host: &Resolved) -> Result<(), AllocError>
    ensures { OnOk result (made.new ≡ made.old ++ spec.grammar_signatures host.now) }
{
    let signatures = signatures_in(host);
    let count = productions_in(&host.parts().grammar);
    'productions: for production in 0..count {
        made.add(
            signatures.name(production),
            signatures.left(production),
            signatures.children(production),
        )?;
    }
    Ok(())
}

// The signatures of all productions, of which the grammar's are the first.
fn signatures_in(resolved: &Resolved) -> &Signatures
    ensures signatures { result.now ≡ resolved.now.attributes.signatures }
    ensures enough { productions_of resolved.now.grammar ≤ length result.now }
{
    &resolved.parts().attributes.parts().signatures
}

// How many productions and nonterminals the host's grammar has.
#[derive(Clone, Copy)]
struct Own {
    productions: usize,
    nonterminals: usize,
}

// Adds those that each extension adds.
fn add_extensions(
    alloc: Global,
    made: &mut Signatures,
    host: &Resolved,
    extensions: &[CertifiedExtension],
) -> Result<(), AllocError>
    ensures { OnOk result (made.new ≡ made.old ++ spec.signatures_after host.now 0 (all_resolved extensions.now)) }
{
    let own = own_of(host);
    let mut before = 0;
    'extensions: for extension in extensions {
        let extension = extension.resolved();
        add_own(alloc, made, own, extension, before)?;
        before = more(before, own, extension)?;
    }
    Ok(())
}

// How many the host's grammar has.
fn own_of(host: &Resolved) -> Own
    ensures productions { result.productions ≡ productions_of host.now.grammar }
    ensures nonterminals { result.nonterminals ≡ spec.nonterminals_in host.now.grammar }
{
    let grammar = &host.parts().grammar;
    Own {
        productions: productions_in(grammar),
        nonterminals: nonterminals_in(grammar),
    }
}

// How many nonterminals of extensions come before the next one. More numbers than there are need more than any memory.
fn more(before: usize, own: Own, extension: &Resolved) -> Result<usize, AllocError>
    ensures { IfOk result (λ after. after ≡ before + (spec.nonterminals_in extension.now.grammar - own.nonterminals)) }
{
    let added = nonterminals_in(&extension.parts().grammar).saturating_sub(own.nonterminals);
    match before.checked_add(added) {
        Some(after) => Ok(after),
        None => Err(AllocError),
    }
}

// Adds those that an extension adds, before whose nonterminals so many of other extensions come.
fn add_own(
    alloc: Global,
    made: &mut Signatures,
    own: Own,
    extension: &Resolved,
    before: usize,
) -> Result<(), AllocError>
    ensures { OnOk result (made.new ≡ made.old ++ map (spec.signature_by (lift own.nonterminals before)) (signatures_from own.productions extension.now)) }
{
    let signatures = signatures_in(extension);
    let count = productions_in(&extension.parts().grammar);
    'productions: for production in own.productions..count {
        add_lifted(
            alloc,
            made,
            signatures,
            production,
            own.nonterminals,
            before,
        )?;
    }
    Ok(())
}

// Adds a signature in the union's numbers.
fn add_lifted(
    alloc: Global,
    made: &mut Signatures,
    signatures: &Signatures,
    production: usize,
    own: usize,
    before: usize,
) -> Result<(), AllocError>
    requires { production < length signatures.now }
    ensures { OnOk result (IfSome (slice_get signatures.now production) (λ s. made.new ≡ made.old ++ spec.signature_by (lift own before) s ∷ [])) }
{
    let left = lifted(own, before, signatures.left(production))?;
    let children = lifted_kinds(alloc, own, before, signatures.children(production))?;
    made.add(signatures.name(production), left, &children)?;
    Ok(())
}

// Kinds in the union's numbers.
fn lifted_kinds(
    alloc: Global,
    own: usize,
    before: usize,
    kinds: &[Kind],
) -> Result<Vec<Kind>, AllocError>
    ensures { IfOk result (λ made. made.items ≡ map (spec.kind_by (lift own before)) kinds.now) }
{
    let mut made = Vec::new(alloc);
    'kinds: for kind in kinds {
        let kind = lifted_kind(own, before, *kind)?;
        push(&mut made, kind)?;
    }
    Ok(made)
}

fn lifted_kind(own: usize, before: usize, kind: Kind) -> Result<Kind, AllocError>
    ensures { IfOk result (λ made. made ≡ spec.kind_by (lift own before) kind) }
{
    match kind {
        Kind::Int => Ok(Kind::Int),
        Kind::Bool => Ok(Kind::Bool),
        Kind::Text => Ok(Kind::Text),
        Kind::Tree(a) => Ok(Kind::Tree(lifted(own, before, a)?)),
    }
}

// A number that moves up where it isn't the host's. More numbers than there are need more than any memory.
fn lifted(own: usize, before: usize, number: usize) -> Result<usize, AllocError>
    ensures { IfOk result (λ made. made ≡ lift own before number) }
{
    if number < own {
        return Ok(number);
    }
    match number.checked_add(before) {
        Some(made) => Ok(made),
        None => Err(AllocError),
    }
}

// How many productions a grammar has, where there is one.
fn productions_in(grammar: &Option<Grammar>) -> usize
    ensures { result ≡ productions_of grammar.now }
{
    match grammar {
        Some(grammar) => grammar.productions(),
        None => 0,
    }
}

// How many nonterminals it has.
fn nonterminals_in(grammar: &Option<Grammar>) -> usize
    ensures { result ≡ spec.nonterminals_in grammar.now }
{
    match grammar {
        Some(grammar) => grammar.nonterminals(),
        None => 0,
    }
}
