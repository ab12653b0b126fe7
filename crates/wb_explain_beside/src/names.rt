//! Which names have productions, nonterminals and symbols?

ghost use Rattle.std.specs.Prelude.{◌≡◌, ◌++◌, IfOk, OnOk};
ghost use Rattle.wb_certify_files.specs.Names as spec;
ghost use Rattle.wb_syntax_resolved.specs.Owners.{printed_name};
ghost use Rattle.wb_explain_beside.specs.Said.{symbol_shown};

use std::alloc::{AllocError, Global};
use wb_base::{Bytes, Symbol};
use wb_certify_files::terminal_name;
use wb_names_rows::signatures::printed;
use wb_syntax_resolved::{Resolved, ResolvedParts};

// Appends the name of a production.
pub(crate) fn push_production(
    alloc: Global,
    out: &mut Vec<u8>,
    resolved: &Resolved,
    number: usize,
) -> Result<(), AllocError>
    ensures { OnOk result (out.new.items ≡ out.old.items ++ spec.production_shown resolved.now number) }
{
    let name = production_name(alloc, resolved, number)?;
    let answer = out.extend_from_slice(name.as_slice());
    drop(name);
    answer
}

// Appends the name of a nonterminal.
pub(crate) fn push_nonterminal(
    alloc: Global,
    out: &mut Vec<u8>,
    resolved: &Resolved,
    number: usize,
) -> Result<(), AllocError>
    ensures { OnOk result (out.new.items ≡ out.old.items ++ spec.nonterminal_shown resolved.now number) }
{
    let name = nonterminal_name(alloc, resolved, number)?;
    let answer = out.extend_from_slice(name.as_slice());
    drop(name);
    answer
}

// Appends the name of a terminal.
pub(crate) fn push_terminal(
    alloc: Global,
    out: &mut Vec<u8>,
    resolved: &Resolved,
    number: usize,
) -> Result<(), AllocError>
    ensures { OnOk result (out.new.items ≡ out.old.items ++ spec.terminal_shown resolved.now number) }
{
    let name = terminal_name(alloc, resolved, number)?;
    let answer = out.extend_from_slice(name.as_slice());
    drop(name);
    answer
}

// Appends the name of a symbol.
pub(crate) fn push_symbol(
    alloc: Global,
    out: &mut Vec<u8>,
    resolved: &Resolved,
    symbol: Symbol,
) -> Result<(), AllocError>
    ensures { OnOk result (out.new.items ≡ out.old.items ++ symbol_shown resolved.now symbol) }
{
    match symbol {
        Symbol::Terminal(number) => push_terminal(alloc, out, resolved, number),
        Symbol::Nonterminal(number) => push_nonterminal(alloc, out, resolved, number),
    }
}

// The name of a nonterminal.
fn nonterminal_name(alloc: Global, resolved: &Resolved, number: usize) -> Result<Bytes, AllocError>
    ensures { IfOk result (λ name. name ≡ spec.nonterminal_shown resolved.now number) }
{
    let parts = resolved.parts();
    match parts.attributes.parts().nonterminals.as_slice().get(number) {
        Some(nonterminal) => named(alloc, parts, nonterminal.owner, &nonterminal.name),
        None => Ok(Bytes::empty()),
    }
}

// The name of a production.
fn production_name(alloc: Global, resolved: &Resolved, number: usize) -> Result<Bytes, AllocError>
    ensures { IfOk result (λ name. name ≡ spec.production_shown resolved.now number) }
{
    let parts = resolved.parts();
    match parts.attributes.parts().productions.as_slice().get(number) {
        Some(production) => named(alloc, parts, production.owner, &production.name),
        None => Ok(Bytes::empty()),
    }
}

// A name of an owner.
fn named(
    alloc: Global,
    parts: &ResolvedParts,
    owner: usize,
    name: &Bytes,
) -> Result<Bytes, AllocError>
    ensures { IfOk result (λ shown. shown ≡ printed_name parts.now.attributes.extensions owner name.now) }
{
    let extensions = parts.attributes.parts().extensions.as_slice();
    let text = printed(alloc, extensions, owner, name.as_slice())?;
    Bytes::from_vec(text)
}
