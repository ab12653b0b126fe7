//! N1: is each name declared where its place asks for it?
//!
//! Each usage is tested by itself. What is declared is answered by the index.

ghost use Rattle.std.specs.Prelude.{◌≡◌, ◌↔◌, All, IfOk, IfErr, OnOk, IsTrue};
ghost use Rattle.wb_names_theory.specs.declared.declaration.Sort.TheVariants as sort;
ghost use Rattle.wb_names_theory.specs.declared.usage.Usage.TheVariants as u;
ghost use Rattle.wb_names_theory.specs.declared.usage.Wanted.TheVariants as w;
ghost use Rattle.wb_names_theory.specs.Meaning as meaning;
ghost use Rattle.wb_names_rules.specs.Inner.Tests as spec;

use crate::NameIndex;
use crate::reads::{is_nonterminal, is_production};
use crate::sites::{occurs, site_of};
use std::alloc::{AllocError, Global};
use wb_base::Bytes;
use wb_names_theory::{LabelWanted, NameRefusal, Site, Usage, Wanted};

// Whether all that is used is declared. The refusal names what isn't.
pub(crate) fn check_declared(
    alloc: Global,
    index: &NameIndex,
    used: &[Usage],
) -> Result<(), NameRefusal>
    ensures ok { OnOk result (All (spec.IsKnown index.now) used.now) }
    ensures refused { IfErr result (spec.IsUnknownIn index.now used.now) }
{
    'usages: for usage in used {
        check_usage(alloc, index, usage)?;
    }
    Ok(())
}

// Whether what a usage asks for is declared.
fn check_usage(alloc: Global, index: &NameIndex, usage: &Usage) -> Result<(), NameRefusal>
    ensures ok { OnOk result (spec.IsKnown index.now usage.now) }
    ensures refused { IfErr result (spec.ShowsUnknown index.now usage.now) }
{
    match usage {
        Usage::Name { name, wanted } => check_name(alloc, index, name, *wanted),
        Usage::Label {
            production,
            label,
            wanted,
        } => check_label(alloc, index, production, label, *wanted),
        Usage::Attribute {
            production,
            attribute,
            site,
        } => check_attribute(alloc, index, production, attribute, site),
        Usage::Needs {
            attribute,
            nonterminal,
        } => check_needs(alloc, index, attribute, nonterminal),
    }
}

// Whether a name is in the name space that its place asks for.
fn check_name(
    alloc: Global,
    index: &NameIndex,
    name: &Bytes,
    wanted: Wanted,
) -> Result<(), NameRefusal>
    ensures ok { OnOk result (spec.IsKnown index.now (u.Name name.now wanted)) }
    ensures refused { IfErr result (spec.ShowsUnknown index.now (u.Name name.now wanted)) }
{
    if is_declared(alloc, index, name.as_slice(), wanted)? {
        return Ok(());
    }
    Err(unknown(name))
}

// Whether a name is declared in a name space.
fn is_declared(
    alloc: Global,
    index: &NameIndex,
    name: &[u8],
    wanted: Wanted,
) -> Result<bool, AllocError>
    ensures { IfOk result (λ is. IsTrue is ↔ meaning.IsDeclared index.now wanted name.now) }
{
    match wanted {
        Wanted::Attribute => is_attribute(alloc, index, name),
        Wanted::Synthesized => is_attribute(alloc, index, name),
        Wanted::Inherited => is_attribute(alloc, index, name),
        _ => is_symbol(alloc, index, name),
    }
}

// Whether an attribute has the name.
fn is_attribute(alloc: Global, index: &NameIndex, name: &[u8]) -> Result<bool, AllocError>
    ensures { IfOk result (λ is. IsTrue is ↔ meaning.IsDeclared index.now w.Attribute name.now) }
{
    Ok(index.attribute(alloc, name)?.is_some())
}

// Whether a terminal, layout, marker, nonterminal or production has the name.
fn is_symbol(alloc: Global, index: &NameIndex, name: &[u8]) -> Result<bool, AllocError>
    ensures { IfOk result (λ is. IsTrue is ↔ meaning.IsDeclared index.now w.Nonterminal name.now) }
{
    Ok(index.symbol(alloc, name)?.is_some())
}

// Whether a production has a label, where it is declared.
fn check_label(
    alloc: Global,
    index: &NameIndex,
    production: &Bytes,
    label: &Bytes,
    wanted: LabelWanted,
) -> Result<(), NameRefusal>
    ensures ok { OnOk result (spec.IsKnown index.now (u.Label production.now label.now wanted)) }
    ensures refused { IfErr result (spec.ShowsUnknown index.now (u.Label production.now label.now wanted)) }
{
    if !is_production(alloc, index, production.as_slice())? {
        return Ok(());
    }
    match index.label(alloc, production.as_slice(), label.as_slice())? {
        None => Err(unknown(label)),
        Some(_) => Ok(()),
    }
}

// Whether an attribute occurs on the nonterminal of the tree at a site of a production, and whether the production forwards where the
// tree is the forwarded one.
fn check_attribute(
    alloc: Global,
    index: &NameIndex,
    production: &Bytes,
    attribute: &Bytes,
    site: &Site,
) -> Result<(), NameRefusal>
    ensures ok { OnOk result (spec.IsKnown index.now (u.Attribute production.now attribute.now site.now)) }
    ensures refused { IfErr result (spec.ShowsUnknown index.now (u.Attribute production.now attribute.now site.now)) }
{
    if !is_production(alloc, index, production.as_slice())? {
        return Ok(());
    }
    if lacks_forward(alloc, index, production, site)? {
        return Err(unknown(attribute));
    }
    match site_of(alloc, index, production.as_slice(), site)? {
        None => Ok(()),
        Some(nonterminal) => check_occurs(alloc, index, attribute, nonterminal),
    }
}

// Whether an attribute occurs on a nonterminal.
fn check_occurs(
    alloc: Global,
    index: &NameIndex,
    attribute: &Bytes,
    nonterminal: &Bytes,
) -> Result<(), NameRefusal>
    ensures ok { OnOk result (meaning.Occurs index.now attribute.now nonterminal.now) }
    ensures refused { IfErr result (spec.ShowsAbsent index.now attribute.now nonterminal.now) }
{
    if occurs(alloc, index, attribute.as_slice(), nonterminal.as_slice())? {
        return Ok(());
    }
    Err(unknown(attribute))
}

// Whether the tree is the forwarded one, and the production doesn't forward.
fn lacks_forward(
    alloc: Global,
    index: &NameIndex,
    production: &Bytes,
    site: &Site,
) -> Result<bool, AllocError>
    ensures { IfOk result (λ lacks. spec.TellsForward index.now production.now site.now lacks) }
{
    match site {
        Site::Forward => Ok(index.forward(alloc, production.as_slice())?.is_none()),
        _ => Ok(false),
    }
}

// Whether an attribute of a flow type occurs on the nonterminal, where that is one.
fn check_needs(
    alloc: Global,
    index: &NameIndex,
    attribute: &Bytes,
    nonterminal: &Bytes,
) -> Result<(), NameRefusal>
    ensures ok { OnOk result (spec.IsKnown index.now (u.Needs attribute.now nonterminal.now)) }
    ensures refused { IfErr result (spec.ShowsUnknown index.now (u.Needs attribute.now nonterminal.now)) }
{
    if !is_nonterminal(alloc, index, nonterminal.as_slice())? {
        return Ok(());
    }
    check_occurs(alloc, index, attribute, nonterminal)
}

// That a name isn't declared.
fn unknown(name: &Bytes) -> NameRefusal
    ensures { spec.NamesUnknown name.now result }
{
    match name.copy() {
        Ok(name) => NameRefusal::Unknown(name),
        Err(error) => NameRefusal::NoMemory(error),
    }
}
