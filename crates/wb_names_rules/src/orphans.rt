//! N3: does an extension say only what it may?
//!
//! The first declarations are its host's, and its own come after them, so that a place tells whose a declaration is.

ghost use Rattle.std.specs.Prelude.{◌≡◌, ◌≢◌, ◌≤◌, ◌⊎◌, ◌↔◌, ℕ, List, Some, All, Contains, IfOk, IfErr, OnOk, IsTrue, drop, take, length, slice_get};
ghost use Rattle.wb_names_theory.specs.declared.declaration.Declaration.TheVariants as d;
ghost use Rattle.wb_names_theory.specs.declared.declaration.Labelled.{Labelled};
ghost use Rattle.wb_names_theory.specs.declared.declaration.Sort.TheVariants as sort;
ghost use Rattle.wb_names_theory.specs.Declares.{closed_names};
ghost use Rattle.wb_names_theory.specs.Meaning as meaning;
ghost use Rattle.wb_names_theory.specs.NamesOk.{bounds_of};
ghost use Rattle.wb_names_theory.specs.Orphan as rule;
ghost use Rattle.wb_names_rules.specs.Inner.Closed.{IsOver};
ghost use Rattle.wb_names_rules.specs.Inner.Owners as spec;

use crate::NameIndex;
use crate::closed::is_closed;
use crate::reads::{is_production, labelled_at};
use crate::sites::site_of;
use std::alloc::{AllocError, Global};
use wb_base::Bytes;
use wb_names_theory::{Declaration, Labelled, NameRefusal, Site, Sort};
use wb_syntax_resolved::ResolvedParts;

// Whether an extension, whose own declarations begin at a place, says only what it may over its host. The refusal names what it may not.
pub(crate) fn check_owned(
    alloc: Global,
    index: &NameIndex,
    base: &ResolvedParts,
    format: u32,
    from: usize,
) -> Result<(), NameRefusal>
    requires within { from ≤ length index.now }
    requires over { IsOver base.now index.now }
    ensures ok { OnOk result (All (spec.MayDeclare index.now from (bounds_of base.now format)) (drop from index.now)) }
    ensures refused { IfErr result (spec.IsOrphanIn index.now from (bounds_of base.now format)) }
{
    let own = &index.declarations()[from..];
    'own: for declaration in own {
        check_declaration(alloc, index, base, format, from, declaration)?;
    }
    Ok(())
}

// Whether an extension may declare this.
fn check_declaration(
    alloc: Global,
    index: &NameIndex,
    base: &ResolvedParts,
    format: u32,
    from: usize,
    declaration: &Declaration,
) -> Result<(), NameRefusal>
    requires { IsOver base.now index.now }
    ensures ok { OnOk result (spec.MayDeclare index.now from (bounds_of base.now format) declaration.now) }
    ensures refused { IfErr result (spec.ShowsOrphan index.now from (bounds_of base.now format) declaration.now) }
{
    match declaration {
        Declaration::Start(name) => Err(orphan(name)),
        Declaration::Extensible(name) => Err(orphan(name)),
        Declaration::Closed(name) => Err(orphan(name)),
        Declaration::Symbol { name, sort } => check_symbol(format, name, *sort),
        Declaration::ForwardNeeds(name) => check_forward_needs(alloc, index, from, name),
        Declaration::Occurrence {
            attribute,
            nonterminal,
        } => {
            check_open(alloc, index, base, attribute, nonterminal)?;
            check_occurrence(alloc, index, from, attribute, nonterminal)
        }
        Declaration::Preference { first, second } => {
            check_preference(alloc, index, from, first, second)
        }
        Declaration::Equation {
            production,
            attribute,
            site,
        } => check_equation(alloc, index, from, production, attribute, site),
        _ => Ok(()),
    }
}

// Whether a symbol is no layout, where the format is one in which extensions have none.
fn check_symbol(format: u32, name: &Bytes, is: Sort) -> Result<(), NameRefusal>
    ensures ok { OnOk result (format ≡ 1 → is ≢ sort.Layout) }
    ensures refused { IfErr result (spec.IsOrphanIf ((format ≡ 1) × (is ≡ sort.Layout)) name.now) }
{
    if format != 1 {
        return Ok(());
    }
    match is {
        Sort::Layout => Err(orphan(name)),
        _ => Ok(()),
    }
}

// Whether a nonterminal whose forwards get a flow type is the extension's own.
fn check_forward_needs(
    alloc: Global,
    index: &NameIndex,
    from: usize,
    name: &Bytes,
) -> Result<(), NameRefusal>
    ensures ok { OnOk result (rule.IsOwnSymbol (drop from index.now) name.now) }
    ensures refused { IfErr result (spec.IsOrphanIf (¬ rule.IsOwnSymbol (drop from index.now) name.now) name.now) }
{
    if is_own_symbol(alloc, index, from, name.as_slice())? {
        return Ok(());
    }
    Err(orphan(name))
}

// Whether the nonterminal of an occurrence is no closed one of the host.
fn check_open(
    alloc: Global,
    index: &NameIndex,
    base: &ResolvedParts,
    attribute: &Bytes,
    nonterminal: &Bytes,
) -> Result<(), NameRefusal>
    requires { IsOver base.now index.now }
    ensures ok { OnOk result (¬ Contains (closed_names base.now) nonterminal.now) }
    ensures refused { IfErr result (spec.IsOrphanIf (Contains (closed_names base.now) nonterminal.now) attribute.now) }
{
    if is_closed(alloc, index, base, nonterminal.as_slice())? {
        return Err(orphan(attribute));
    }
    Ok(())
}

// Whether an occurrence is of its own attribute or on its own nonterminal.
fn check_occurrence(
    alloc: Global,
    index: &NameIndex,
    from: usize,
    attribute: &Bytes,
    nonterminal: &Bytes,
) -> Result<(), NameRefusal>
    ensures ok { OnOk result (rule.IsOwnAttribute (drop from index.now) attribute.now ⊎ rule.IsOwnSymbol (drop from index.now) nonterminal.now) }
    ensures refused { IfErr result (spec.IsOrphanIf (spec.IsForeignOccurrence (drop from index.now) attribute.now nonterminal.now) attribute.now) }
{
    if is_own_attribute(alloc, index, from, attribute.as_slice())? {
        return Ok(());
    }
    if is_own_symbol(alloc, index, from, nonterminal.as_slice())? {
        return Ok(());
    }
    Err(orphan(attribute))
}

// Whether a preference has its own terminal.
fn check_preference(
    alloc: Global,
    index: &NameIndex,
    from: usize,
    first: &Bytes,
    second: &Bytes,
) -> Result<(), NameRefusal>
    ensures ok { OnOk result (rule.IsOwnSymbol (drop from index.now) first.now ⊎ rule.IsOwnSymbol (drop from index.now) second.now) }
    ensures refused { IfErr result (spec.IsOrphanIf (spec.IsForeignPreference (drop from index.now) first.now second.now) first.now) }
{
    if is_own_symbol(alloc, index, from, first.as_slice())? {
        return Ok(());
    }
    if is_own_symbol(alloc, index, from, second.as_slice())? {
        return Ok(());
    }
    Err(orphan(first))
}

// Whether an equation is on its own production, for an occurrence that it declared, or for a local that it declared there.
fn check_equation(
    alloc: Global,
    index: &NameIndex,
    from: usize,
    production: &Bytes,
    attribute: &Bytes,
    site: &Site,
) -> Result<(), NameRefusal>
    ensures ok { OnOk result (spec.MayWrite index.now from production.now attribute.now site.now) }
    ensures refused { IfErr result (spec.IsOrphanIf (spec.IsForeignEquation index.now from production.now attribute.now site.now) attribute.now) }
{
    if !is_of_host(alloc, index, from, production.as_slice())? {
        return Ok(());
    }
    if is_own_local(alloc, index, from, production, site)? {
        return Ok(());
    }
    match site_of(alloc, index, production.as_slice(), site)? {
        None => Ok(()),
        Some(nonterminal) => {
            if is_own_occurrence(alloc, index, from, attribute, nonterminal)? {
                return Ok(());
            }
            Err(orphan(attribute))
        }
    }
}

// Whether a place is one of an extension's own declarations.
fn is_own(from: usize, place: usize) -> bool
    ensures { IsTrue result ↔ (from ≤ place) }
{
    place >= from
}

// Whether an extension declares a symbol of this name.
fn is_own_symbol(
    alloc: Global,
    index: &NameIndex,
    from: usize,
    name: &[u8],
) -> Result<bool, AllocError>
    ensures { IfOk result (λ own. IsTrue own ↔ rule.IsOwnSymbol (drop from index.now) name.now) }
{
    match index.symbol(alloc, name)? {
        None => Ok(false),
        Some(place) => Ok(is_own(from, place)),
    }
}

// Whether an extension declares an attribute of this name.
fn is_own_attribute(
    alloc: Global,
    index: &NameIndex,
    from: usize,
    name: &[u8],
) -> Result<bool, AllocError>
    ensures { IfOk result (λ own. IsTrue own ↔ rule.IsOwnAttribute (drop from index.now) name.now) }
{
    match index.attribute(alloc, name)? {
        None => Ok(false),
        Some(place) => Ok(is_own(from, place)),
    }
}

// Whether an extension declares that the attribute occurs on the nonterminal.
fn is_own_occurrence(
    alloc: Global,
    index: &NameIndex,
    from: usize,
    attribute: &Bytes,
    nonterminal: &Bytes,
) -> Result<bool, AllocError>
    ensures { IfOk result (λ own. IsTrue own ↔ rule.IsOwnOccurrence (drop from index.now) attribute.now nonterminal.now) }
{
    match index.occurrence(alloc, attribute.as_slice(), nonterminal.as_slice())? {
        None => Ok(false),
        Some(place) => Ok(is_own(from, place)),
    }
}

// Whether the tree at a site of a production is a local that an extension declares.
fn is_own_local(
    alloc: Global,
    index: &NameIndex,
    from: usize,
    production: &Bytes,
    site: &Site,
) -> Result<bool, AllocError>
    requires { meaning.IsSymbol index.now production.now sort.Production }
    ensures { IfOk result (λ own. IsTrue own ↔ rule.IsOwnLocal (drop from index.now) production.now site.now) }
{
    match site {
        Site::Label(label) => is_own_label(alloc, index, from, production, label),
        _ => Ok(false),
    }
}

// Whether a label of a production is that of a local that an extension declares.
fn is_own_label(
    alloc: Global,
    index: &NameIndex,
    from: usize,
    production: &Bytes,
    label: &Bytes,
) -> Result<bool, AllocError>
    requires { meaning.IsSymbol index.now production.now sort.Production }
    ensures { IfOk result (λ own. IsTrue own ↔ spec.HasOwnLocal (drop from index.now) production.now label.now) }
{
    match index.label(alloc, production.as_slice(), label.as_slice())? {
        None => Ok(false),
        Some(place) => {
            if place < from {
                return Ok(false);
            }
            Ok(is_local_at(index.declarations(), place))
        }
    }
}

// Whether the label at a place is that of a local.
fn is_local_at(declarations: &[Declaration], place: usize) -> bool
    ensures { (p l : List ℕ) (is : Labelled) → slice_get declarations.now place ≡ Some (d.Label p l is) → IsTrue result ↔ spec.IsLocal is }
{
    match labelled_at(declarations, place) {
        Some(Labelled::Local(_)) => true,
        _ => false,
    }
}

// Whether a name is that of a production of the host.
fn is_of_host(
    alloc: Global,
    index: &NameIndex,
    from: usize,
    name: &[u8],
) -> Result<bool, AllocError>
    ensures { IfOk result (λ is. IsTrue is ↔ rule.IsOfHost (take from index.now) name.now) }
{
    match index.symbol(alloc, name)? {
        None => Ok(false),
        Some(place) => {
            if place >= from {
                return Ok(false);
            }
            is_production(alloc, index, name)
        }
    }
}

// That an extension may not say this.
fn orphan(name: &Bytes) -> NameRefusal
    ensures { spec.NamesOrphan name.now result }
{
    match name.copy() {
        Ok(name) => NameRefusal::Orphan(name),
        Err(error) => NameRefusal::NoMemory(error),
    }
}
