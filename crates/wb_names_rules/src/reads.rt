//! What does a name or a label mean?
//!
//! The index says where its declaration is; here it is read. The rules are in `unknown`, `kinds` and `orphans`.

ghost use Rattle.std.specs.Prelude.{◌≡◌, ◌↔◌, Some, IfOk, IsTrue, ℕ, List, option_map, slice_get};
ghost use Rattle.wb_syntax_resolved.specs.declared.attributes.Direction.{Direction};
ghost use Rattle.wb_names_theory.specs.declared.declaration.Declaration.TheVariants as d;
ghost use Rattle.wb_names_theory.specs.declared.declaration.Labelled.{Labelled};
ghost use Rattle.wb_names_theory.specs.declared.declaration.Sort.{Sort};
ghost use Rattle.wb_names_theory.specs.declared.declaration.Sort.TheVariants as sort;
ghost use Rattle.wb_names_theory.specs.Meaning as meaning;
ghost use Rattle.wb_names_rules.specs.Inner.Reads as spec;

use crate::NameIndex;
use std::alloc::{AllocError, Global};
use wb_base::Bytes;
use wb_names_theory::{Declaration, Labelled, Site, Sort};
use wb_syntax_resolved::Direction;

// What a name is declared as.
pub(crate) fn sort_of(
    alloc: Global,
    index: &NameIndex,
    name: &[u8],
) -> Result<Option<Sort>, AllocError>
    ensures { IfOk result (λ found. spec.IsSortOf index.now name.now found) }
{
    match index.symbol(alloc, name)? {
        None => Ok(None),
        Some(place) => Ok(sort_at(index.declarations(), place)),
    }
}

// What the declaration at a place declares its name as.
fn sort_at(declarations: &[Declaration], place: usize) -> Option<Sort>
    ensures { (name : List ℕ) (is : Sort) → slice_get declarations.now place ≡ Some (d.Symbol name is) → result ≡ Some is }
{
    if place >= declarations.len() {
        return None;
    }
    match &declarations[place] {
        Declaration::Symbol { sort, .. } => Some(*sort),
        _ => None,
    }
}

// Which way the values of an attribute go.
pub(crate) fn direction_of(
    alloc: Global,
    index: &NameIndex,
    name: &[u8],
) -> Result<Option<Direction>, AllocError>
    ensures { IfOk result (λ found. spec.IsDirectionOf index.now name.now found) }
{
    match index.attribute(alloc, name)? {
        None => Ok(None),
        Some(place) => Ok(direction_at(index.declarations(), place)),
    }
}

// Which way the values of the attribute at a place go.
fn direction_at(declarations: &[Declaration], place: usize) -> Option<Direction>
    ensures { (name : List ℕ) (is : Direction) → slice_get declarations.now place ≡ Some (d.Attribute name is) → result ≡ Some is }
{
    if place >= declarations.len() {
        return None;
    }
    match &declarations[place] {
        Declaration::Attribute { direction, .. } => Some(*direction),
        _ => None,
    }
}

// What a label of a production is.
pub(crate) fn labelled_as<'a>(
    alloc: Global,
    index: &'a NameIndex,
    production: &[u8],
    label: &[u8],
) -> Result<Option<&'a Labelled>, AllocError>
    requires { meaning.IsSymbol index.now production.now sort.Production }
    ensures { IfOk result (λ found. spec.IsLabelledAs index.now production.now label.now (option_map (λ x. x.now) found)) }
{
    match index.label(alloc, production, label)? {
        None => Ok(None),
        Some(place) => Ok(labelled_at(index.declarations(), place)),
    }
}

// What the label at a place is.
pub(crate) fn labelled_at(declarations: &[Declaration], place: usize) -> Option<&Labelled>
    ensures { (p l : List ℕ) (is : Labelled) → slice_get declarations.now place ≡ Some (d.Label p l is) → option_map (λ x. x.now) result ≡ Some is }
{
    if place >= declarations.len() {
        return None;
    }
    match &declarations[place] {
        Declaration::Label { is, .. } => Some(is),
        _ => None,
    }
}

// The nonterminal on the left of a production.
pub(crate) fn left_of<'a>(
    alloc: Global,
    index: &'a NameIndex,
    production: &[u8],
) -> Result<Option<&'a Bytes>, AllocError>
    ensures { IfOk result (λ found. spec.IsLeftOf index.now production.now (option_map (λ x. x.now) found)) }
{
    match index.left(alloc, production)? {
        None => Ok(None),
        Some(place) => Ok(left_at(index.declarations(), place)),
    }
}

// The nonterminal on the left of the production at a place.
fn left_at(declarations: &[Declaration], place: usize) -> Option<&Bytes>
    ensures { (p n : List ℕ) → slice_get declarations.now place ≡ Some (d.Left p n) → option_map (λ x. x.now) result ≡ Some n }
{
    if place >= declarations.len() {
        return None;
    }
    match &declarations[place] {
        Declaration::Left { nonterminal, .. } => Some(nonterminal),
        _ => None,
    }
}

// Whether a name is declared as a nonterminal.
pub(crate) fn is_nonterminal(
    alloc: Global,
    index: &NameIndex,
    name: &[u8],
) -> Result<bool, AllocError>
    ensures { IfOk result (λ is. IsTrue is ↔ meaning.IsSymbol index.now name.now sort.Nonterminal) }
{
    match sort_of(alloc, index, name)? {
        None => Ok(false),
        Some(sort) => Ok(is_nonterminal_sort(sort)),
    }
}

// Whether the sort is that of nonterminals.
fn is_nonterminal_sort(is: Sort) -> bool
    ensures { IsTrue result ↔ (is ≡ sort.Nonterminal) }
{
    match is {
        Sort::Nonterminal => true,
        _ => false,
    }
}

// Whether a name is declared as a production.
pub(crate) fn is_production(
    alloc: Global,
    index: &NameIndex,
    name: &[u8],
) -> Result<bool, AllocError>
    ensures { IfOk result (λ is. IsTrue is ↔ meaning.IsSymbol index.now name.now sort.Production) }
{
    match sort_of(alloc, index, name)? {
        None => Ok(false),
        Some(sort) => Ok(is_production_sort(sort)),
    }
}

// Whether the sort is that of productions.
fn is_production_sort(is: Sort) -> bool
    ensures { IsTrue result ↔ (is ≡ sort.Production) }
{
    match is {
        Sort::Production => true,
        _ => false,
    }
}
