//! N4: is each name of the kind that its place asks for?
//!
//! Each usage is tested by itself. What a file has where it has no place is listed before, so that one is refused as it is there.

ghost use Rattle.std.specs.Prelude.{◌≡◌, ◌↔◌, ℕ, List, [], All, IfOk, IfErr, OnOk, IsTrue};
ghost use Rattle.wb_names_theory.specs.declared.declaration.Sort.TheVariants as sort;
ghost use Rattle.wb_names_theory.specs.declared.usage.Usage.{Usage};
ghost use Rattle.wb_names_theory.specs.declared.usage.Usage.TheVariants as u;
ghost use Rattle.wb_names_theory.specs.Meaning as meaning;
ghost use Rattle.wb_names_theory.specs.WrongKind as rule;
ghost use Rattle.wb_names_rules.specs.Inner.Tests as spec;

use crate::NameIndex;
use crate::reads::{direction_of, is_production, labelled_as, sort_of};
use crate::sites::{is_lexeme, tree_of};
use std::alloc::{AllocError, Global};
use wb_base::Bytes;
use wb_names_theory::{LabelWanted, Labelled, NameRefusal, Sort, Usage, Wanted};
use wb_syntax_resolved::Direction;

// Whether all that is used is of the right kind, and nothing is where it has no place. The refusal names what isn't.
pub(crate) fn check_kinds(
    alloc: Global,
    index: &NameIndex,
    used: &[Usage],
    unplaced: &[Bytes],
) -> Result<(), NameRefusal>
    ensures ok { OnOk result (All (spec.IsOfKind index.now) used.now) }
    ensures placed { OnOk result (unplaced.now ≡ []) }
    ensures refused { IfErr result (spec.IsWrongIn index.now used.now unplaced.now) }
{
    check_placed(unplaced)?;
    check_usages(alloc, index, used)
}

// Whether nothing is where it has no place.
fn check_placed(unplaced: &[Bytes]) -> Result<(), NameRefusal>
    ensures ok { OnOk result (unplaced.now ≡ []) }
    ensures refused { IfErr result (spec.ShowsPlace unplaced.now) }
{
    if unplaced.is_empty() {
        return Ok(());
    }
    Err(wrong_kind(&unplaced[0]))
}

// Whether all that is used is of the right kind.
fn check_usages(alloc: Global, index: &NameIndex, used: &[Usage]) -> Result<(), NameRefusal>
    ensures ok { OnOk result (All (spec.IsOfKind index.now) used.now) }
    ensures refused { (unplaced : List (List ℕ)) → IfErr result (spec.IsWrongIn index.now used.now unplaced) }
{
    'usages: for usage in used {
        check_usage(alloc, index, usage)?;
    }
    Ok(())
}

// Whether what a usage asks for is of the right kind.
fn check_usage(alloc: Global, index: &NameIndex, usage: &Usage) -> Result<(), NameRefusal>
    ensures ok { OnOk result (spec.IsOfKind index.now usage.now) }
    ensures refused { IfErr result (spec.ShowsKind index.now usage.now) }
{
    match usage {
        Usage::Name { name, wanted } => check_name(alloc, index, name, *wanted),
        Usage::Label {
            production,
            label,
            wanted,
        } => check_label(alloc, index, production, label, *wanted),
        Usage::Attribute { .. } => Ok(()),
        Usage::Needs { .. } => Ok(()),
    }
}

// Whether a name is of the right kind. A place that asks for a symbol takes any attribute, and one that asks for an attribute any symbol,
// since that isn't what is meant there.
fn check_name(
    alloc: Global,
    index: &NameIndex,
    name: &Bytes,
    wanted: Wanted,
) -> Result<(), NameRefusal>
    ensures ok { OnOk result (spec.IsOfKind index.now (u.Name name.now wanted)) }
    ensures refused { IfErr result (spec.ShowsKind index.now (u.Name name.now wanted)) }
{
    check_sort(alloc, index, name, wanted)?;
    check_direction(alloc, index, name, wanted)
}

// Whether the symbol of a name is of the right sort.
fn check_sort(
    alloc: Global,
    index: &NameIndex,
    name: &Bytes,
    wanted: Wanted,
) -> Result<(), NameRefusal>
    ensures ok { OnOk result (spec.SortsSuit index.now name.now wanted) }
    ensures refused { IfErr result (spec.ShowsKind index.now (u.Name name.now wanted)) }
{
    match sort_of(alloc, index, name.as_slice())? {
        None => Ok(()),
        Some(found) => {
            if suits(wanted, found) {
                return Ok(());
            }
            Err(wrong_kind(name))
        }
    }
}

// Whether a place may hold a symbol of this sort.
fn suits(wanted: Wanted, is: Sort) -> bool
    ensures { IsTrue result ↔ rule.Suits wanted is }
{
    match wanted {
        Wanted::Lexical => match is {
            Sort::Terminal => true,
            Sort::Layout => true,
            Sort::Marker => true,
            _ => false,
        },
        Wanted::GrammarSymbol => match is {
            Sort::Terminal => true,
            Sort::Marker => true,
            Sort::Nonterminal => true,
            _ => false,
        },
        Wanted::Nonterminal => match is {
            Sort::Nonterminal => true,
            _ => false,
        },
        Wanted::Production => match is {
            Sort::Production => true,
            _ => false,
        },
        _ => true,
    }
}

// Whether the values of the attribute of a name go the right way.
fn check_direction(
    alloc: Global,
    index: &NameIndex,
    name: &Bytes,
    wanted: Wanted,
) -> Result<(), NameRefusal>
    ensures ok { OnOk result (spec.DirectionsSuit index.now name.now wanted) }
    ensures refused { IfErr result (spec.ShowsKind index.now (u.Name name.now wanted)) }
{
    match direction_of(alloc, index, name.as_slice())? {
        None => Ok(()),
        Some(found) => {
            if suits_direction(wanted, found) {
                return Ok(());
            }
            Err(wrong_kind(name))
        }
    }
}

// Whether a place may hold an attribute whose values go this way.
fn suits_direction(wanted: Wanted, direction: Direction) -> bool
    ensures { IsTrue result ↔ rule.SuitsDirection wanted direction }
{
    match wanted {
        Wanted::Synthesized => match direction {
            Direction::Synthesized => true,
            Direction::Inherited => false,
        },
        Wanted::Inherited => match direction {
            Direction::Synthesized => false,
            Direction::Inherited => true,
        },
        _ => true,
    }
}

// Whether what has a label of a production is what the place asks for, where the production is declared.
fn check_label(
    alloc: Global,
    index: &NameIndex,
    production: &Bytes,
    label: &Bytes,
    wanted: LabelWanted,
) -> Result<(), NameRefusal>
    ensures ok { OnOk result (spec.IsOfKind index.now (u.Label production.now label.now wanted)) }
    ensures refused { IfErr result (spec.ShowsKind index.now (u.Label production.now label.now wanted)) }
{
    if !is_production(alloc, index, production.as_slice())? {
        return Ok(());
    }
    match labelled_as(alloc, index, production.as_slice(), label.as_slice())? {
        None => Ok(()),
        Some(found) => {
            if suits_label(alloc, index, wanted, found)? {
                return Ok(());
            }
            Err(wrong_kind(label))
        }
    }
}

// Whether what has a label is what a place of it asks for.
fn suits_label(
    alloc: Global,
    index: &NameIndex,
    wanted: LabelWanted,
    is: &Labelled,
) -> Result<bool, AllocError>
    ensures { IfOk result (spec.TellsLabel index.now wanted is.now) }
{
    match wanted {
        LabelWanted::Tree => Ok(tree_of(alloc, index, is)?.is_some()),
        LabelWanted::Lexeme => is_lexeme(alloc, index, is),
        LabelWanted::Value => Ok(!is_lexeme(alloc, index, is)?),
    }
}

// That a name is of another kind.
fn wrong_kind(name: &Bytes) -> NameRefusal
    ensures { spec.NamesKind name.now result }
{
    match name.copy() {
        Ok(name) => NameRefusal::WrongKind(name),
        Err(error) => NameRefusal::NoMemory(error),
    }
}
