//! Renumbers the attributes, occurrences and preferences of a base.
//!
//! Attributes keep their numbers. What a file adds to them is in `plains`.

ghost use Rattle.std.specs.Prelude.{◌<◌, All, IfOk, OnOk, length};
ghost use Rattle.wb_names_rows.specs.Base.{IsAttributeNow, IsOccurrenceNow, IsPreferenceNow, PreferenceIsWithin};
ghost use Rattle.wb_names_rows.specs.Moves.{KindIsWithin};
ghost use Rattle.wb_names_rows.specs.Plains.{AddsEach};

use crate::moves::{Moves, moved_kind};
use crate::node::copied;
use std::alloc::{AllocError, Global};
use wb_base::push;
use wb_syntax_resolved::{Attribute, Occurrence, Preference};

/// Adds these attributes.
pub fn add_attributes(
    moves: &Moves,
    attributes: &[Attribute],
    made: &mut Vec<Attribute>,
) -> Result<(), AllocError>
    requires { All (λ a. KindIsWithin moves.now a.kind) attributes.now }
    ensures { OnOk result (AddsEach (IsAttributeNow moves.now) attributes.now made.old.items made.new.items) }
{
    for attribute in attributes {
        let moved = moved_attribute(moves, attribute)?;
        push(made, moved)?;
    }
    Ok(())
}

// One attribute.
fn moved_attribute(moves: &Moves, attribute: &Attribute) -> Result<Attribute, AllocError>
    requires { KindIsWithin moves.now attribute.now.kind }
    ensures { IfOk result (IsAttributeNow moves.now attribute.now) }
{
    Ok(Attribute {
        name: attribute.name.copy()?,
        owner: attribute.owner,
        direction: attribute.direction,
        kind: moved_kind(moves, attribute.kind),
    })
}

/// Adds these occurrences.
pub fn add_occurrences(
    alloc: Global,
    moves: &Moves,
    occurrences: &[Occurrence],
    made: &mut Vec<Occurrence>,
) -> Result<(), AllocError>
    requires { All (λ o. o.nonterminal < length moves.now.nonterminals.items) occurrences.now }
    ensures { OnOk result (AddsEach (IsOccurrenceNow moves.now) occurrences.now made.old.items made.new.items) }
{
    for occurrence in occurrences {
        let moved = moved_occurrence(alloc, moves, occurrence)?;
        push(made, moved)?;
    }
    Ok(())
}

// One occurrence.
fn moved_occurrence(
    alloc: Global,
    moves: &Moves,
    occurrence: &Occurrence,
) -> Result<Occurrence, AllocError>
    requires { occurrence.now.nonterminal < length moves.now.nonterminals.items }
    ensures { IfOk result (IsOccurrenceNow moves.now occurrence.now) }
{
    Ok(Occurrence {
        owner: occurrence.owner,
        attribute: occurrence.attribute,
        nonterminal: moves.nonterminals[occurrence.nonterminal],
        needs: copied(alloc, occurrence.needs.as_slice())?,
    })
}

/// Adds these preferences.
pub fn add_preferences(
    moves: &Moves,
    preferences: &[Preference],
    made: &mut Vec<Preference>,
) -> Result<(), AllocError>
    requires { All (PreferenceIsWithin moves.now) preferences.now }
    ensures { OnOk result (AddsEach (IsPreferenceNow moves.now) preferences.now made.old.items made.new.items) }
{
    for preference in preferences {
        push(made, moved_preference(moves, preference))?;
    }
    Ok(())
}

// One preference.
fn moved_preference(moves: &Moves, preference: &Preference) -> Preference
    requires { PreferenceIsWithin moves.now preference.now }
    ensures { IsPreferenceNow moves.now preference.now result }
{
    Preference {
        first: moves.terminals[preference.first],
        second: moves.terminals[preference.second],
    }
}
