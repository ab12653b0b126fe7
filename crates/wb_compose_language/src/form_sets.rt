//! Which forms does the scanner consider at each state?
//!
//! Those of terminals that are valid there, and layout, whose places come after those of forms: an extension's own is considered where the
//! kernel holds an item of one of the extension's productions.

ghost use Rattle.std.specs.Prelude.{◌≡◌, ◌≤◌, ◌+◌, ◌↔◌, ◌⊎◌, ℕ, IfOk, IsTrue, length};
ghost use Rattle.wb_items.specs.Kernels.{count_of};
ghost use Rattle.wb_lookahead.specs.Contents.{size_of};
ghost use Rattle.wb_termset.specs.Sets.{IsMember};
ghost use Rattle.wb_compose_language.specs.Inner.Sets.{AreFormSets, HasRoom, HaveRoom, IsFormBy, IsLayoutBefore, IsValidForm, ListsFrom, ListsOne};

use std::alloc::{AllocError, Global};
use wb_base::push;
use wb_determinism_contexts::Parts;
use wb_items::Item;
use wb_scan_theory::Form;
use wb_termset::TermSet;

// Forms, of each layout the productions by which it is considered, and how many forms and layouts there are.
#[derive(Clone, Copy)]
pub(crate) struct Considered<'a> {
    pub(crate) forms: &'a [Form],
    pub(crate) spans: &'a [Option<(usize, usize)>],
    pub(crate) count: usize,
}

// What is considered at each state.
pub(crate) fn form_sets(
    alloc: Global,
    parts: &Parts,
    considered: &Considered,
) -> Result<Vec<TermSet>, AllocError>
    requires kernels { count_of parts.now.kernels ≡ size_of parts.now.tables }
    requires room { HaveRoom considered.now.forms.now parts.now.tables }
    requires count { considered.now.count ≡ length considered.now.forms.now + length considered.now.spans.now }
    ensures { IfOk result (λ sets. AreFormSets parts.now.kernels parts.now.tables considered.now.forms.now considered.now.spans.now (size_of parts.now.tables) sets.items) }
{
    let mut sets = Vec::new(alloc);
    'states: for state in 0..parts.tables.count() {
        let items = parts.kernels.kernel(state);
        let set = form_set(alloc, parts.tables.valid(state), items, considered)?;
        push(&mut sets, set)?;
    }
    Ok(sets)
}

// The forms of the set's terminals, and layout, where the kernel has these items.
fn form_set(
    alloc: Global,
    valid: &TermSet,
    items: &[Item],
    considered: &Considered,
) -> Result<TermSet, AllocError>
    requires room { HasRoom considered.now.forms.now valid.now }
    requires count { considered.now.count ≡ length considered.now.forms.now + length considered.now.spans.now }
    ensures { IfOk result (λ set. (p : ℕ) → IsMember set p ↔ IsFormBy valid.now items.now considered.now.forms.now considered.now.spans.now p) }
{
    let mut set = TermSet::new(alloc, considered.count)?;
    add_layout(&mut set, items, considered);
    add_forms(&mut set, valid, considered.forms);
    Ok(set)
}

// Adds the places of layout to an empty set.
fn add_layout(set: &mut TermSet, items: &[Item], considered: &Considered)
    requires empty { (p : ℕ) → ¬ IsMember set.old p }
    requires room { length set.old ≡ length considered.now.forms.now + length considered.now.spans.now }
    ensures len { length set.new ≡ length set.old }
    ensures each { (p : ℕ) → IsMember set.new p ↔ IsLayoutBefore items.now (length considered.now.forms.now) considered.now.spans.now (length considered.now.spans.now) p }
{
    'layout: for place in 0..considered.spans.len() {
        if lists_one(items, considered.spans[place]) {
            set.insert(considered.forms.len() + place);
        }
    }
}

// Whether one of the items is of one of these productions, or none are given.
fn lists_one(items: &[Item], span: Option<(usize, usize)>) -> bool
    ensures { IsTrue result ↔ ListsOne items.now span }
{
    match span {
        None => true,
        Some(span) => has_item_of(items, span),
    }
}

// Whether one of the items is of these productions, from the first number to before the second.
fn has_item_of(items: &[Item], span: (usize, usize)) -> bool
    ensures { IsTrue result ↔ ListsFrom items.now span }
{
    items.iter().any(|item| span.0 <= item.production && item.production < span.1)
}

// Adds the places of forms of the other set's terminals.
fn add_forms(set: &mut TermSet, valid: &TermSet, forms: &[Form])
    requires room { HasRoom forms.now valid.now }
    requires set { length forms.now ≤ length set.old }
    ensures len { length set.new ≡ length set.old }
    ensures each { (p : ℕ) → IsMember set.new p ↔ (IsValidForm valid.now forms.now p ⊎ IsMember set.old p) }
{
    'forms: for place in 0..forms.len() {
        if valid.contains(forms[place].terminal) {
            set.insert(place);
        }
    }
}
