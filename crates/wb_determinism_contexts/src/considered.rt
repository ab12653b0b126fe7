//! Which terminals does a scanner consider at each kernel?
//!
//! Those that are valid there, layout, and an extension's layout where the kernel holds an item of one of the extension's productions.

ghost use Rattle.std.specs.Prelude.{◌≡◌, ◌≤◌, ◌<◌, ◌↔◌, ◌⊎◌, ℕ, IfOk, IsTrue, length};
ghost use Rattle.wb_termset.specs.Sets.{IsEmpty, IsMember};
ghost use Rattle.wb_items.specs.Kernels.{count_of};
ghost use Rattle.wb_lookahead.specs.Tables.{AreValidSets};
ghost use Rattle.wb_determinism_contexts.specs.Sets.{AreConsideredSets, FitsGrammar, lent};
ghost use Rattle.wb_determinism_contexts.specs.Inner.Own.{IsConsideredBy, IsOwnBy, ListsFrom};

use crate::Lexicon;
use std::alloc::{AllocError, Global};
use wb_base::push;
use wb_items::{Item, Kernels};
use wb_termset::TermSet;

/// For each kernel the set of what is considered there: the scanned terminals that are valid at its prefixes, layout, and an extension's
/// layout where the kernel holds an item of one of its productions.
///
/// The valid terminals are those of each kernel by number.
pub fn considered_sets(
    alloc: Global,
    kernels: &Kernels,
    valid: &[TermSet],
    lexicon: &Lexicon,
) -> Result<Vec<TermSet>, AllocError>
    requires valid { AreValidSets kernels.now valid.now }
    requires lexicon { FitsGrammar kernels.now.grammar.terminals (lent lexicon.now) }
    ensures { IfOk result (λ sets. AreConsideredSets kernels.now (lent lexicon.now) (count_of kernels.now) sets.items) }
{
    let no_own = lexicon.own_layout.is_empty();
    let mut sets = Vec::new(alloc);
    'kernels: for state in 0..kernels.count() {
        let set = considered_set(lexicon, &valid[state], kernels.kernel(state), no_own)?;
        push(&mut sets, set)?;
    }
    Ok(sets)
}

// What is considered at a kernel with these items and this valid set; whether no extension has layout is known.
fn considered_set(
    lexicon: &Lexicon,
    valid: &TermSet,
    items: &[Item],
    no_own: bool,
) -> Result<TermSet, AllocError>
    requires layout { lexicon.now.scanned ≤ length lexicon.now.layout.now }
    requires own_layout { length lexicon.now.own_layout.now ≡ length lexicon.now.layout.now }
    requires valid { lexicon.now.scanned ≤ length valid.now }
    requires no_own { IsTrue no_own → IsEmpty lexicon.now.own_layout.now }
    ensures len { IfOk result (λ set. length set ≡ length lexicon.now.layout.now) }
    ensures each { IfOk result (λ set. (t : ℕ) → IsMember set t ↔ IsConsideredBy (lent lexicon.now) valid.now items.now t) }
{
    let mut set = lexicon.layout.copy()?;
    add_members(&mut set, valid, lexicon.scanned);
    if !no_own {
        add_own(&mut set, lexicon, items);
    }
    Ok(set)
}

// Adds an extension's layout, where one of the items is of its productions.
fn add_own(set: &mut TermSet, lexicon: &Lexicon, items: &[Item])
    requires { length lexicon.now.own_layout.now ≡ length set.old }
    ensures len { length set.new ≡ length set.old }
    ensures each { (t : ℕ) → IsMember set.new t ↔ (IsOwnBy (lent lexicon.now) items.now t ⊎ IsMember set.old t) }
{
    if has_item_of(items, lexicon.own_productions) {
        add_members(set, lexicon.own_layout, lexicon.own_layout.count());
    }
}

// Whether one of the items is of these productions, from the first number to before the second.
fn has_item_of(items: &[Item], productions: (usize, usize)) -> bool
    ensures { IsTrue result ↔ ListsFrom items.now productions }
{
    items.iter().any(|item| productions.0 <= item.production && item.production < productions.1)
}

// Adds the members of another set below a number.
fn add_members(set: &mut TermSet, other: &TermSet, below: usize)
    requires set { below ≤ length set.old }
    requires other { below ≤ length other.now }
    ensures len { length set.new ≡ length set.old }
    ensures each { (t : ℕ) → IsMember set.new t ↔ (((t < below) × IsMember other.now t) ⊎ IsMember set.old t) }
{
    let mut from = 0;
    'members: while let Some(number) = other.next_member(from) {
        if number >= below {
            return;
        }
        set.insert(number);
        from = number + 1;
    }
}
