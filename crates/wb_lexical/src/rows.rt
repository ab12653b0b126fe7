//! Relations between terminals as rows of sets: which terminals are in one set, and which does a preference order?
//!
//! A row is a set of terminals, so a set of `sets` is united with the row of each of its members by words.

ghost use Rattle.std.specs.Prelude.{◌≡◌, ◌<◌, ◌↔◌, ◌⊎◌, ℕ, IfOk, IsTrue, length, replicate, false};
ghost use Rattle.wb_termset.specs.Sets.{IsMember};
ghost use Rattle.wb_lexical.specs.Clash.{AreOrdered};
ghost use Rattle.wb_lexical.specs.Inner.Rows.{AreThese, AreTogether, HaveWidth, HoldPairs, Take};

use std::alloc::{AllocError, Global};
use wb_base::push;
use wb_termset::TermSet;

// For each of so many terminals those that are in a set with it.
pub(crate) fn rows_together(
    alloc: Global,
    count: usize,
    sets: &[TermSet],
) -> Result<Vec<TermSet>, AllocError>
    ensures { IfOk result (λ rows. HoldPairs count (AreTogether sets.now) rows.items) }
{
    let mut rows = empty_rows(alloc, count)?;
    'sets: for set in sets {
        add_set(set, &mut rows);
    }
    Ok(rows)
}

// For each of so many terminals those that a preference orders against it.
pub(crate) fn rows_ordered(
    alloc: Global,
    count: usize,
    preferences: &[(usize, usize)],
) -> Result<Vec<TermSet>, AllocError>
    ensures { IfOk result (λ rows. HoldPairs count (AreOrdered preferences.now) rows.items) }
{
    let mut rows = empty_rows(alloc, count)?;
    'preferences: for preference in preferences {
        add_preference(preference.0, preference.1, &mut rows);
    }
    Ok(rows)
}

// So many empty rows, each with room for so many.
fn empty_rows(alloc: Global, count: usize) -> Result<Vec<TermSet>, AllocError>
    ensures { IfOk result (λ rows. rows.items ≡ replicate count (replicate count false)) }
{
    let mut rows = Vec::new(alloc);
    'rows: for _row in 0..count {
        push(&mut rows, TermSet::new(alloc, count)?)?;
    }
    Ok(rows)
}

// Unites a set with the row of each of its members. Members without a row count for nothing.
fn add_set(set: &TermSet, rows: &mut Vec<TermSet>)
    requires { HaveWidth (length rows.old.items) rows.old.items }
    ensures { Take (λ t u. IsMember set.now t × IsMember set.now u) rows.old.items rows.new.items }
{
    let mut from = 0;
    'members: while let Some(member) = set.next_member(from) {
        unite(member, set, rows);
        from = member + 1;
    }
}

// Unites a set with the row of a terminal, where there is one.
fn unite(terminal: usize, set: &TermSet, rows: &mut Vec<TermSet>)
    requires { HaveWidth (length rows.old.items) rows.old.items }
    ensures { Take (λ t u. (t ≡ terminal) × IsMember set.now u) rows.old.items rows.new.items }
{
    if terminal >= rows.len() {
        return;
    }
    unite_row(set, &mut rows[terminal]);
}

// Adds the members of a set, as far as there is room.
fn unite_row(set: &TermSet, row: &mut TermSet)
    ensures len { length row.new ≡ length row.old }
    ensures each { (u : ℕ) → u < length row.old → IsMember row.new u ↔ (IsMember row.old u ⊎ IsMember set.now u) }
{
    if set.count() != row.count() {
        add_members(set, row);
        return;
    }
    row.union_with(set);
}

// Adds the members of a set of another size, as far as there is room.
fn add_members(set: &TermSet, row: &mut TermSet)
    ensures len { length row.new ≡ length row.old }
    ensures each { (u : ℕ) → u < length row.old → IsMember row.new u ↔ (IsMember row.old u ⊎ IsMember set.now u) }
{
    'numbers: for number in 0..row.count() {
        if has(set, number) {
            row.insert(number);
        }
    }
}

// Whether a number, which may be any, is a member.
pub(crate) fn has(set: &TermSet, number: usize) -> bool
    ensures { IsTrue result ↔ IsMember set.now number }
{
    number < set.count() && set.contains(number)
}

// Adds two terminals to the rows of each other, where both have one.
fn add_preference(first: usize, second: usize, rows: &mut Vec<TermSet>)
    requires { HaveWidth (length rows.old.items) rows.old.items }
    ensures { Take (AreThese first second) rows.old.items rows.new.items }
{
    if first >= rows.len() {
        return;
    }
    if second >= rows.len() {
        return;
    }
    put(first, second, rows);
    put(second, first, rows);
}

// Adds a terminal to a row.
fn put(row: usize, terminal: usize, rows: &mut Vec<TermSet>)
    requires widths { HaveWidth (length rows.old.items) rows.old.items }
    requires row { row < length rows.old.items }
    requires terminal { terminal < length rows.old.items }
    ensures { Take (λ t u. (t ≡ row) × (u ≡ terminal)) rows.old.items rows.new.items }
{
    rows[row].insert(terminal);
}
