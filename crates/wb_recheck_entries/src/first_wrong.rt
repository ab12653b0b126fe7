//! Is each entry right, or which is the first that isn't?

ghost use Rattle.std.specs.Prelude.{◌≡◌, ◌<◌, ◌↔◌, IfOk, IfErr, IsTrue, Some, length, map, slice_get};
ghost use Rattle.wb_recheck_theory.specs.declared.entry.Entry.{Entry};
ghost use Rattle.wb_recheck_theory.specs.Entries.{first_entry};
ghost use Rattle.wb_recheck_entries.specs.Faults.{AreRightEntries, IsEntryRefusal, IsRightEntry};
ghost use Rattle.wb_recheck_entries.specs.Inner.Walks.{AreKeysUpTo};
ghost use Rattle.wb_recheck_entries.specs.Keys.{key_of};
ghost use Rattle.wb_recheck_entries.specs.References.{IsReference};

use crate::follows::follows;
use crate::{EntryKeys, EntryRefusal, Reference};
use std::alloc::Global;
use wb_base::Grammar;
use wb_recheck_theory::Entry;

/// The keys of the entries, where each is right, or the place of the first that isn't.
///
/// It takes time in the entries and, for each, that of a search among the moves of a kernel and of reading what is behind a dot.
pub fn keys_of_entries(
    alloc: Global,
    reference: &Reference,
    entries: &[Entry],
) -> Result<EntryKeys, EntryRefusal>
    requires { IsReference reference.now }
    ensures right { IfOk result (λ keys. AreRightEntries reference.now.grammar.now reference.now.lines.now entries.now) }
    ensures keys { IfOk result (λ keys. keys ≡ map key_of entries.now) }
    ensures refused { IfErr result (IsEntryRefusal reference.now.grammar.now reference.now.lines.now entries.now) }
{
    let mut keys = EntryKeys::with_capacity(alloc, entries.len())?;
    'entries: for place in 0..entries.len() {
        let entry = entry_at(entries, place);
        if !is_right(reference, &keys, entries, place, entry) {
            return Err(EntryRefusal::Wrong(place));
        }
        keys.insert(key(entry))?;
    }
    Ok(keys)
}

// Whether the entry at a place is right, where those before it are.
fn is_right(
    reference: &Reference,
    keys: &EntryKeys,
    entries: &[Entry],
    place: usize,
    entry: Entry,
) -> bool
    requires reference { IsReference reference.now }
    requires before { AreKeysUpTo reference.now.grammar.now reference.now.lines.now entries.now keys.now place }
    requires place { place < length entries.now }
    ensures { IsTrue result ↔ IsRightEntry reference.now.grammar.now reference.now.lines.now entries.now place entry }
{
    let _count = reference.grammar.productions();
    if place == 0 {
        return is_first(reference.grammar, entry);
    }
    match entry.origin {
        None => false,
        Some(origin) => {
            if origin >= place {
                return false;
            }
            if keys.has(key(entry)) {
                return false;
            }
            follows(reference, entry_at(entries, origin), entry)
        }
    }
}

// Whether an entry is the first of a certificate.
fn is_first(grammar: &Grammar, entry: Entry) -> bool
    ensures { IsTrue result ↔ (entry ≡ first_entry grammar.now) }
{
    entry.kernel == 0
        && entry.item.production == grammar.productions()
        && entry.item.dot == 0
        && entry.terminal == grammar.terminals()
        && entry.origin.is_none()
}

// The entry at a place.
pub(crate) fn entry_at(entries: &[Entry], place: usize) -> Entry
    requires { place < length entries.now }
    ensures { slice_get entries.now place ≡ Some result }
{
    entries[place]
}

// The key of an entry.
pub(crate) fn key(entry: Entry) -> ((usize, usize), (usize, usize))
    ensures { result ≡ key_of entry }
{
    (
        (entry.kernel, entry.item.production),
        (entry.item.dot, entry.terminal),
    )
}
