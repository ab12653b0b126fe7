//! Is what follows from each entry listed, or of which kernel is something missing?

ghost use Rattle.std.specs.Prelude.{◌≡◌, IfOk, MatchOption, map};
ghost use Rattle.wb_recheck_theory.specs.Entries.{AreEntriesListed};
ghost use Rattle.wb_recheck_entries.specs.Faults.{AreRightEntries, AreWholeEntries, LacksEntry};
ghost use Rattle.wb_recheck_entries.specs.Inner.Walks.{IsListing};
ghost use Rattle.wb_recheck_entries.specs.Keys.{key_of};
ghost use Rattle.wb_recheck_entries.specs.References.{IsReference};

use crate::first_wrong::entry_at;
use crate::known::{Known, Listing};
use crate::unlisted::lacks_follower;
use crate::{EntryKeys, Reference};
use std::alloc::{AllocError, Global};
use wb_items::production_numbers;
use wb_recheck_theory::Entry;

/// A kernel of which a lookahead isn't listed though it follows from one of its entries, or 0 where there is no entry, if there is such.
///
/// The entries are right, and the keys are theirs. It takes time in the entries and, for each kernel and item, in the terminals that begin
/// what is behind the item's dot.
pub fn missing_entry(
    alloc: Global,
    reference: &Reference,
    entries: &[Entry],
    keys: &EntryKeys,
) -> Result<Option<usize>, AllocError>
    requires reference { IsReference reference.now }
    requires right { AreRightEntries reference.now.grammar.now reference.now.lines.now entries.now }
    requires keys { keys.now ≡ map key_of entries.now }
    ensures { IfOk result (λ found. MatchOption found (AreWholeEntries reference.now.grammar.now reference.now.lines.now entries.now) (LacksEntry reference.now.grammar.now reference.now.lines.now entries.now)) }
{
    if entries.len() == 0 {
        return Ok(Some(0));
    }
    let productions = production_numbers(alloc, reference.grammar)?;
    let answer = lacking(
        alloc,
        &Listing {
            reference,
            productions: &productions,
            keys,
        },
        entries,
    );
    drop(productions);
    answer
}

// The kernel of the first entry of which a follower isn't listed.
fn lacking(alloc: Global, listing: &Listing, entries: &[Entry]) -> Result<Option<usize>, AllocError>
    requires listing { IsListing listing.now }
    requires right { AreRightEntries listing.now.reference.now.grammar.now listing.now.reference.now.lines.now entries.now }
    requires keys { listing.now.keys.now ≡ map key_of entries.now }
    ensures { IfOk result (λ found. MatchOption found (AreEntriesListed listing.now.reference.now.grammar.now listing.now.reference.now.lines.now entries.now) (LacksEntry listing.now.reference.now.grammar.now listing.now.reference.now.lines.now entries.now)) }
{
    let mut known = Known::new(alloc);
    'entries: for place in 0..entries.len() {
        let entry = entry_at(entries, place);
        let lacks = lacks_follower(listing, entry, &mut known)?;
        if lacks {
            return Ok(Some(entry.kernel));
        }
    }
    Ok(None)
}
