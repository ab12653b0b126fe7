//! The lookaheads of a certificate, by the numbers of kernels.

ghost use Rattle.std.specs.Prelude.{IfOk};
ghost use Rattle.wb_items.specs.Apart.{AreApart};
ghost use Rattle.wb_items.specs.Lookaheads.{AreEmpty, AreLookaheadsOf};
ghost use Rattle.wb_items.specs.LookaheadSets.{AreLookaheads};
ghost use Rattle.wb_recheck_theory.specs.Certificates.{IsCertificate};
ghost use Rattle.wb_recheck_entries.specs.References.{IsReference};

use crate::Reference;
use crate::first_wrong::entry_at;
use std::alloc::{AllocError, Global};
use wb_items::Lookaheads;
use wb_recheck_theory::Entry;

/// The lookaheads that a certificate lists, which are those of the grammar's kernels.
///
/// Nothing is looked for: each entry is put into the set at its item. No clause bounds the time.
pub fn lookaheads_of_entries(
    alloc: Global,
    reference: &Reference,
    entries: &[Entry],
) -> Result<Lookaheads, AllocError>
    requires reference { IsReference reference.now }
    requires certificate { IsCertificate reference.now.grammar.now reference.now.lines.now entries.now }
    ensures { IfOk result (AreLookaheads reference.now.kernels.now) }
{
    let mut lookaheads = Lookaheads::new(alloc, reference.grammar, reference.kernels)?;
    gather(reference, entries, &mut lookaheads);
    Ok(lookaheads)
}

// Puts the terminal of each entry into the set at its item.
fn gather(reference: &Reference, entries: &[Entry], lookaheads: &mut Lookaheads)
    requires reference { IsReference reference.now }
    requires certificate { IsCertificate reference.now.grammar.now reference.now.lines.now entries.now }
    requires shape { AreLookaheadsOf reference.now.kernels.now lookaheads.old }
    requires empty { AreEmpty lookaheads.old }
    requires apart { AreApart reference.now.kernels.now.grammar lookaheads.old }
    ensures { AreLookaheads reference.now.kernels.now lookaheads.new }
{
    'entries: for place in 0..entries.len() {
        let entry = entry_at(entries, place);
        let state = reference.found.state(entry.kernel);
        lookaheads.insert(state, entry.item, entry.terminal);
    }
}
