//! How does a set of terminals come to an item? It is joined to the item's own, and the item waits if that grew.

ghost use Rattle.std.specs.Prelude.{◌≡◌, ◌+◌, ◌<◌, ℕ, OnOk, Some, length, slice_get};
ghost use Rattle.wb_termset.specs.Sets.{IsMember};
ghost use Rattle.wb_grammar_theory.specs.Items.{HasItem};
ghost use Rattle.wb_items.specs.Kernels.{AreKernels, count_of, prefix_of};
ghost use Rattle.wb_items.specs.declared.item_lookahead.ItemLookahead.{ItemLookahead};
ghost use Rattle.wb_items.specs.Lookaheads.{AnswersUnion, Lists, items_in, row_of};
ghost use Rattle.wb_lookahead.specs.Inner.Spreading.{AreSound, FlowsTo, Spreads};

use crate::worklist::{Place, Worklist};
use std::alloc::AllocError;
use wb_items::{Item, Kernels, Lookaheads};
use wb_termset::TermSet;

// Adds terminals to the set at an item, which then waits unless it had them.
pub(crate) fn spread(
    kernels: &Kernels,
    state: usize,
    item: Item,
    set: &TermSet,
    lookaheads: &mut Lookaheads,
    worklist: &mut Worklist,
) -> Result<(), AllocError>
    requires kernels { AreKernels kernels.now }
    requires state { state < count_of kernels.now }
    requires has { HasItem kernels.now.grammar (prefix_of kernels.now state) item }
    requires len { length set.now ≡ kernels.now.grammar.terminals + 1 }
    requires flows { (t : ℕ) → IsMember set.now t → FlowsTo kernels.now state item t }
    requires sound { AreSound kernels.now lookaheads.old worklist.old }
    ensures sound { OnOk result (AreSound kernels.now lookaheads.new worklist.new) }
    ensures spreads { OnOk result (Spreads lookaheads.old worklist.old lookaheads.new worklist.new) }
    ensures lists { OnOk result ((t : ℕ) → IsMember set.now t → Lists lookaheads.new state item t) }
{
    let at = lookaheads.place_near(state, item, worklist.near(item));
    worklist.note(item, at);
    if unite(Place { state, item, at }, set, lookaheads) {
        worklist.add(Place { state, item, at })?;
    }
    Ok(())
}

// Adds terminals to the set at a place, and answers whether one was new.
fn unite(place: Place, set: &TermSet, lookaheads: &mut Lookaheads) -> bool
    requires state { place.state < length lookaheads.old.items }
    requires here { slice_get (items_in (row_of lookaheads.old place.state)) place.at ≡ Some place.item }
    requires len { (looks : ItemLookahead) → slice_get (row_of lookaheads.old place.state) place.at ≡ Some looks → length looks.set ≡ length set.now }
    ensures { AnswersUnion lookaheads.old place.state place.item set.now lookaheads.new result }
{
    lookaheads.union_at(place.state, place.at, set)
}
