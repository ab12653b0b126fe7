//! Does an item of a new kernel of the host's items have a lookahead beyond the envelope?

ghost use Rattle.std.specs.Prelude.{◌≡◌, ◌<◌, MatchOption, Contains};
ghost use Rattle.wb_grammar_theory.specs.Closure.{InClosure};
ghost use Rattle.wb_grammar_theory.specs.declared.item.Item.{Item};
ghost use Rattle.wb_items.specs.Kernels.{count_of};
ghost use Rattle.wb_determinism.specs.Inner.Contexts.{IsContext, host_of};
ghost use Rattle.wb_determinism.specs.Inner.Envelopes.{AreInKernel, IsEnvelopeRow, IsEnvelopeSet, IsRowFault, KeepsLooks, KeepsRow};

use crate::context::{Context, ItemFault};
use crate::lookahead_rule::foreign_member;
use crate::numbers::item_after;
use wb_items::{Item, ItemLookahead};

// The first lookahead that an item of the closure mustn't have at a kernel of the extended host.
pub(crate) fn row_fault(
    context: &Context,
    state: usize,
    own: &[Item],
    row: &[ItemLookahead],
) -> Option<ItemFault>
    requires context { IsContext context.now }
    requires state { state < count_of context.now.both.now }
    requires own { AreInKernel context.now state own.now }
    requires row { IsEnvelopeRow (host_of context.now) own.now row.now }
    ensures { MatchOption result (KeepsRow context.now own.now state) (λ found. IsRowFault context.now own.now state found.item found.terminal) }
{
    'items: for looks in row {
        if let Some(fault) = looks_fault(context, state, own, looks) {
            return Some(fault);
        }
    }
    None
}

// The first of one item.
fn looks_fault(
    context: &Context,
    state: usize,
    own: &[Item],
    looks: &ItemLookahead,
) -> Option<ItemFault>
    requires context { IsContext context.now }
    requires state { state < count_of context.now.both.now }
    requires own { AreInKernel context.now state own.now }
    requires within { InClosure (host_of context.now) (Contains own.now) looks.now.item }
    requires set { IsEnvelopeSet (host_of context.now) own.now looks.now }
    ensures { MatchOption result (KeepsLooks context.now own.now state looks.now.item) (λ found. IsRowFault context.now own.now state found.item found.terminal) }
{
    let item = item_after(context.numbers, looks.item);
    let Some(place) = context.both_lookaheads.find(state, item) else {
        return None;
    };
    let set = context.both_lookaheads.at(state, place);
    match foreign_member(set, context.images, &looks.set) {
        Some(terminal) => Some(ItemFault { item, terminal }),
        None => None,
    }
}
