//! Does an extension add lookaheads to items of the host's kernels?

ghost use Rattle.std.specs.Prelude.{◌≡◌, ◌<◌, ◌↔◌, ℕ, IsTrue, MatchOption, length};
ghost use Rattle.wb_grammar_theory.specs.Items.{IsKernelItem};
ghost use Rattle.wb_items.specs.Kernels.{count_of, prefix_of};
ghost use Rattle.wb_termset.specs.Sets.{IsMember};
ghost use Rattle.wb_compose_theory.specs.Numbered.{IsHostKernel};
ghost use Rattle.wb_determinism.specs.Numbers.{up_by};
ghost use Rattle.wb_determinism.specs.Regions.{AreRegions};
ghost use Rattle.wb_determinism.specs.Inner.Keeps.{KeepsHostLookaheads};
ghost use Rattle.wb_determinism.specs.Inner.Contexts.{Allows, HasImage, IsContext, IsFaultAt, KeepsItem, KeepsKernel, both_of, host_of};

use crate::Region;
use crate::context::{Context, ItemFault};
use crate::numbers::item_down;
use wb_items::Item;
use wb_termset::TermSet;

// A lookahead that an item of a host's kernel mustn't have, and the number of the kernel with the extension.
#[derive(Clone, Copy, Drop)]
pub(crate) struct LookaheadFault {
    pub(crate) state: usize,
    pub(crate) fault: ItemFault,
}

// The first of them.
pub(crate) fn lookahead_fault(context: &Context, regions: &[Region]) -> Option<LookaheadFault>
    requires context { IsContext context.now }
    requires regions { AreRegions context.now.host.now context.now.both.now context.now.numbers.now (count_of context.now.both.now) regions.now }
    ensures { MatchOption result (KeepsHostLookaheads (host_of context.now) (both_of context.now) context.now.numbers.now (HasImage context.now.images.now)) (λ found. (found.state < count_of context.now.both.now) × IsFaultAt context.now found.state found.fault.item found.fault.terminal) }
{
    'kernels: for state in 0..regions.len() {
        if let Some(fault) = kernel_fault(context, regions, state) {
            return Some(LookaheadFault { state, fault });
        }
    }
    None
}

// The first at one kernel.
fn kernel_fault(context: &Context, regions: &[Region], state: usize) -> Option<ItemFault>
    requires context { IsContext context.now }
    requires regions { AreRegions context.now.host.now context.now.both.now context.now.numbers.now (count_of context.now.both.now) regions.now }
    requires state { state < count_of context.now.both.now }
    ensures { MatchOption result (KeepsKernel context.now state) (λ found. IsFaultAt context.now state found.item found.terminal) }
{
    match regions[state] {
        Region::Host(other) => items_fault(context, state, other),
        Region::Extension => None,
        Region::NewHost => None,
    }
}

// The first at a kernel that is this one of the host.
fn items_fault(context: &Context, state: usize, other: usize) -> Option<ItemFault>
    requires context { IsContext context.now }
    requires state { state < count_of context.now.both.now }
    requires other { other < count_of context.now.host.now }
    requires region { IsHostKernel (host_of context.now) (both_of context.now) (up_by context.now.numbers.now) (prefix_of context.now.both.now state) (prefix_of context.now.host.now other) }
    ensures { MatchOption result (KeepsKernel context.now state) (λ found. IsFaultAt context.now state found.item found.terminal) }
{
    'items: for &item in context.both.kernel(state) {
        if let Some(terminal) = item_fault(context, state, other, item) {
            return Some(ItemFault { item, terminal });
        }
    }
    None
}

// The first of one item there.
fn item_fault(context: &Context, state: usize, other: usize, item: Item) -> Option<usize>
    requires context { IsContext context.now }
    requires state { state < count_of context.now.both.now }
    requires other { other < count_of context.now.host.now }
    requires region { IsHostKernel (host_of context.now) (both_of context.now) (up_by context.now.numbers.now) (prefix_of context.now.both.now state) (prefix_of context.now.host.now other) }
    requires item { IsKernelItem (both_of context.now) (prefix_of context.now.both.now state) item }
    ensures { MatchOption result (KeepsItem context.now state item) (IsFaultAt context.now state item) }
{
    let Some(own) = item_down(context.numbers, item) else {
        unreachable!()
    };
    let set = context.both_lookaheads.of(state, item);
    let allowed = context.host_lookaheads.of(other, own);
    foreign_member(set, context.images, allowed)
}

// The first member of a set that stands for no member of the other.
pub(crate) fn foreign_member(
    set: &TermSet,
    images: &[Option<usize>],
    allowed: &TermSet,
) -> Option<usize>
    requires { length set.now ≡ length images.now }
    ensures { MatchOption result ((t : ℕ) → IsMember set.now t → Allows images.now allowed.now t) (λ t. IsMember set.now t × (¬ Allows images.now allowed.now t)) }
{
    'numbers: for number in 0..set.count() {
        if set.contains(number) && !is_allowed(images, allowed, number) {
            return Some(number);
        }
    }
    None
}

// Whether a terminal stands for a member of the set.
fn is_allowed(images: &[Option<usize>], allowed: &TermSet, number: usize) -> bool
    requires { number < length images.now }
    ensures { IsTrue result ↔ Allows images.now allowed.now number }
{
    match images[number] {
        Some(own) => is_member(allowed, own),
        None => false,
    }
}

// Whether the set has a number, which may be any.
pub(crate) fn is_member(set: &TermSet, number: usize) -> bool
    ensures { IsTrue result ↔ IsMember set.now number }
{
    if number >= set.count() {
        return false;
    }
    set.contains(number)
}
