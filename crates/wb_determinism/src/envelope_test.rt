//! Which terminals are considered at each new kernel of the host's items, or how does one go beyond the envelope?
//!
//! Terminals that are considered together are compared in `envelope_clash.rt`.

ghost use Rattle.std.specs.Prelude.{◌≡◌, ◌≤◌, ◌<◌, ◌↔◌, ◌⊎◌, ℕ, All, IfErr, IfOk, Contains, length};
ghost use Rattle.wb_grammar_theory.specs.declared.item.Item.{Item};
ghost use Rattle.wb_items.specs.declared.item_lookahead.ItemLookahead.{ItemLookahead};
ghost use Rattle.wb_items.specs.Kernels.{count_of, prefix_of};
ghost use Rattle.wb_items.specs.Table.{AreProductions};
ghost use Rattle.wb_termset.specs.Sets.{IsMember};
ghost use Rattle.wb_compose_theory.specs.Numbered.{IsNewHostKernel};
ghost use Rattle.wb_determinism.specs.Valid.{IsReduced};
ghost use Rattle.wb_determinism.specs.Numbers.{up_by};
ghost use Rattle.wb_determinism.specs.Inner.Numbers.{AreInTurn};
ghost use Rattle.wb_determinism.specs.Regions.{AreRegions, IsRegion};
ghost use Rattle.wb_determinism.specs.Inner.Contexts.{IsContext, both_of, host_of};
ghost use Rattle.wb_determinism.specs.Inner.Envelopes.{AreInKernel, IsEnvelopeRow, KeepsRow};
ghost use Rattle.wb_determinism.specs.Inner.Considered.{AreConsidered, IsConsideredFor, IsLookaheadAt, IsOwnList, IsPairAt};
ghost use Rattle.wb_determinism.specs.Inner.Shown.{IsInnerFault, IsInnerRefusal, IsShownReduction};

use crate::Region;
use crate::conflict::{ActionPair, row_conflict};
use crate::context::{Context, ItemFault};
use crate::envelope::envelope_of;
use crate::envelope_rule::row_fault;
use crate::numbers::{Numbers as HostNumbers, production_after, terminal_after};
use crate::regions::moved_items;
use crate::valid::{add_valid, shifts_of};
use std::alloc::{AllocError, Global};
use wb_base::{Sequence, Symbol, push};
use wb_determinism_host::{DeterminismRefusal, EnvelopeFault};
use wb_items::{Item, ItemLookahead, Numbers};
use wb_lookahead::Action;
use wb_termset::TermSet;

// For each kernel the set of what is considered there with the envelope as lookaheads, where it is a new kernel of host's items, and else
// no terminal.
pub(crate) fn envelope_sets(
    alloc: Global,
    context: &Context,
    rules: &[Numbers],
    regions: &[Region],
    layout: &TermSet,
) -> Result<Vec<TermSet>, DeterminismRefusal>
    requires context { IsContext context.now }
    requires rules { AreProductions context.now.grammar.now rules.now }
    requires regions { AreRegions context.now.host.now context.now.both.now context.now.numbers.now (count_of context.now.both.now) regions.now }
    requires layout { context.now.numbers.now.own_terminals ≤ length layout.now }
    ensures ok { IfOk result (λ sets. AreConsidered context.now layout.now regions.now (count_of context.now.both.now) sets.items) }
    ensures refused { IfErr result (IsInnerRefusal context.now) }
{
    let mut sets = Vec::new(alloc);
    'kernels: for state in 0..regions.len() {
        let set = set_for(alloc, context, rules, layout, regions[state], state)?;
        push(&mut sets, set)?;
    }
    Ok(sets)
}

// The set of one kernel.
fn set_for(
    alloc: Global,
    context: &Context,
    rules: &[Numbers],
    layout: &TermSet,
    region: Region,
    state: usize,
) -> Result<TermSet, DeterminismRefusal>
    requires context { IsContext context.now }
    requires rules { AreProductions context.now.grammar.now rules.now }
    requires layout { context.now.numbers.now.own_terminals ≤ length layout.now }
    requires state { state < count_of context.now.both.now }
    requires region { IsRegion context.now.host.now context.now.both.now context.now.numbers.now state region }
    ensures ok { IfOk result (IsConsideredFor context.now layout.now state region) }
    ensures refused { IfErr result (IsInnerRefusal context.now) }
{
    match region {
        Region::Host(_) => Ok(TermSet::new(alloc, layout.count())?),
        Region::Extension => Ok(TermSet::new(alloc, layout.count())?),
        Region::NewHost => new_set(alloc, context, rules, layout, state),
    }
}

// The set of a new kernel.
fn new_set(
    alloc: Global,
    context: &Context,
    rules: &[Numbers],
    layout: &TermSet,
    state: usize,
) -> Result<TermSet, DeterminismRefusal>
    requires context { IsContext context.now }
    requires rules { AreProductions context.now.grammar.now rules.now }
    requires layout { context.now.numbers.now.own_terminals ≤ length layout.now }
    requires state { state < count_of context.now.both.now }
    requires new { IsNewHostKernel (host_of context.now) (both_of context.now) (up_by context.now.numbers.now) (prefix_of context.now.both.now state) }
    ensures ok { IfOk result (IsConsideredFor context.now layout.now state Region.NewHost) }
    ensures refused { IfErr result (IsInnerRefusal context.now) }
{
    let own = own_items(alloc, context, state)?;
    set_of_items(alloc, context, rules, layout, state, own.as_slice())
}

// The items of a new kernel in the host's numbers.
fn own_items(alloc: Global, context: &Context, state: usize) -> Result<Sequence<Item>, AllocError>
    requires context { IsContext context.now }
    requires state { state < count_of context.now.both.now }
    requires new { IsNewHostKernel (host_of context.now) (both_of context.now) (up_by context.now.numbers.now) (prefix_of context.now.both.now state) }
    ensures { IfOk result (IsOwnList context.now state) }
{
    let Some(own) = moved_items(alloc, context.numbers, context.both.kernel(state))? else {
        unreachable!()
    };
    Ok(own)
}

// Like `new_set`, with the kernel's items in the host's numbers.
fn set_of_items(
    alloc: Global,
    context: &Context,
    rules: &[Numbers],
    layout: &TermSet,
    state: usize,
    own: &[Item],
) -> Result<TermSet, DeterminismRefusal>
    requires context { IsContext context.now }
    requires rules { AreProductions context.now.grammar.now rules.now }
    requires layout { context.now.numbers.now.own_terminals ≤ length layout.now }
    requires state { state < count_of context.now.both.now }
    requires own { IsOwnList context.now state own.now }
    ensures ok { IfOk result (IsConsideredFor context.now layout.now state Region.NewHost) }
    ensures refused { IfErr result (IsInnerRefusal context.now) }
{
    let row = envelope_of(alloc, context, rules, own)?;
    set_of_row(alloc, context, layout, state, own, &row)
}

// Like `set_of_items`, with the closure's items and their lookaheads in the envelope.
fn set_of_row(
    alloc: Global,
    context: &Context,
    layout: &TermSet,
    state: usize,
    own: &[Item],
    row: &[ItemLookahead],
) -> Result<TermSet, DeterminismRefusal>
    requires context { IsContext context.now }
    requires layout { context.now.numbers.now.own_terminals ≤ length layout.now }
    requires state { state < count_of context.now.both.now }
    requires own { IsOwnList context.now state own.now }
    requires row { IsEnvelopeRow (host_of context.now) own.now row.now }
    ensures ok { IfOk result (IsConsideredFor context.now layout.now state Region.NewHost) }
    ensures refused { IfErr result (IsInnerRefusal context.now) }
{
    match row_fault(context, state, own, row) {
        Some(fault) => Err(lookahead_refusal(alloc, context, state, fault)),
        None => set_by_shifts(alloc, context, layout, state, own, row),
    }
}

// Like `set_of_row`, where no lookahead is beyond the envelope.
fn set_by_shifts(
    alloc: Global,
    context: &Context,
    layout: &TermSet,
    state: usize,
    own: &[Item],
    row: &[ItemLookahead],
) -> Result<TermSet, DeterminismRefusal>
    requires context { IsContext context.now }
    requires layout { context.now.numbers.now.own_terminals ≤ length layout.now }
    requires state { state < count_of context.now.both.now }
    requires own { IsOwnList context.now state own.now }
    requires row { IsEnvelopeRow (host_of context.now) own.now row.now }
    requires keeps { KeepsRow context.now own.now state }
    ensures ok { IfOk result (IsConsideredFor context.now layout.now state Region.NewHost) }
    ensures refused { IfErr result (IsInnerRefusal context.now) }
{
    let shifts = shifts_of(alloc, context.grammar, row)?;
    match row_conflict(context.grammar, &shifts, row) {
        Some(pair) => Err(conflict_refusal(alloc, context, state, pair)),
        None => Ok(considered_set(context, layout, row, &shifts)?),
    }
}

// Layout, and the host's own terminals that are valid with these shifts and the lookaheads of this row.
fn considered_set(
    context: &Context,
    layout: &TermSet,
    row: &[ItemLookahead],
    shifts: &TermSet,
) -> Result<TermSet, AllocError>
    requires layout { context.now.numbers.now.own_terminals ≤ length layout.now }
    requires shifts { context.now.numbers.now.own_terminals ≤ length shifts.now }
    requires row { All (λ (looks : ItemLookahead). context.now.numbers.now.own_terminals ≤ length looks.set) row.now }
    ensures len { IfOk result (λ set. length set ≡ length layout.now) }
    ensures each { IfOk result (λ set. (t : ℕ) → IsMember set t ↔ (((t < context.now.numbers.now.own_terminals) × (IsMember shifts.now t ⊎ IsReduced context.now.grammar.now row.now (length row.now) t)) ⊎ IsMember layout.now t)) }
{
    let mut set = layout.copy()?;
    add_valid(
        context.grammar,
        shifts,
        row,
        context.numbers.own_terminals,
        &mut set,
    );
    Ok(set)
}

// The refusal that shows a lookahead.
fn lookahead_refusal(
    alloc: Global,
    context: &Context,
    state: usize,
    fault: ItemFault,
) -> DeterminismRefusal
    requires state { state < count_of context.now.both.now }
    requires fault { IsLookaheadAt context.now state fault }
    ensures { IsInnerRefusal context.now result }
{
    match context.both.prefix(alloc, state) {
        Ok(prefix) => DeterminismRefusal::Envelope {
            prefix: Sequence::from_vec(prefix),
            fault: EnvelopeFault::Lookahead {
                item: fault.item,
                terminal: fault.terminal,
            },
        },
        Err(error) => DeterminismRefusal::NoMemory(error),
    }
}

// The refusal that shows a conflict.
fn conflict_refusal(
    alloc: Global,
    context: &Context,
    state: usize,
    pair: ActionPair,
) -> DeterminismRefusal
    requires context { IsContext context.now }
    requires state { state < count_of context.now.both.now }
    requires pair { IsPairAt context.now state pair }
    ensures { IsInnerRefusal context.now result }
{
    let fault = conflict_fault(context, state, pair);
    match context.both.prefix(alloc, state) {
        Ok(prefix) => DeterminismRefusal::Envelope {
            prefix: Sequence::from_vec(prefix),
            fault,
        },
        Err(error) => DeterminismRefusal::NoMemory(error),
    }
}

// The conflict in the extended host's numbers, its actions in order.
fn conflict_fault(context: &Context, state: usize, pair: ActionPair) -> EnvelopeFault
    requires context { IsContext context.now }
    requires state { state < count_of context.now.both.now }
    requires pair { IsPairAt context.now state pair }
    ensures { IsInnerFault context.now (prefix_of context.now.both.now state) result }
{
    let terminal = terminal_after(context.numbers, pair.terminal);
    let second = reduction(context.numbers, pair.second);
    match pair.first {
        None => EnvelopeFault::Conflict {
            terminal,
            first: Action::Shift(shift_target(context, state, terminal)),
            second,
        },
        Some(production) => {
            let first = reduction(context.numbers, production);
            if production < pair.second {
                EnvelopeFault::Conflict {
                    terminal,
                    first,
                    second,
                }
            } else {
                EnvelopeFault::Conflict {
                    terminal,
                    first: second,
                    second: first,
                }
            }
        }
    }
}

// Where the extended host goes by the terminal; it goes somewhere where the host does.
fn shift_target(context: &Context, state: usize, terminal: usize) -> usize
    requires { state < count_of context.now.both.now }
{
    match context.both.next(state, Symbol::Terminal(terminal)) {
        Some(next) => next,
        None => state,
    }
}

// The reduction by a production of the host, in the extended host's numbers.
fn reduction(numbers: &HostNumbers, production: usize) -> Action
    requires numbers { AreInTurn numbers.now }
    requires within { production ≤ numbers.now.host_productions }
    ensures { IsShownReduction numbers.now production result }
{
    if production < numbers.host_productions {
        Action::Reduce(production_after(numbers, production))
    } else {
        Action::Accept
    }
}
