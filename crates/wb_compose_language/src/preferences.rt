//! Lists the preferences of the union: those of the host, and those that each extension adds, by the numbers of the union.

ghost use Rattle.std.specs.Prelude.{◌≡◌, ◌≤◌, ◌<◌, ◌+◌, ◌++◌, IfOk, OnOk, Some, length, map, slice_get};
ghost use Rattle.wb_compose_language.specs.declared.addition.Addition.{Addition};
ghost use Rattle.wb_compose_language.specs.Lents.{IsUnitable};
ghost use Rattle.wb_compose_language.specs.Inner.Rows.{AreBlocks, AreBlocksOf, AreEarlier, AreOwnAdded, ArePreferences, AreSums, AreWithin, IsAddedIfOwn, pair_in};

use crate::Lent;
use crate::addition::{host_layouts, own_from, own_layouts};
use crate::row::{Block, Blocks, is_own, row};
use std::alloc::{AllocError, Global};
use wb_base::push;
use wb_syntax_resolved::Preference;

// How many terminals and layouts all extensions have of their own, and where these layouts begin in the union.
#[derive(Clone, Copy)]
pub(crate) struct Sums {
    pub(crate) terminals: usize,
    pub(crate) layouts: usize,
    pub(crate) from: usize,
}

// How many the extensions before one have.
#[derive(Clone, Copy)]
pub(crate) struct Earlier {
    pub(crate) terminals: usize,
    pub(crate) layouts: usize,
}

// The preferences of the union, whose extensions have so many terminals and layouts.
pub(crate) fn united_preferences(
    alloc: Global,
    lent: &Lent,
    sums: Sums,
) -> Result<Vec<(usize, usize)>, AllocError>
    requires unitable { IsUnitable lent.now }
    requires sums { AreSums lent.now sums }
    ensures { IfOk result (λ pairs. ArePreferences lent.now pairs.items) }
{
    let mut pairs = Vec::new(alloc);
    add_pairs(&mut pairs, host_blocks(lent, sums), lent.preferences)?;
    let mut earlier = Earlier {
        terminals: 0,
        layouts: 0,
    };
    'extensions: for number in 0..lent.extensions.len() {
        let blocks = blocks_of(lent, number, earlier, sums);
        add_own_pairs(&mut pairs, blocks, lent.extensions[number].preferences)?;
        earlier = after(blocks);
    }
    Ok(pairs)
}

// The host has nothing before it, and no extension's.
fn host_blocks(lent: &Lent, sums: Sums) -> Blocks
    requires { AreSums lent.now sums }
    ensures { AreBlocks lent.now result 0 0 0 0 }
{
    Blocks {
        terminals: Block {
            own: lent.grammar.terminals(),
            before: 0,
            size: 0,
            total: sums.terminals,
        },
        layouts: Block {
            own: sums.from,
            before: 0,
            size: 0,
            total: sums.layouts,
        },
        first: 0,
    }
}

// The blocks of the extension of this number.
fn blocks_of(lent: &Lent, number: usize, earlier: Earlier, sums: Sums) -> Blocks
    requires unitable { IsUnitable lent.now }
    requires number { number < length lent.now.extensions.now }
    requires earlier { AreEarlier lent.now number earlier }
    requires sums { AreSums lent.now sums }
    ensures { (x : Addition) → slice_get lent.now.extensions.now number ≡ Some x → AreBlocksOf lent.now number x result }
{
    let own = lent.grammar.terminals();
    let hosts = host_layouts(lent);
    let extension = &lent.extensions[number];
    Blocks {
        terminals: Block {
            own,
            before: earlier.terminals,
            size: extension.grammar.terminals() - own,
            total: sums.terminals,
        },
        layouts: Block {
            own: sums.from,
            before: earlier.layouts,
            size: own_layouts(extension, hosts),
            total: sums.layouts,
        },
        first: own_from(extension, hosts),
    }
}

// How many come before the next extension.
fn after(blocks: Blocks) -> Earlier
    requires terminals { blocks.terminals.before + blocks.terminals.size ≤ blocks.terminals.total }
    requires layouts { blocks.layouts.before + blocks.layouts.size ≤ blocks.layouts.total }
    ensures terminals { result.terminals ≡ blocks.terminals.before + blocks.terminals.size }
    ensures layouts { result.layouts ≡ blocks.layouts.before + blocks.layouts.size }
{
    Earlier {
        terminals: blocks.terminals.before + blocks.terminals.size,
        layouts: blocks.layouts.before + blocks.layouts.size,
    }
}

// Adds the host's preferences by the numbers of the union.
fn add_pairs(
    pairs: &mut Vec<(usize, usize)>,
    blocks: Blocks,
    preferences: &[Preference],
) -> Result<(), AllocError>
    requires { AreWithin blocks }
    ensures { OnOk result (pairs.new.items ≡ pairs.old.items ++ map (pair_in blocks) preferences.now) }
{
    'preferences: for preference in preferences {
        let first = row(blocks, preference.first)?;
        let second = row(blocks, preference.second)?;
        push(pairs, (first, second))?;
    }
    Ok(())
}

// Adds the preferences that name a terminal or layout of the extension's own. All others are the host's, and listed before.
fn add_own_pairs(
    pairs: &mut Vec<(usize, usize)>,
    blocks: Blocks,
    preferences: &[Preference],
) -> Result<(), AllocError>
    requires { AreWithin blocks }
    ensures { OnOk result (AreOwnAdded blocks preferences.now pairs.old.items pairs.new.items) }
{
    'preferences: for preference in preferences {
        add_own_pair(pairs, blocks, *preference)?;
    }
    Ok(())
}

fn add_own_pair(
    pairs: &mut Vec<(usize, usize)>,
    blocks: Blocks,
    preference: Preference,
) -> Result<(), AllocError>
    requires { AreWithin blocks }
    ensures { OnOk result (IsAddedIfOwn blocks preference pairs.old.items pairs.new.items) }
{
    if !is_own(blocks, preference.first) && !is_own(blocks, preference.second) {
        return Ok(());
    }
    let first = row(blocks, preference.first)?;
    let second = row(blocks, preference.second)?;
    push(pairs, (first, second))
}
