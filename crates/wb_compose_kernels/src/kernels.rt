//! Makes the kernels of a union from lists of those that it takes, with the moves between them.

ghost use Rattle.std.specs.Prelude.{◌≡◌, [], IfOk, length};
ghost use Rattle.wb_compose_theory.specs.Homes.{of_host};
ghost use Rattle.wb_items.specs.Kernels.{AreKernels};
ghost use Rattle.wb_compose_kernels.specs.Lent.{AreSpliceable};
ghost use Rattle.wb_compose_kernels.specs.Inner.Blocks.{AreBlocksUpTo, IsBlocksOf};
ghost use Rattle.wb_compose_kernels.specs.Inner.Given.{IsGiven};
ghost use Rattle.wb_compose_kernels.specs.Inner.Lists.{IsListing};

use crate::Splice;
use crate::blocks::Blocks;
use crate::lists::lists_of;
use crate::moves::moves_of;
use crate::part_blocks::{host_blocks, part_blocks};
use std::alloc::{AllocError, Global};
use wb_base::Sequence;
use wb_items::{Item, Kernels};

/// The kernels of the union of a host and extensions that are certified with it alone, taken from theirs.
///
/// Each kernel of the host but those after holes, and each new kernel of an extension, is copied once, in the union's numbers, with its
/// moves; nothing else is looked for. A new kernel without an item of the extension's own is compared with all that are listed, as another
/// extension may have it. The only error is out of memory.
pub fn spliced_kernels(alloc: Global, splice: &Splice) -> Result<Kernels, AllocError>
    requires { AreSpliceable splice.now }
    ensures grammar { IfOk result (λ made. made.grammar ≡ splice.now.union.now) }
    ensures exact { IfOk result (λ made. AreKernels made) }
{
    let blocks = part_blocks(alloc, splice)?;
    let _count = splice.kernels.count();
    let made = with_blocks(alloc, splice, &blocks);
    drop(blocks);
    made
}

// The kernels, with the numbers of each extension in the union.
fn with_blocks(alloc: Global, splice: &Splice, blocks: &[Blocks]) -> Result<Kernels, AllocError>
    requires given { IsGiven splice.now }
    requires blocks { AreBlocksUpTo splice.now (length splice.now.parts.now) blocks.now }
    ensures grammar { IfOk result (λ made. made.grammar ≡ splice.now.union.now) }
    ensures exact { IfOk result (λ made. AreKernels made) }
{
    let mut kernels = Vec::new(alloc);
    let made = with_lists(alloc, splice, host_blocks(splice), blocks, &mut kernels);
    drop(kernels);
    made
}

// The kernels, which are listed first.
fn with_lists(
    alloc: Global,
    splice: &Splice,
    host: Blocks,
    blocks: &[Blocks],
    kernels: &mut Vec<Sequence<Item>>,
) -> Result<Kernels, AllocError>
    requires given { IsGiven splice.now }
    requires host { IsBlocksOf splice.now of_host host }
    requires blocks { AreBlocksUpTo splice.now (length splice.now.parts.now) blocks.now }
    requires empty { kernels.old.items ≡ [] }
    ensures grammar { IfOk result (λ made. made.grammar ≡ splice.now.union.now) }
    ensures exact { IfOk result (λ made. AreKernels made) }
{
    let lists = lists_of(alloc, splice, host, blocks, kernels)?;
    let made = by_lists(
        alloc,
        splice,
        host,
        blocks,
        &lists.host,
        &lists.new,
        kernels,
    );
    drop(lists);
    made
}

// The kernels that are listed.
fn by_lists(
    alloc: Global,
    splice: &Splice,
    host: Blocks,
    blocks: &[Blocks],
    numbers: &[usize],
    new: &[Sequence<usize>],
    kernels: &[Sequence<Item>],
) -> Result<Kernels, AllocError>
    requires given { IsGiven splice.now }
    requires host { IsBlocksOf splice.now of_host host }
    requires blocks { AreBlocksUpTo splice.now (length splice.now.parts.now) blocks.now }
    requires listed { IsListing splice.now kernels.now numbers.now new.now }
    ensures grammar { IfOk result (λ made. made.grammar ≡ splice.now.union.now) }
    ensures exact { IfOk result (λ made. AreKernels made) }
{
    let moves = moves_of(alloc, splice, host, blocks, numbers, new)?;
    let made = Kernels::from_parts(alloc, splice.union, kernels, &moves);
    drop(moves);
    made
}
