//! Which kernels has the union? Those of the host but the ones after holes, and then those that each extension adds, each once.

ghost use Rattle.std.specs.Prelude.{◌≡◌, ◌<◌, ◌+◌, ◌∷◌, ◌++◌, [], IfOk, Some, length, slice_get};
ghost use Rattle.wb_items.specs.Kernels.{count_of};
ghost use Rattle.wb_compose_theory.specs.Homes.{of, of_host};
ghost use Rattle.wb_compose_kernels.specs.Inner.Counts.{new_count_at};
ghost use Rattle.wb_compose_kernels.specs.Inner.Given.{IsGiven};
ghost use Rattle.wb_compose_kernels.specs.Inner.Blocks.{AreBlocksUpTo, IsBlocksOf};
ghost use Rattle.wb_compose_kernels.specs.Inner.Lists.{AreHostSoFar, AreNewSoFar, ArePartsUpTo, IsHostNext, IsHostUpTo, IsListing, IsNewNext, IsNewUpTo, IsPut};

use crate::Splice;
use crate::blocks::{Blocks, has_hole, has_own, items_in_union};
use crate::numbers::{find_list, part_at};
use std::alloc::{AllocError, Global};
use wb_base::{Sequence, push};
use wb_items::Item;

// The numbers of the lists of the host's kernels, and of those that each extension adds.
#[derive(Drop)]
pub(crate) struct Lists {
    pub(crate) host: Vec<usize>,
    pub(crate) new: Vec<Sequence<usize>>,
}

// Lists all kernels.
pub(crate) fn lists_of(
    alloc: Global,
    splice: &Splice,
    host: Blocks,
    blocks: &[Blocks],
    kernels: &mut Vec<Sequence<Item>>,
) -> Result<Lists, AllocError>
    requires given { IsGiven splice.now }
    requires host { IsBlocksOf splice.now of_host host }
    requires blocks { AreBlocksUpTo splice.now (length splice.now.parts.now) blocks.now }
    requires empty { kernels.old.items ≡ [] }
    ensures { IfOk result (λ lists. IsListing splice.now kernels.new.items lists.host.items lists.new.items) }
{
    let host = host_lists(alloc, splice, host, kernels)?;
    let new = part_lists(alloc, splice, blocks, kernels)?;
    Ok(Lists { host, new })
}

// Lists the kernels of the host, in their order, and answers the number of each. For one after a hole it is any.
fn host_lists(
    alloc: Global,
    splice: &Splice,
    blocks: Blocks,
    kernels: &mut Vec<Sequence<Item>>,
) -> Result<Vec<usize>, AllocError>
    requires given { IsGiven splice.now }
    requires blocks { IsBlocksOf splice.now of_host blocks }
    requires empty { kernels.old.items ≡ [] }
    ensures { IfOk result (λ numbers. IsHostUpTo splice.now kernels.new.items numbers.items (count_of splice.now.kernels.now)) }
{
    let mut numbers = Vec::with_capacity(alloc, splice.kernels.count())?;
    'states: for state in 0..splice.kernels.count() {
        let number = list_host(alloc, splice, blocks, state, kernels)?;
        push(&mut numbers, number)?;
    }
    Ok(numbers)
}

// Lists the next kernel of the host, where it isn't one after a hole.
fn list_host(
    alloc: Global,
    splice: &Splice,
    blocks: Blocks,
    state: usize,
    kernels: &mut Vec<Sequence<Item>>,
) -> Result<usize, AllocError>
    requires given { IsGiven splice.now }
    requires blocks { IsBlocksOf splice.now of_host blocks }
    requires state { state < count_of splice.now.kernels.now }
    requires before { AreHostSoFar splice.now state kernels.old.items }
    ensures { IfOk result (IsHostNext splice.now kernels.old.items kernels.new.items state) }
{
    let number = kernels.len();
    let kernel = splice.kernels.kernel(state);
    if has_hole(blocks.productions, kernel) {
        return Ok(number);
    }
    let list = items_in_union(alloc, blocks, kernel)?;
    push(kernels, list)?;
    Ok(number)
}

// Lists what each extension adds, and answers for each the numbers of its new kernels.
fn part_lists(
    alloc: Global,
    splice: &Splice,
    blocks: &[Blocks],
    kernels: &mut Vec<Sequence<Item>>,
) -> Result<Vec<Sequence<usize>>, AllocError>
    requires given { IsGiven splice.now }
    requires blocks { AreBlocksUpTo splice.now (length splice.now.parts.now) blocks.now }
    requires before { AreNewSoFar splice.now 0 0 kernels.old.items }
    ensures { IfOk result (λ new. ArePartsUpTo splice.now kernels.old.items kernels.new.items new.items (length splice.now.parts.now)) }
{
    let mut new = Vec::with_capacity(alloc, splice.parts.len())?;
    'parts: for part in 0..splice.parts.len() {
        let numbers = new_lists(alloc, splice, blocks_at(blocks, part), part, kernels)?;
        push(&mut new, numbers)?;
    }
    Ok(new)
}

// The numbers at a place.
pub(crate) fn blocks_at(blocks: &[Blocks], part: usize) -> Blocks
    requires { part < length blocks.now }
    ensures { slice_get blocks.now part ≡ Some result }
{
    blocks[part]
}

// Lists what one extension adds.
fn new_lists(
    alloc: Global,
    splice: &Splice,
    blocks: Blocks,
    part: usize,
    kernels: &mut Vec<Sequence<Item>>,
) -> Result<Sequence<usize>, AllocError>
    requires given { IsGiven splice.now }
    requires part { part < length splice.now.parts.now }
    requires blocks { IsBlocksOf splice.now (of part) blocks }
    requires before { AreNewSoFar splice.now part 0 kernels.old.items }
    ensures { IfOk result (IsNewUpTo splice.now kernels.old.items kernels.new.items part (new_count_at splice.now part)) }
{
    let mut numbers = Vec::with_capacity(alloc, new_count(splice, part))?;
    'places: for place in 0..new_count(splice, part) {
        let number = list_new(alloc, splice, blocks, part, place, kernels)?;
        push(&mut numbers, number)?;
    }
    Ok(Sequence::from_vec(numbers))
}

// How many new kernels an extension adds.
pub(crate) fn new_count(splice: &Splice, part: usize) -> usize
    requires { part < length splice.now.parts.now }
    ensures { result ≡ new_count_at splice.now part }
{
    part_at(splice, part).new.len()
}

// Lists the next new kernel of an extension, where it wasn't listed for another.
fn list_new(
    alloc: Global,
    splice: &Splice,
    blocks: Blocks,
    part: usize,
    place: usize,
    kernels: &mut Vec<Sequence<Item>>,
) -> Result<usize, AllocError>
    requires given { IsGiven splice.now }
    requires part { part < length splice.now.parts.now }
    requires place { place < new_count_at splice.now part }
    requires blocks { IsBlocksOf splice.now (of part) blocks }
    requires before { AreNewSoFar splice.now part place kernels.old.items }
    ensures { IfOk result (IsNewNext splice.now kernels.old.items kernels.new.items part place) }
{
    let found = part_at(splice, part);
    let kernel = found.new.kernel(place);
    let list = items_in_union(alloc, blocks, kernel)?;
    if has_own(blocks.productions, kernel) {
        return add_list(kernels, list);
    }
    put_list(kernels, list)
}

// Adds a list, and answers its number.
fn add_list(kernels: &mut Vec<Sequence<Item>>, list: Sequence<Item>) -> Result<usize, AllocError>
    ensures { IfOk result (λ number. (number ≡ length kernels.old.items) × (kernels.new.items ≡ kernels.old.items ++ list ∷ [])) }
{
    let number = kernels.len();
    push(kernels, list)?;
    Ok(number)
}

// The number of a list, which is added where it isn't there.
fn put_list(kernels: &mut Vec<Sequence<Item>>, list: Sequence<Item>) -> Result<usize, AllocError>
    ensures { IfOk result (IsPut kernels.old.items list kernels.new.items) }
{
    if let Some(number) = find_list(kernels, list.as_slice()) {
        drop(list);
        return Ok(number);
    }
    let number = kernels.len();
    push(kernels, list)?;
    Ok(number)
}
