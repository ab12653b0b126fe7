//! Which number has a kernel? One of the host's, or one that was found, or else the next.

ghost use Rattle.std.specs.Prelude.{◌≡◌, ◌<◌, ◌+◌, ◌++◌, ◌∷◌, [], IfOk, List, MatchOption, Some, length, map, slice_get};
ghost use Rattle.wb_base.specs.declared.symbol.Symbol.{Symbol};
ghost use Rattle.wb_compose_theory.specs.Renamings.{renamed};
ghost use Rattle.wb_determinism_kernels.specs.Given.{IsGiven};
ghost use Rattle.wb_determinism_kernels.specs.NewKernels.{prefixes_beside};
ghost use Rattle.wb_determinism_kernels.specs.Numbers.{up_by};
ghost use Rattle.wb_determinism_kernels.specs.Inner.Growing.{AreFoundSoFar, IsAdded, IsHostNumber, IsNoHostKernel};
ghost use Rattle.wb_items.specs.Moved.{IsKernelFor};
ghost use Rattle.wb_items.specs.Kernels.{count_of};

use crate::beside::Beside;
use crate::index::{Index, Step};
use crate::numbers::own_items;
use std::alloc::{AllocError, Global};
use wb_base::Sequence;
use wb_items::{Item, Kernels};

// The number of the kernel after a symbol at the kernel of a number. It is added where it is new.
pub(crate) fn number_of(
    alloc: Global,
    beside: &Beside,
    step: Step,
    kernel: &[Item],
    found: &mut Index,
) -> Result<usize, AllocError>
    requires given { IsGiven beside.now.host.now beside.now.grammar.now beside.now.numbers.now beside.now.images.now }
    requires so_far { AreFoundSoFar beside.now.host.now beside.now.grammar.now (up_by beside.now.numbers.now) found.old }
    requires from { step.from < count_of beside.now.host.now + length found.old.steps }
    requires kernel { (prefix : List Symbol) → slice_get (prefixes_beside (up_by beside.now.numbers.now) beside.now.host.now found.old.steps) step.from ≡ Some prefix → IsKernelFor beside.now.grammar.now (prefix ++ step.symbol ∷ []) kernel.now }
    ensures { IfOk result (IsAdded beside.now.host.now beside.now.grammar.now (up_by beside.now.numbers.now) found.old found.new step.from step.symbol) }
{
    if let Some(number) = host_number(alloc, beside, kernel)? {
        return Ok(number);
    }
    find_or_add(alloc, beside, step, kernel, found)
}

// The number of the host's kernel that this is.
fn host_number(alloc: Global, beside: &Beside, kernel: &[Item]) -> Result<Option<usize>, AllocError>
    ensures { IfOk result (λ found. MatchOption found (IsNoHostKernel beside.now.host.now (up_by beside.now.numbers.now) kernel.now) (IsHostNumber beside.now.host.now (up_by beside.now.numbers.now) kernel.now)) }
{
    let Some(own) = own_items(alloc, beside.numbers, kernel)? else {
        return Ok(None);
    };
    let number = beside.host.find(own.as_slice());
    drop(own);
    Ok(number)
}

// Like `number_of`, where the kernel is none of the host's.
fn find_or_add(
    alloc: Global,
    beside: &Beside,
    step: Step,
    kernel: &[Item],
    found: &mut Index,
) -> Result<usize, AllocError>
    requires given { IsGiven beside.now.host.now beside.now.grammar.now beside.now.numbers.now beside.now.images.now }
    requires so_far { AreFoundSoFar beside.now.host.now beside.now.grammar.now (up_by beside.now.numbers.now) found.old }
    requires from { step.from < count_of beside.now.host.now + length found.old.steps }
    requires kernel { (prefix : List Symbol) → slice_get (prefixes_beside (up_by beside.now.numbers.now) beside.now.host.now found.old.steps) step.from ≡ Some prefix → IsKernelFor beside.now.grammar.now (prefix ++ step.symbol ∷ []) kernel.now }
    requires foreign { IsNoHostKernel beside.now.host.now (up_by beside.now.numbers.now) kernel.now }
    ensures { IfOk result (IsAdded beside.now.host.now beside.now.grammar.now (up_by beside.now.numbers.now) found.old found.new step.from step.symbol) }
{
    if let Some(place) = found.find(kernel) {
        let number = number_at(beside.host, place)?;
        return Ok(number);
    }
    let number = number_at(beside.host, found.len())?;
    let items = Vec::from_slice(alloc, kernel)?;
    found.add(step, Sequence::from_vec(items))?;
    Ok(number)
}

// The number at a place after the host's. The only error is that there are too many.
pub(crate) fn number_at(host: &Kernels, place: usize) -> Result<usize, AllocError>
    ensures { IfOk result (λ number. number ≡ count_of host.now + place) }
{
    match host.count().checked_add(place) {
        Some(number) => Ok(number),
        None => Err(AllocError),
    }
}
