//! Builds the set of all layout.

ghost use Rattle.std.specs.Prelude.{◌≡◌, ◌≤◌, ◌<◌, ◌↔◌, ℕ, IfOk, length};
ghost use Rattle.wb_termset.specs.Sets.{IsMember};

use std::alloc::{AllocError, Global};
use wb_termset::TermSet;

// The set of the numbers from the first to before the end.
pub(crate) fn layout_set(alloc: Global, first: usize, end: usize) -> Result<TermSet, AllocError>
    ensures len { IfOk result (λ set. length set ≡ end) }
    ensures each { IfOk result (λ set. (t : ℕ) → IsMember set t ↔ ((first ≤ t) × (t < end))) }
{
    let mut set = TermSet::new(alloc, end)?;
    add_range(&mut set, first, end);
    Ok(set)
}

// Adds the numbers from the first to before the end to an empty set.
fn add_range(set: &mut TermSet, first: usize, end: usize)
    requires empty { (t : ℕ) → ¬ IsMember set.old t }
    requires end { end ≡ length set.old }
    ensures len { length set.new ≡ length set.old }
    ensures each { (t : ℕ) → IsMember set.new t ↔ ((first ≤ t) × (t < end)) }
{
    'numbers: for number in first..end {
        set.insert(number);
    }
}
