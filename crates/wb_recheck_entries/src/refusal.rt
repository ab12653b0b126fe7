//! Why are the entries of a certificate not lookaheads of a grammar's kernels?

use std::alloc::AllocError;

/// Why the entries of a certificate are refused.
#[derive(Debug, Drop)]
pub enum EntryRefusal {
    /// The entry at this place is the first that isn't right. Places count entries, from 0.
    Wrong(usize),
    NoMemory(AllocError),
}

impl From<AllocError> for EntryRefusal {
    ghost use Rattle.std.specs.Prelude.{◌≡◌};
    ghost use Rattle.wb_recheck_entries.specs.declared.refusal.EntryRefusal.TheVariants.{NoMemory};

    ghost from_gives = { λ error refusal. refusal ≡ NoMemory error };

    fn from(error: AllocError) -> EntryRefusal {
        EntryRefusal::NoMemory(error)
    }
}
