//! Why are the lines of a certificate not those of a grammar's kernels?

use std::alloc::AllocError;

/// Why the lines of a certificate are refused.
#[derive(Debug, Drop)]
pub enum LineRefusal {
    /// The line at this place is the first that isn't good. Places count lines of kernels, from 0.
    Wrong(usize),
    NoMemory(AllocError),
}

impl From<AllocError> for LineRefusal {
    ghost use Rattle.std.specs.Prelude.{◌≡◌};
    ghost use Rattle.wb_recheck_lines.specs.declared.refusal.LineRefusal.TheVariants.{NoMemory};

    ghost from_gives = { λ error refusal. refusal ≡ NoMemory error };

    fn from(error: AllocError) -> LineRefusal {
        LineRefusal::NoMemory(error)
    }
}
