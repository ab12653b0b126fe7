//! Why aren't the contents of a file a certified host?

use std::alloc::AllocError;
use wb_report::Refusal;

/// Why contents are refused as a certified host, as a report shows it: the first rule that fails.
#[derive(Drop)]
pub enum HostRefusal {
    /// A rule of what is written, of names or of kinds fails.
    Specification(Refusal),
    /// A rule of grammars, scanners or attributes fails.
    Certification(Refusal),
    /// Out of memory, or a number is too large for a table.
    NoMemory(AllocError),
}

impl From<AllocError> for HostRefusal {
    ghost use Rattle.std.specs.Prelude.{◌≡◌};
    ghost use Rattle.wb_certify_files.specs.declared.host_refusal.HostRefusal.TheVariants.{NoMemory};

    ghost from_gives = { λ error refusal. refusal ≡ NoMemory error };

    fn from(error: AllocError) -> Self {
        HostRefusal::NoMemory(error)
    }
}
