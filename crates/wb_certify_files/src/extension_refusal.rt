//! Why aren't the contents of a file a certified extension of a host?

use std::alloc::AllocError;
use wb_base::Bytes;
use wb_report::Refusal;

/// Why contents are refused as a certified extension of a host, as a report shows it: the first rule that fails.
#[derive(Drop)]
pub enum FileRefusal {
    /// A rule of what is written, of names or of kinds fails.
    Specification(Refusal),
    /// The extension is for this host, which is another.
    WrongHost(Bytes),
    /// A rule of markers, grammars, scanners or attributes fails.
    Certification(Refusal),
    /// Out of memory, or a number is too large for a table.
    NoMemory(AllocError),
}

impl From<AllocError> for FileRefusal {
    ghost use Rattle.std.specs.Prelude.{◌≡◌};
    ghost use Rattle.wb_certify_files.specs.declared.extension_refusal.FileRefusal.TheVariants.{NoMemory};

    ghost from_gives = { λ error refusal. refusal ≡ NoMemory error };

    fn from(error: AllocError) -> Self {
        FileRefusal::NoMemory(error)
    }
}
