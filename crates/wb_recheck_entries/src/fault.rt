//! Why is a text no certificate of a grammar?

use std::alloc::AllocError;

/// Why a text is no certificate of a grammar: the first of these that holds.
#[derive(Debug, Drop)]
pub enum CertificateFault {
    /// It is the text of no certificate. At this place is the first byte that can follow in none, or it ends there too early.
    Syntax(usize),
    /// The line of this number, from 1, is the first that isn't right.
    WrongLine(usize),
    /// The kernel of this number has a move that isn't listed, or an entry of which something that follows isn't; or there is no entry, and
    /// the number is 0.
    Missing(usize),
    NoMemory(AllocError),
}

impl From<AllocError> for CertificateFault {
    ghost use Rattle.std.specs.Prelude.{◌≡◌};
    ghost use Rattle.wb_recheck_entries.specs.declared.fault.CertificateFault.TheVariants.{NoMemory};

    ghost from_gives = { λ error fault. fault ≡ NoMemory error };

    fn from(error: AllocError) -> CertificateFault {
        CertificateFault::NoMemory(error)
    }
}
