//! Why is a specification not certified by a certificate?

use std::alloc::AllocError;
use wb_certify::CertifyRefusal;

/// Why a specification isn't certified by the text of a certificate: the first of these that fails, where rules of certification are
/// tested before the text up to the conflict, and after it from the conflict on.
///
/// Out of memory is in no other reason.
#[derive(Drop)]
pub enum RecheckRefusal {
    /// A rule of certification fails: a rule of names, of kinds, or of grammars before the conflict, whatever the text is; or one from the
    /// conflict on, and the text is a certificate.
    Certify(CertifyRefusal),
    /// The text is that of no certificate. At this place is the first byte that can follow in none, or the text ends there too early.
    Syntax(usize),
    /// The line of this number, from 1, is the first that isn't right.
    WrongLine(usize),
    /// The kernel of this number has a move that isn't listed, or an entry of which something that follows isn't; or there is no entry, and
    /// the number is 0.
    Missing(usize),
    /// Out of memory, or a number is too large for a table.
    NoMemory(AllocError),
}

impl From<AllocError> for RecheckRefusal {
    ghost use Rattle.std.specs.Prelude.{◌≡◌};
    ghost use Rattle.wb_recheck.specs.declared.refusal.RecheckRefusal.TheVariants.{NoMemory};

    ghost from_gives = { λ error refusal. refusal ≡ NoMemory error };

    fn from(error: AllocError) -> Self {
        RecheckRefusal::NoMemory(error)
    }
}

impl RecheckRefusal {
    /// Lets go of the refusal. A crate that calls this proves no drop of what it holds.
    pub fn release(self) {}
}
