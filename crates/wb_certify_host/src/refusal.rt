//! Why is a specification not certified?

use std::alloc::AllocError;
use wb_determinism_host::DeterminismRefusal;
use wb_flow::AttributeRefusal;
use wb_names_theory::NameRefusal;
use wb_types::TypeRefusal;

/// Why a specification isn't certified: the first rule that fails. Which of several examples is shown is left open.
///
/// Out of memory is never inside another reason.
pub enum CertifyRefusal {
    /// A rule of names fails.
    Names(NameRefusal),
    /// A rule of kinds fails.
    Types(TypeRefusal),
    /// G1: there is no start.
    NoStart,
    /// A rule of grammars and scanners fails.
    Determinism(DeterminismRefusal),
    /// A rule of attributes fails.
    Attributes(AttributeRefusal),
    /// Out of memory, or a number is too large for a table.
    NoMemory(AllocError),
}

impl From<AllocError> for CertifyRefusal {
    ghost use Rattle.std.specs.Prelude.{◌≡◌};
    ghost use Rattle.wb_certify_host.specs.declared.refusal.CertifyRefusal.TheVariants.{NoMemory};

    ghost from_gives = { λ error refusal. refusal ≡ NoMemory error };

    fn from(error: AllocError) -> Self {
        CertifyRefusal::NoMemory(error)
    }
}

impl CertifyRefusal {
    /// Lets go of the refusal. A crate that calls this proves no drop of what it holds.
    pub fn release(self) {
        drop(self);
    }
}

impl Drop for CertifyRefusal {
    fn drop(self) {
        match self {
            CertifyRefusal::Names(refusal) => refusal.release(),
            CertifyRefusal::Types(refusal) => refusal.release(),
            CertifyRefusal::NoStart => {}
            CertifyRefusal::Determinism(refusal) => drop(refusal),
            CertifyRefusal::Attributes(refusal) => refusal.release(),
            CertifyRefusal::NoMemory(_) => {}
        }
    }
}
