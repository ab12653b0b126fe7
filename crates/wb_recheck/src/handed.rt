//! Refusals of other crates, as they are handed on.

ghost use Rattle.std.specs.Prelude.{◌≡◌};
ghost use Rattle.wb_recheck.specs.Inner.Handed.{IsHandedOn, IsReasonHandedOn, refusal_of};

use crate::RecheckRefusal;
use std::alloc::AllocError;
use wb_certify::{CertifyRefusal, DeterminismRefusal};
use wb_recheck_entries::CertificateFault;

// The refusal by a rule of certification.
pub(crate) fn of_certify(refusal: CertifyRefusal) -> RecheckRefusal
    ensures { IsHandedOn refusal result }
{
    match refusal {
        CertifyRefusal::NoMemory(..) => RecheckRefusal::NoMemory(AllocError),
        other => RecheckRefusal::Certify(other),
    }
}

// The refusal by a rule of markers, grammars or scanners.
pub(crate) fn of_determinism(refusal: DeterminismRefusal) -> RecheckRefusal
    ensures { IsReasonHandedOn refusal result }
{
    match refusal {
        DeterminismRefusal::NoMemory(..) => RecheckRefusal::NoMemory(AllocError),
        other => RecheckRefusal::Certify(CertifyRefusal::Determinism(other)),
    }
}

// The refusal of the text.
pub(crate) fn of_fault(fault: CertificateFault) -> RecheckRefusal
    ensures { result ≡ refusal_of fault }
{
    match fault {
        CertificateFault::Syntax(place) => RecheckRefusal::Syntax(place),
        CertificateFault::WrongLine(line) => RecheckRefusal::WrongLine(line),
        CertificateFault::Missing(kernel) => RecheckRefusal::Missing(kernel),
        CertificateFault::NoMemory(error) => RecheckRefusal::NoMemory(error),
    }
}
