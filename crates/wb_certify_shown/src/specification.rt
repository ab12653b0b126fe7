//! Which rule of what is written, of names and of kinds does a report show?

ghost use Rattle.std.specs.Prelude.{◌≡◌, IfOk};
ghost use Rattle.wb_certify_shown.specs.Shows as spec;

use std::alloc::AllocError;
use wb_names_theory::NameRefusal;
use wb_reader::SpecRefusal;
use wb_report::SpecReason;
use wb_types::TypeRefusal;

/// A rule of what is written; none for out of memory.
pub fn written_rule(refusal: &SpecRefusal) -> Result<Option<SpecReason>, AllocError>
    ensures { IfOk result (λ shown. shown ≡ spec.written_reason refusal.now) }
{
    Ok(match refusal {
        SpecRefusal::TooLong => Some(SpecReason::TooLong),
        SpecRefusal::WrongFormat => Some(SpecReason::WrongFormat),
        SpecRefusal::Syntax(at) => Some(SpecReason::Syntax(*at)),
        SpecRefusal::BadRegex(at) => Some(SpecReason::BadRegex(*at)),
        SpecRefusal::MatchesEmpty(name) => Some(SpecReason::MatchesEmpty(name.copy()?)),
        SpecRefusal::NoMemory(_) => None,
    })
}

/// A rule of names; none for another host and for out of memory.
pub fn name_rule(refusal: &NameRefusal) -> Result<Option<SpecReason>, AllocError>
    ensures { IfOk result (λ shown. shown ≡ spec.name_reason refusal.now) }
{
    Ok(match refusal {
        NameRefusal::Unknown(name) => Some(SpecReason::Unknown(name.copy()?)),
        NameRefusal::Duplicate(name) => Some(SpecReason::Duplicate(name.copy()?)),
        NameRefusal::Orphan(name) => Some(SpecReason::Orphan(name.copy()?)),
        NameRefusal::WrongKind(name) => Some(SpecReason::WrongKind(name.copy()?)),
        NameRefusal::WrongHost(_) => None,
        NameRefusal::NoMemory(_) => None,
    })
}

/// A rule of kinds; none for out of memory.
pub fn type_rule(refusal: &TypeRefusal) -> Result<Option<SpecReason>, AllocError>
    ensures { IfOk result (λ shown. shown ≡ spec.type_reason refusal.now) }
{
    Ok(match refusal {
        TypeRefusal::UnknownOperation(name) => Some(SpecReason::Unknown(name.copy()?)),
        TypeRefusal::WrongArity(at) => Some(SpecReason::WrongArity(*at)),
        TypeRefusal::TypeMismatch(at) => Some(SpecReason::TypeMismatch(*at)),
        TypeRefusal::NoMemory(_) => None,
    })
}
