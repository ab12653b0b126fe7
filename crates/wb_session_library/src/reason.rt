//! With which code is a file refused, and which place in it is told? As numbers, for callers that don't read the line.

ghost use Rattle.std.specs.Prelude.{◌≡◌};
ghost use Rattle.wb_session_library.specs.Reasons.{IsNoReason, IsReason, nowhere};
ghost use Rattle.wb_session_library.specs.Inner.Reasons.{IsFileReason, IsHostReason, IsNextReason};

use wb_compose_files::{FileRefusal, HostRefusal, NextRefusal};
use wb_report::{
    AttributeReason, CertificateReason, EditsReason, ExtensionReason, GrammarReason, Refusal,
    SpecReason, TermReason,
};

// No place.
const NOWHERE: usize = usize::MAX;

/// The code of a refusal, and the place in the file that is told with it.
#[repr(C)]
#[derive(Clone, Copy, Debug, PartialEq, Eq)]
pub struct Reason {
    /// The letter of the code in ASCII, or 0 where there is no code.
    pub letter: u8,
    /// Its digit in ASCII, or 0.
    pub digit: u8,
    /// The place, counted in bytes from 0, or 2^64 - 1 where none is told.
    pub offset: usize,
}

// The reason without a code.
pub(crate) fn no_reason() -> Reason
    ensures { IsNoReason result }
{
    Reason {
        letter: 0,
        digit: 0,
        offset: NOWHERE,
    }
}

// The reason for which contents are no host.
pub(crate) fn host_reason(refusal: &HostRefusal) -> Reason
    ensures { IsHostReason refusal.now result }
{
    match refusal {
        HostRefusal::Specification(reason) => reason_of(reason),
        HostRefusal::Certification(reason) => reason_of(reason),
        HostRefusal::NoMemory(_) => no_reason(),
    }
}

// The reason for which contents can't follow the extensions of a host.
pub(crate) fn next_reason(refusal: &NextRefusal) -> Reason
    ensures { IsNextReason refusal.now result }
{
    match refusal {
        NextRefusal::Header(refusal) => file_reason(refusal),
        NextRefusal::Duplicate(_) => no_reason(),
        NextRefusal::Later(refusal) => file_reason(refusal),
    }
}

// The reason for which contents are no extension.
fn file_reason(refusal: &FileRefusal) -> Reason
    ensures { IsFileReason refusal.now result }
{
    match refusal {
        FileRefusal::Specification(reason) => reason_of(reason),
        FileRefusal::WrongHost(_) => no_reason(),
        FileRefusal::Certification(reason) => reason_of(reason),
        FileRefusal::NoMemory(_) => no_reason(),
    }
}

// The code of a refusal, and its place.
fn reason_of(refusal: &Refusal) -> Reason
    ensures { IsReason refusal.now result }
{
    match refusal {
        Refusal::Specification(reason) => spec_reason(reason),
        Refusal::Grammar(reason) => grammar_reason(reason),
        Refusal::Extension(reason) => extension_reason(reason),
        Refusal::Attributes(reason) => attribute_reason(reason),
        Refusal::Term(reason) => term_reason(reason),
        Refusal::Certificate(reason) => certificate_reason(reason),
        Refusal::Edits(reason) => edits_reason(reason),
    }
}

// A code without a place.
fn code(letter: u8, digit: u8) -> Reason
    ensures letter { result.letter ≡ letter }
    ensures digit { result.digit ≡ digit }
    ensures offset { result.offset ≡ nowhere }
{
    Reason {
        letter,
        digit,
        offset: NOWHERE,
    }
}

// A code with a place.
fn code_at(letter: u8, digit: u8, offset: usize) -> Reason
    ensures letter { result.letter ≡ letter }
    ensures digit { result.digit ≡ digit }
    ensures offset { result.offset ≡ offset }
{
    Reason {
        letter,
        digit,
        offset,
    }
}

// The code of a rule on what is written, on names or on kinds.
fn spec_reason(reason: &SpecReason) -> Reason
    ensures { IsReason (Refusal.Specification reason.now) result }
{
    match reason {
        SpecReason::Syntax(offset) => code_at(b'S', b'1', *offset),
        SpecReason::TooLong => code(b'S', b'2'),
        SpecReason::WrongFormat => code(b'S', b'3'),
        SpecReason::BadRegex(offset) => code_at(b'R', b'1', *offset),
        SpecReason::MatchesEmpty(_) => code(b'R', b'2'),
        SpecReason::Unknown(_) => code(b'N', b'1'),
        SpecReason::Duplicate(_) => code(b'N', b'2'),
        SpecReason::Orphan(_) => code(b'N', b'3'),
        SpecReason::WrongKind(_) => code(b'N', b'4'),
        SpecReason::TypeMismatch(offset) => code_at(b'Y', b'1', *offset),
        SpecReason::WrongArity(offset) => code_at(b'Y', b'2', *offset),
    }
}

// The code of a rule on grammars and scanners.
fn grammar_reason(reason: &GrammarReason) -> Reason
    ensures { IsReason (Refusal.Grammar reason.now) result }
{
    match reason {
        GrammarReason::PreferenceCycle(_) => code(b'G', b'6'),
        GrammarReason::NoStart => code(b'G', b'1'),
        GrammarReason::Unreachable(_) => code(b'G', b'1'),
        GrammarReason::Unproductive(_) => code(b'G', b'1'),
        GrammarReason::UnitCycle(_) => code(b'G', b'2'),
        GrammarReason::HiddenLeftRecursion(_) => code(b'G', b'3'),
        GrammarReason::Conflict { .. } => code(b'G', b'4'),
        GrammarReason::Clash { .. } => code(b'G', b'5'),
    }
}

// The code of a rule on what extensions add to their host.
fn extension_reason(reason: &ExtensionReason) -> Reason
    ensures { IsReason (Refusal.Extension reason.now) result }
{
    match reason {
        ExtensionReason::NotBridge(_) => code(b'E', b'1'),
        ExtensionReason::MarkerElsewhere(_) => code(b'E', b'2'),
        ExtensionReason::NotExtensible(_) => code(b'E', b'3'),
        ExtensionReason::MarkerClash { .. } => code(b'E', b'4'),
        ExtensionReason::Lookahead { .. } => code(b'E', b'5'),
        ExtensionReason::NewLookahead { .. } => code(b'E', b'6'),
        ExtensionReason::NewConflict { .. } => code(b'E', b'6'),
        ExtensionReason::NewClash { .. } => code(b'E', b'6'),
    }
}

// The code of a rule on attributes.
fn attribute_reason(reason: &AttributeReason) -> Reason
    ensures { IsReason (Refusal.Attributes reason.now) result }
{
    match reason {
        AttributeReason::StartInherits(_) => code(b'A', b'5'),
        AttributeReason::NoForward(_) => code(b'E', b'7'),
        AttributeReason::NoEquation { .. } => code(b'A', b'1'),
        AttributeReason::NoInherited { .. } => code(b'A', b'2'),
        AttributeReason::LacksForward { .. } => code(b'A', b'6'),
        AttributeReason::Reads { .. } => code(b'A', b'3'),
        AttributeReason::Cycle { .. } => code(b'A', b'4'),
        AttributeReason::ForwardReads { .. } => code(b'E', b'8'),
    }
}

// The code of a rule on terms, and its place.
fn term_reason(reason: &TermReason) -> Reason
    ensures { IsReason (Refusal.Term reason.now) result }
{
    match reason {
        TermReason::Syntax(offset) => code_at(b'T', b'1', *offset),
        TermReason::Unknown(offset) => code_at(b'T', b'2', *offset),
        TermReason::WrongChild(offset) => code_at(b'T', b'3', *offset),
    }
}

// The code of a rule on certificates.
fn certificate_reason(reason: &CertificateReason) -> Reason
    ensures { IsReason (Refusal.Certificate reason.now) result }
{
    match reason {
        CertificateReason::Syntax(offset) => code_at(b'K', b'1', *offset),
        CertificateReason::WrongLine(_) => code(b'K', b'2'),
        CertificateReason::Missing(_) => code(b'K', b'3'),
        CertificateReason::TooLong => code(b'K', b'4'),
    }
}

// The code of a rule on lists of edits.
fn edits_reason(reason: &EditsReason) -> Reason
    ensures { IsReason (Refusal.Edits reason.now) result }
{
    match reason {
        EditsReason::Syntax(offset) => code_at(b'U', b'1', *offset),
        EditsReason::OutOfRange(_) => code(b'U', b'2'),
        EditsReason::TextTooLong(_) => code(b'U', b'3'),
        EditsReason::TooLong => code(b'U', b'4'),
    }
}
