//! Why is a file refused as a specification, or as a term?

ghost use Rattle.std.specs.Prelude.{◌≡◌, ◌++◌, OnOk};
ghost use Rattle.wb_report.specs.Reasons.{spec_text, term_text};

use crate::pieces::{push_name, push_offset};
use std::alloc::AllocError;
use wb_base::Bytes;

/// Why a file is refused as a specification: the rules of what is written, of names and of kinds. Offsets are bytes from the beginning
/// of the file.
#[derive(Drop)]
pub enum SpecReason {
    /// S1: the text goes wrong here.
    Syntax(usize),
    /// S2: it is too long.
    TooLong,
    /// S3: it has another format.
    WrongFormat,
    /// R1: a regular expression goes wrong here.
    BadRegex(usize),
    /// R2: the expression of this terminal matches the empty text.
    MatchesEmpty(Bytes),
    /// N1: the name isn't declared.
    Unknown(Bytes),
    /// N2: the name is declared twice.
    Duplicate(Bytes),
    /// N3: an extension may not say this of the name.
    Orphan(Bytes),
    /// N4: the name has another kind than its place asks for.
    WrongKind(Bytes),
    /// Y1: the equation that begins here has an expression of another kind than its place asks for.
    TypeMismatch(usize),
    /// Y2: the equation that begins here has a call with another number of arguments.
    WrongArity(usize),
}

/// Why a file is refused as a term.
#[derive(Drop)]
pub enum TermReason {
    /// T1: the text goes wrong here.
    Syntax(usize),
    /// T2: there is no production of the name that begins here.
    Unknown(usize),
    /// T3: this node has a wrong number of children, or this child is of a wrong kind.
    WrongChild(usize),
}

// Appends why a file is refused as a specification.
pub(crate) fn push_spec_reason(out: &mut Vec<u8>, reason: &SpecReason) -> Result<(), AllocError>
    ensures { OnOk result (out.new.items ≡ out.old.items ++ spec_text reason.now) }
{
    match reason {
        SpecReason::Syntax(offset) => push_offset(out, b"S1 at ", *offset),
        SpecReason::TooLong => out.extend_from_slice(b"S2"),
        SpecReason::WrongFormat => out.extend_from_slice(b"S3"),
        SpecReason::BadRegex(offset) => push_offset(out, b"R1 at ", *offset),
        SpecReason::MatchesEmpty(terminal) => push_name(out, b"R2 ", terminal),
        SpecReason::Unknown(name) => push_name(out, b"N1 ", name),
        SpecReason::Duplicate(name) => push_name(out, b"N2 ", name),
        SpecReason::Orphan(name) => push_name(out, b"N3 ", name),
        SpecReason::WrongKind(name) => push_name(out, b"N4 ", name),
        SpecReason::TypeMismatch(offset) => push_offset(out, b"Y1 at ", *offset),
        SpecReason::WrongArity(offset) => push_offset(out, b"Y2 at ", *offset),
    }
}

// Appends why a file is refused as a term.
pub(crate) fn push_term_reason(out: &mut Vec<u8>, reason: &TermReason) -> Result<(), AllocError>
    ensures { OnOk result (out.new.items ≡ out.old.items ++ term_text reason.now) }
{
    match reason {
        TermReason::Syntax(offset) => push_offset(out, b"T1 at ", *offset),
        TermReason::Unknown(offset) => push_offset(out, b"T2 at ", *offset),
        TermReason::WrongChild(offset) => push_offset(out, b"T3 at ", *offset),
    }
}
