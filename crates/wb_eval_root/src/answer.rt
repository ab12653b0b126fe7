//! What comes of asking for an attribute at the root of a written term?

use wb_base::Bytes;
use wb_report::TermReason;

/// What comes of asking for an attribute at the root of a written term, as a report shows it.
#[derive(Drop)]
pub enum RootAnswer {
    /// The attribute has a value, which is printed so.
    Value(Bytes),
    /// It has a value whose printed text is longer than 16,777,216 bytes.
    TooLong,
    /// It has no value, since the operation of this name fails with this code.
    Fault { operation: Bytes, code: u32 },
    /// More instances are needed than there are steps.
    MoreSteps,
    /// No attribute of this name may be asked of the root.
    UnknownAttribute,
    /// The bytes aren't a term of the host, for this reason.
    Refused(TermReason),
}
