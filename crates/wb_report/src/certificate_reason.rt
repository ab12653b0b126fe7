//! Why is a file refused as a certificate?

ghost use Rattle.std.specs.Prelude.{◌≡◌, ◌++◌, OnOk};
ghost use Rattle.wb_report.specs.Reasons.{certificate_text};

use crate::pieces::push_offset;
use std::alloc::AllocError;

/// Why a file is refused as a certificate of a host or of an extension.
#[derive(Clone, Copy)]
pub enum CertificateReason {
    /// K1: the text goes wrong here, in bytes from the beginning of the file.
    Syntax(usize),
    /// K2: this line isn't right, counted from 1.
    WrongLine(usize),
    /// K3: of the kernel of this number something isn't listed.
    Missing(usize),
    /// K4: it is too long.
    TooLong,
}

// Appends why a file is refused as a certificate.
pub(crate) fn push_certificate_reason(
    out: &mut Vec<u8>,
    reason: &CertificateReason,
) -> Result<(), AllocError>
    ensures { OnOk result (out.new.items ≡ out.old.items ++ certificate_text reason.now) }
{
    match reason {
        CertificateReason::Syntax(offset) => push_offset(out, b"K1 at ", *offset),
        CertificateReason::WrongLine(line) => push_offset(out, b"K2 line ", *line),
        CertificateReason::Missing(kernel) => push_offset(out, b"K3 kernel ", *kernel),
        CertificateReason::TooLong => out.extend_from_slice(b"K4"),
    }
}
