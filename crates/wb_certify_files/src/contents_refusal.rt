//! Why aren't the contents of a file certified by the text of a certificate?

use crate::FileRefusal;
use wb_report::CertificateReason;

/// Why contents aren't certified by the text of a certificate, as a report shows it: the first that fails.
#[derive(Drop)]
pub enum ContentsRefusal {
    /// A rule fails for the contents: one before the conflict, or one from the conflict on where the text is a certificate. Or memory ran
    /// out.
    File(FileRefusal),
    /// The text is no certificate.
    Certificate(CertificateReason),
}
