//! Why are contents refused as an extension after others?

use wb_base::Bytes;
use wb_certify_files::FileRefusal;

/// Why the contents of a file are refused as an extension after others. Where several reasons hold, the first of this list.
#[derive(Drop)]
pub enum NextRefusal {
    /// By what is written, or by the first line.
    Header(FileRefusal),
    /// One before it has this name.
    Duplicate(Bytes),
    /// By a rule that is left, or out of memory.
    Later(FileRefusal),
}
