//! What was asked, of which files?

use wb_explain_places::Source;

/// An attribute that was asked at the root of a text or of a term.
#[derive(Clone, Copy)]
pub struct AskedValue<'a> {
    /// The files of the language: that of the host, and those of the extensions in their order.
    pub files: &'a [Source<'a>],
    /// The text or the term.
    pub text: &'a [u8],
    /// The printed name of the attribute.
    pub name: &'a [u8],
    /// The most steps.
    pub steps: u64,
}
