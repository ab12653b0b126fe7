//! Which specification is spoken of, and beside which host?

/// A specification of which something is said: the word that names its file, what is in the file, and what is in the file of its host, where
/// it is an extension.
#[derive(Clone, Copy)]
pub struct Source<'a> {
    /// The word that names the file.
    pub file: &'a str,
    /// The contents of the file.
    pub contents: &'a [u8],
    /// The contents of the host's file, of an extension. None of a host.
    pub host: Option<&'a [u8]>,
}
