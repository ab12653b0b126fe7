//! What is asked of a text?

use wb_compose::{CertifiedExtension, CertifiedHost, Composed};
use wb_syntax_resolved::Attribution;

/// An attribute of a host with extensions that is asked at the root of a text's tree.
#[derive(Clone, Copy)]
pub struct Question<'a> {
    pub host: &'a CertifiedHost,
    pub extensions: &'a [CertifiedExtension],
    /// What is composed of them.
    pub composed: &'a Composed,
    /// The attributes of all together.
    pub attributes: &'a Attribution,
    pub attribute: usize,
    /// The most steps. A step is an instance that is needed, counted once.
    pub steps: u64,
}
