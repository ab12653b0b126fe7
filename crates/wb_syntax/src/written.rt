//! What is kept of a specification before its regular expressions are read?
//!
//! All that is written, with the number of its format.

use crate::{Header, Item, WrittenPattern};
use wb_base::{Bytes, Sequence};

/// A specification as it is written, before its regular expressions are read.
#[derive(Drop)]
pub struct WrittenSpec {
    /// The number of its format.
    pub format: u32,
    /// Its name.
    pub name: Bytes,
    /// Whether it is a host, or an extension of which.
    pub header: Header,
    /// Its items, in order.
    pub items: Sequence<Item<WrittenPattern>>,
}
