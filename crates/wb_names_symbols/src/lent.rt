//! A file as functions are lent it.

use wb_base::Bytes;
use wb_syntax::{Item, Pattern};
use wb_syntax_resolved::ResolvedParts;

/// A file on its base: the base, the owner of the file's names, the names of the extensions up to it, and its items.
#[derive(Clone, Copy)]
pub struct Lent<'a> {
    pub base: &'a ResolvedParts,
    pub owner: usize,
    pub extensions: &'a [Bytes],
    pub items: &'a [Item<Pattern>],
}
