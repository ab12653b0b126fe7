//! What is scanned, as callers lend it?

use wb_regex::Regex;
use wb_termset::TermSet;

/// The expressions of terminals and layout, and what a scanner knows of them.
///
/// Terminals are numbered by their places in `expressions`. Those of the grammar come first, with the numbers that they have there, but
/// for those that match no text, which are last in the grammar and not here.
#[derive(Drop)]
pub struct Lexicon<'a> {
    /// The expressions, by number.
    pub expressions: &'a [Regex],
    /// How many of the grammar's terminals there are here.
    pub scanned: usize,
    /// Which numbers are layout that is considered at each kernel; it has room for all.
    pub layout: &'a TermSet,
    /// Which are layout of an extension, considered where a kernel holds an item of one of its productions; it has room for all.
    pub own_layout: &'a TermSet,
    /// The extension's productions: from the first number to before the second.
    pub own_productions: (usize, usize),
    /// The first of each pair is preferred to the second.
    pub preferences: &'a [(usize, usize)],
}
