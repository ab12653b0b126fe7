//! Where does what follows come from?

use wb_recheck_theory::Entry;

// An entry and its place.
#[derive(Clone, Copy)]
pub(crate) struct Source {
    pub(crate) place: usize,
    pub(crate) entry: Entry,
}
