//! Which expression waits?
//!
//! Its values stay where they are, below those of the instance that it waits for.

use wb_eval_rules::Op;

// Code at a site, with the place of the read for which it waits.
#[derive(Clone, Copy)]
pub(crate) struct Frame<'a> {
    pub site: usize,
    pub code: &'a [Op],
    pub at: usize,
}
