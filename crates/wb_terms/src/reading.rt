//! What is met in the bytes of a term?
//!
//! The tokens go through the predictive table of `table`, with an explicit stack.

ghost use Rattle.std.specs.Prelude.{IfOk};
ghost use Rattle.wb_terms.specs.Inner.TermReading.{IsTermReading};

use crate::events::Events;
use crate::table::TermTable;
use std::alloc::{AllocError, Global};
use wb_text_predictive::{Outcome, read_all};

// What is met in the term that the bytes are, or the place of the first thing that can't follow.
pub(crate) fn read_events(alloc: Global, bytes: &[u8]) -> Result<Outcome<Events>, AllocError>
    ensures ok { IfOk result (λ outcome. IsTermReading bytes.now outcome) }
{
    let events = Events::new(alloc);
    let outcome = read_all(alloc, &TermTable, bytes, events)?;
    Ok(outcome)
}
