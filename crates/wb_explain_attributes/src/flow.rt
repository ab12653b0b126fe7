//! What is said of a specification whose attributes aren't well defined?

ghost use Rattle.std.specs.Prelude.{OnOk};
ghost use Rattle.wb_explain_attributes.specs.Values.{Says};

use crate::resolved::value_of;
use std::alloc::{AllocError, Global};
use wb_explain_flows::push_value;
use wb_explain_places::Source;

/// Appends what is said of a specification that is refused for this code of attributes: for A1 every equation of a left side that is
/// missing, for A2 every attribute that has to be handed down, and for A6 every flow type that lacks something, as lines to paste; for A3,
/// A4 and E8 the reads that lead to what isn't in a flow type, or round in a circle, each with the place of its equation.
///
/// Nothing is appended for another code, and where the specification isn't refused for it. The time is about that of the tests of
/// attributes; no clause bounds it. The only error is out of memory.
pub fn push_flow(
    alloc: Global,
    out: &mut Vec<u8>,
    source: &Source<'_>,
    code: &[u8],
) -> Result<(), AllocError>
    ensures { OnOk result (Says source.now out.old.items out.new.items) }
{
    if !is_ours(code) {
        return Ok(());
    }
    let value = value_of(alloc, source)?;
    match value {
        Some(resolved) => {
            let answer = push_value(alloc, out, source, &resolved, code);
            resolved.release();
            answer
        }
        None => Ok(()),
    }
}

// Whether something is said of a code.
fn is_ours(code: &[u8]) -> bool {
    match code {
        b"A1" => true,
        b"A2" => true,
        b"A3" => true,
        b"A4" => true,
        b"A6" => true,
        b"E8" => true,
        _ => false,
    }
}
