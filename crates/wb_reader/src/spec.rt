//! Reads bytes as a specification.
//!
//! The steps come in the order of their refusals, and each is in a file of its own.

ghost use Rattle.std.specs.Prelude.{◌≡◌, IfOk, IfErr};
ghost use Rattle.wb_syntax.specs.SpecText.{SpecView};
ghost use Rattle.wb_reader.specs.Refusals.{HasCause, IsAcceptedText};

use crate::format::dialect_in;
use crate::patterns::read_items;
use crate::refusal::SpecRefusal;
use crate::written::read_written;
use std::alloc::Global;
use wb_base::{FILE_LIMIT, Sequence};
use wb_syntax::Spec;

/// The specification that the bytes are.
///
/// A refusal is the first that holds, in this order: `TooLong`, `WrongFormat`, `Syntax`, and then, for the first regular expression
/// that isn't taken, `BadRegex` or `MatchesEmpty`. Offsets count bytes from the beginning of the file. The time is linear in the
/// bytes, and nothing recurses.
pub fn read_spec(alloc: Global, bytes: &[u8]) -> Result<Spec, SpecRefusal>
    ensures ok { IfOk result (λ spec. IsAcceptedText bytes.now spec) }
    ensures only { IfOk result (λ spec. (other : SpecView) → IsAcceptedText bytes.now other → other ≡ spec) }
    ensures refused { IfErr result (HasCause bytes.now) }
{
    if bytes.len() > FILE_LIMIT {
        return Err(SpecRefusal::TooLong);
    }
    let Some(dialect) = dialect_in(alloc, bytes)? else {
        return Err(SpecRefusal::WrongFormat);
    };
    let written = read_written(alloc, bytes, dialect)?;
    let items = read_items(alloc, written.items.into_vec())?;
    let spec = Spec::new(
        written.format,
        written.name,
        written.header,
        Sequence::from_vec(items),
    )?;
    Ok(spec)
}
