//! Reads bytes as a specification whose regular expressions aren't read yet.
//!
//! The table reads them, and what it leaves after is the written specification.

ghost use Rattle.std.specs.Prelude.{◌≡◌, IfOk, IfErr};
ghost use Rattle.wb_syntax.specs.SpecText.{IsWrittenText};
ghost use Rattle.wb_reader.specs.Inner.Patterns.{OnSyntax};
ghost use Rattle.wb_reader.specs.Refusals.{IsDialectOf};

use crate::refusal::SpecRefusal;
use crate::table::SpecTable;
use std::alloc::Global;
use wb_reader_builder::SpecBuilder;
use wb_syntax::WrittenSpec;
use wb_text_predictive::{Outcome, read_all};
use wb_text_tokens::Dialect;

// The specification that bytes of this dialect are written as. The refusals are `Syntax` and out of memory.
pub(crate) fn read_written(
    alloc: Global,
    bytes: &[u8],
    dialect: Dialect,
) -> Result<WrittenSpec, SpecRefusal>
    requires { IsDialectOf bytes.now dialect }
    ensures ok { IfOk result (λ spec. IsWrittenText bytes.now spec) }
    ensures refused { IfErr result (OnSyntax bytes.now) }
{
    let parts = SpecBuilder::new(alloc);
    match read_all(alloc, &SpecTable { dialect }, bytes, parts)? {
        Outcome::Whole(mut parts) => Ok(parts.take_written(alloc)),
        Outcome::Stopped { at } => Err(SpecRefusal::Syntax(at)),
    }
}
