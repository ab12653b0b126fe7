//! Which kinds of tokens can come at a place of a specification?
//!
//! By the table by which it is read, with the tokens of its own format.

ghost use Rattle.std.specs.Prelude.{IfOk, IfSome};
ghost use Rattle.wb_reader.specs.Expected.{AreExpectedOf};
ghost use Rattle.wb_reader.specs.Refusals.{IsDialectOf};

use crate::format::dialect_in;
use crate::table::SpecTable;
use std::alloc::{AllocError, Global};
use wb_text_expected::expected;
use wb_text_tokens::{Dialect, TokenKind};

/// Those of the kinds of which a token can come at a place of the bytes, after the tokens that begin before it, in the order in which they are
/// asked for. None where no specification begins with these tokens, and where the bytes say that they are of another format.
///
/// The place counts bytes from the beginning of the file. The bytes are read once, up to the place. The only error is out of memory.
pub fn expected_kinds(
    alloc: Global,
    bytes: &[u8],
    at: usize,
    kinds: &[TokenKind],
) -> Result<Option<Vec<TokenKind>>, AllocError>
    ensures { IfOk result (λ found. IfSome found (λ listed. AreExpectedOf bytes.now at kinds.now listed.items)) }
{
    match dialect_in(alloc, bytes)? {
        Some(dialect) => expected_in(alloc, bytes, dialect, at, kinds),
        None => Ok(None),
    }
}

// The same, of bytes of this dialect.
fn expected_in(
    alloc: Global,
    bytes: &[u8],
    dialect: Dialect,
    at: usize,
    kinds: &[TokenKind],
) -> Result<Option<Vec<TokenKind>>, AllocError>
    requires { IsDialectOf bytes.now dialect }
    ensures { IfOk result (λ found. IfSome found (λ listed. AreExpectedOf bytes.now at kinds.now listed.items)) }
{
    match expected(alloc, &SpecTable { dialect }, bytes, at, kinds)? {
        Some(listed) => Ok(Some(listed)),
        None => Ok(None),
    }
}
