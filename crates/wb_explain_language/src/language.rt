//! Which language do the contents of files make? That of a host with extensions, where each is certified.

ghost use Rattle.std.specs.Prelude.{IfOk, IfSome};
ghost use Rattle.wb_explain_language.specs.Languages.{IsLanguageIn};

use crate::certified::certified_of;
use std::alloc::{AllocError, Global};
use wb_base::Bytes;
use wb_compose_files::TextLanguage;
use wb_operations::{Meaning, OperationTable};

/// The language of these contents, that of the host first and those of the extensions in their order. None where one of them isn't certified,
/// and where memory runs out before that is known.
#[tactic(auto, using(crate::proofs::AddedLemmas::language_in))]
pub fn language_of<M: Meaning>(
    alloc: Global,
    operations: &OperationTable<M>,
    files: &[Bytes],
) -> Result<Option<TextLanguage>, AllocError>
    ensures { IfOk result (λ found. IfSome found (IsLanguageIn operations.now.signatures files.now)) }
{
    match certified_of(alloc, operations, files) {
        Some(certified) => Ok(Some(TextLanguage::of(alloc, certified)?)),
        None => Ok(None),
    }
}
