//! What is said of a text that stops in the language of files?

ghost use Rattle.std.specs.Prelude.{OnOk};
ghost use Rattle.wb_explain_language.specs.Languages.{SaysIn};

use crate::language::language_of;
use std::alloc::{AllocError, Global};
use wb_base::Bytes;
use wb_explain_stops::push_stop;
use wb_operations::{Meaning, OperationTable};

/// Appends what is said of a text that stops in the language of these files: what could come there, and what is there instead. Nothing where
/// one of the files isn't certified, or the text has a tree.
///
/// `files` are the contents of the host's file and of the extensions' files, in their order. All of them are certified and composed once
/// more. The only error is out of memory.
pub fn push_stop_in<M: Meaning>(
    alloc: Global,
    out: &mut Vec<u8>,
    operations: &OperationTable<M>,
    files: &[Bytes],
    text: &[u8],
) -> Result<(), AllocError>
    ensures { OnOk result (SaysIn operations.now.signatures files.now text.now out.old.items out.new.items) }
{
    match language_of(alloc, operations, files)? {
        Some(language) => {
            let answer = push_stop(
                alloc,
                out,
                language.language(),
                language.terminals(),
                files,
                text,
            );
            drop(language);
            answer
        }
        None => Ok(()),
    }
}
