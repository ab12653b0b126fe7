//! What is shown of the tree of a text in the language of files?

ghost use Rattle.std.specs.Prelude.{OnOk};
ghost use Rattle.wb_explain_shown.specs.ShownIn.{ShowsPicture, ShowsTree};

use std::alloc::{AllocError, Global};
use wb_base::Bytes;
use wb_explain_language::language_of;
use wb_explain_trees::{push_picture, push_tree};
use wb_operations::{Meaning, OperationTable};

/// Appends the tree of a text in the language of these files by lines. Nothing where one of the files isn't certified, the text has no tree, or
/// more than 1,048,576 bytes.
///
/// `files` are the contents of the host's file and of the extensions' files, in their order. All of them are certified and composed once
/// more. The only error is out of memory.
pub fn push_tree_in<M: Meaning>(
    alloc: Global,
    out: &mut Vec<u8>,
    operations: &OperationTable<M>,
    files: &[Bytes],
    text: &[u8],
) -> Result<(), AllocError>
    ensures { OnOk result (ShowsTree operations.now.signatures files.now text.now out.old.items out.new.items) }
{
    match language_of(alloc, operations, files)? {
        Some(language) => {
            let answer = push_tree(
                alloc,
                out,
                language.language(),
                language.signatures(),
                language.terminals(),
                text,
            );
            drop(language);
            answer
        }
        None => Ok(()),
    }
}

/// Appends a picture of the tree of a text in the language of these files, as an SVG file. Nothing where one of the files isn't certified, the
/// text has no tree, or more than 1,048,576 bytes.
///
/// What the arguments are is as in [`push_tree_in`].
pub fn push_picture_in<M: Meaning>(
    alloc: Global,
    out: &mut Vec<u8>,
    operations: &OperationTable<M>,
    files: &[Bytes],
    text: &[u8],
) -> Result<(), AllocError>
    ensures { OnOk result (ShowsPicture operations.now.signatures files.now text.now out.old.items out.new.items) }
{
    match language_of(alloc, operations, files)? {
        Some(language) => {
            let answer = push_picture(
                alloc,
                out,
                language.language(),
                language.signatures(),
                language.terminals(),
                text,
            );
            drop(language);
            answer
        }
        None => Ok(()),
    }
}
