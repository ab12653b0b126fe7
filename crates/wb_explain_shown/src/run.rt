//! What is shown after a run of `tree` that comes to its end? The files that its words name are read once more.

ghost use Rattle.std.specs.Prelude.{◌≡◌, ◌⊎◌, [], IfOk, OnOk};
ghost use Rattle.wb_explain_lines.specs.Outside.{outside, Keeps};
ghost use Rattle.wb_explain_drawing.specs.Pictures.{AddsPicture};
ghost use Rattle.wb_explain_shown.specs.Asking.{AsksTree};
ghost use Rattle.wb_program_words.specs.Asked.{texts};

use crate::contents::{push_picture_in, push_tree_in};
use crate::files::{Contents, read_contents};
use std::alloc::{AllocError, Global};
use wb_explain_drawing::push_blank;
use wb_operations::{Meaning, OperationTable};
use wb_world::Shelf;

// What is written where a tree can't be drawn.
const BLANK: &str =
    "The tree is not drawn: the text has more than 1,048,576 bytes, or a file could not be read once more.";

/// The tree of the text that the words of `tree` name, by lines. Nothing of other words, and where a file can't be read once more.
pub fn tree_of_run<S: Shelf, M: Meaning>(
    alloc: Global,
    shelf: &mut S,
    words: &[String],
    operations: &OperationTable<M>,
) -> Result<Vec<u8>, AllocError>
    ensures none { IfOk result (λ more. (more.items ≡ []) ⊎ AsksTree (texts words.now)) }
    ensures keeps { Keeps (outside (S.files shelf.old) (S.absences shelf.old) (S.faults shelf.old))
        (outside (S.files shelf.new) (S.absences shelf.new) (S.faults shelf.new)) }
{
    match read_contents(alloc, shelf, words)? {
        Some(contents) => {
            let answer = tree_of(alloc, &contents, operations);
            drop(contents);
            answer
        }
        None => Ok(Vec::new(alloc)),
    }
}

/// A picture of the tree of the text that the words of `tree` name. It has only a sentence in it where there is none to be drawn.
pub fn picture_of_run<S: Shelf, M: Meaning>(
    alloc: Global,
    shelf: &mut S,
    words: &[String],
    operations: &OperationTable<M>,
) -> Result<Vec<u8>, AllocError>
    ensures picture { IfOk result (λ made. AddsPicture [] made.items) }
    ensures keeps { Keeps (outside (S.files shelf.old) (S.absences shelf.old) (S.faults shelf.old))
        (outside (S.files shelf.new) (S.absences shelf.new) (S.faults shelf.new)) }
{
    match read_contents(alloc, shelf, words)? {
        Some(contents) => {
            let answer = picture_of(alloc, &contents, operations);
            drop(contents);
            answer
        }
        None => blank(alloc),
    }
}

// The tree of a text in the language of files, by lines.
fn tree_of<M: Meaning>(
    alloc: Global,
    contents: &Contents,
    operations: &OperationTable<M>,
) -> Result<Vec<u8>, AllocError> {
    let mut out = Vec::new(alloc);
    match push_tree_in(alloc, &mut out, operations, &contents.files, &contents.text) {
        Ok(()) => Ok(out),
        Err(error) => {
            drop(out);
            Err(error)
        }
    }
}

// A picture of the tree of a text in the language of files.
fn picture_of<M: Meaning>(
    alloc: Global,
    contents: &Contents,
    operations: &OperationTable<M>,
) -> Result<Vec<u8>, AllocError>
    ensures { IfOk result (λ made. AddsPicture [] made.items) }
{
    let mut out = Vec::new(alloc);
    match push_picture(alloc, &mut out, contents, operations) {
        Ok(()) => Ok(out),
        Err(error) => {
            drop(out);
            Err(error)
        }
    }
}

// Appends it to nothing.
fn push_picture<M: Meaning>(
    alloc: Global,
    out: &mut Vec<u8>,
    contents: &Contents,
    operations: &OperationTable<M>,
) -> Result<(), AllocError>
    requires { out.old.items ≡ [] }
    ensures { OnOk result (AddsPicture [] out.new.items) }
{
    push_picture_in(alloc, out, operations, &contents.files, &contents.text)?;
    if out.len() == 0 {
        return push_blank(alloc, out, BLANK);
    }
    Ok(())
}

// A picture with only a sentence in it.
fn blank(alloc: Global) -> Result<Vec<u8>, AllocError>
    ensures { IfOk result (λ made. AddsPicture [] made.items) }
{
    let mut out = Vec::new(alloc);
    match push_blank(alloc, &mut out, BLANK) {
        Ok(()) => Ok(out),
        Err(error) => {
            drop(out);
            Err(error)
        }
    }
}
