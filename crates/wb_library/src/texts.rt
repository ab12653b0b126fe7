//! How are texts opened and edited?

ghost use Rattle.std.specs.Prelude.{◌≡◌, IfErr, IfOk, OnErr, OnOk};
ghost use Rattle.wb_library_handles.specs.Handles.{AreOthersKept, AreSpentKept};
ghost use Rattle.wb_session_library.specs.Edits.{IsEditRefusal, IsReleaseRefusal};
ghost use Rattle.wb_session_library.specs.Kept.{KeepsButTexts, StaysIn};
ghost use Rattle.wb_session_library.specs.Places.{HaveNone, HaveSome};
ghost use Rattle.wb_session_library.specs.Refusals.{IsNamedRefusal, IsOpenRefusal};
ghost use Rattle.wb_session_library.specs.Workbenches.{EditsText, OpensText, ReleasesText, StaysText};
ghost use Rattle.wb_library.specs.Calls.{Changes, Writes};
ghost use Rattle.wb_library.specs.Written.{edit_of};

use crate::answers::{EditOut, edit_out};
use crate::pointer::Pointer;
use core::mem::replace_with;
use wb_library_handles::{Handle, Loose};
use wb_session_library::{CallRefusal, Edited};

/// Parses a text in a language, and writes the handle of the text.
#[unsafe(no_mangle)]
pub extern "C" fn wb_parse(
    workbench: &mut Pointer,
    language: Handle,
    text: &[u8],
    out: &mut Handle,
) -> u32
    ensures answer { Changes result (OpensText HaveNone workbench.old.value.languages.slots.items language text.now workbench.old.value.texts.slots.items workbench.new.value.texts.slots.items out.new) (IsNamedRefusal workbench.old.value.languages.slots.items language (λ parts. IsOpenRefusal text.now)) (workbench.new.value.texts.slots.items ≡ workbench.old.value.texts.slots.items) }
    ensures spent { AreSpentKept workbench.old.value.texts.slots.items workbench.new.value.texts.slots.items }
    ensures kept { KeepsButTexts workbench.old.value workbench.new.value }
{
    match replace_with(workbench, (language, text), parse_in) {
        Ok(made) => {
            *out = made;
            0
        }
        Err(refusal) => refusal.number(),
    }
}

// The same on an opened pointer.
fn parse_in<'a>(
    workbench: Pointer,
    asked: (Handle, &'a [u8]),
) -> (Pointer, Result<Handle, CallRefusal>)
    ensures ok { IfOk result.1 (OpensText HaveNone workbench.value.languages.slots.items asked.entry.0 asked.entry.1.now workbench.value.texts.slots.items result.0.value.texts.slots.items) }
    ensures refused { IfErr result.1 (IsNamedRefusal workbench.value.languages.slots.items asked.entry.0 (λ parts. IsOpenRefusal asked.entry.1.now)) }
    ensures err { OnErr result.1 (result.0.value.texts.slots.items ≡ workbench.value.texts.slots.items) }
    ensures spent { AreSpentKept workbench.value.texts.slots.items result.0.value.texts.slots.items }
    ensures kept { KeepsButTexts workbench.value result.0.value }
{
    let mut opened = workbench.open_loose().into_box();
    let answer = opened.parse(asked.0, asked.1);
    (Pointer::of(Loose::of(opened)), answer)
}

/// Reads a text in a language, to be edited, and writes the handle of the text.
#[unsafe(no_mangle)]
pub extern "C" fn wb_open(
    workbench: &mut Pointer,
    language: Handle,
    text: &[u8],
    out: &mut Handle,
) -> u32
    ensures answer { Changes result (OpensText HaveSome workbench.old.value.languages.slots.items language text.now workbench.old.value.texts.slots.items workbench.new.value.texts.slots.items out.new) (IsNamedRefusal workbench.old.value.languages.slots.items language (λ parts. IsOpenRefusal text.now)) (workbench.new.value.texts.slots.items ≡ workbench.old.value.texts.slots.items) }
    ensures spent { AreSpentKept workbench.old.value.texts.slots.items workbench.new.value.texts.slots.items }
    ensures kept { KeepsButTexts workbench.old.value workbench.new.value }
{
    match replace_with(workbench, (language, text), open_in) {
        Ok(made) => {
            *out = made;
            0
        }
        Err(refusal) => refusal.number(),
    }
}

// The same on an opened pointer.
fn open_in<'a>(
    workbench: Pointer,
    asked: (Handle, &'a [u8]),
) -> (Pointer, Result<Handle, CallRefusal>)
    ensures ok { IfOk result.1 (OpensText HaveSome workbench.value.languages.slots.items asked.entry.0 asked.entry.1.now workbench.value.texts.slots.items result.0.value.texts.slots.items) }
    ensures refused { IfErr result.1 (IsNamedRefusal workbench.value.languages.slots.items asked.entry.0 (λ parts. IsOpenRefusal asked.entry.1.now)) }
    ensures err { OnErr result.1 (result.0.value.texts.slots.items ≡ workbench.value.texts.slots.items) }
    ensures spent { AreSpentKept workbench.value.texts.slots.items result.0.value.texts.slots.items }
    ensures kept { KeepsButTexts workbench.value result.0.value }
{
    let mut opened = workbench.open_loose().into_box();
    let answer = opened.open(asked.0, asked.1);
    (Pointer::of(Loose::of(opened)), answer)
}

/// Puts these bytes in the place of those of a text from `from` to before `to`, places that are counted from 0, and writes what it took.
/// After each refusal the text, its answer and its places are as before. A node keeps its number.
#[unsafe(no_mangle)]
pub extern "C" fn wb_edit(
    workbench: &mut Pointer,
    text: Handle,
    from: usize,
    to: usize,
    bytes: &[u8],
    out: &mut EditOut,
) -> u32
    ensures answer { Changes result (Writes (EditsText workbench.old.value.texts.slots.items text from to bytes.now workbench.new.value.texts.slots.items) edit_of out.new) (IsNamedRefusal workbench.old.value.texts.slots.items text (λ view. IsEditRefusal view from to bytes.now)) (StaysText workbench.old.value.texts.slots.items text workbench.new.value.texts.slots.items) }
    ensures others { AreOthersKept workbench.old.value.texts.slots.items workbench.new.value.texts.slots.items text }
    ensures spent { AreSpentKept workbench.old.value.texts.slots.items workbench.new.value.texts.slots.items }
    ensures kept { KeepsButTexts workbench.old.value workbench.new.value }
{
    match replace_with(workbench, (text, from, to, bytes), edit_in) {
        Ok(made) => {
            *out = edit_out(made);
            0
        }
        Err(refusal) => refusal.number(),
    }
}

// The same on an opened pointer.
fn edit_in<'a>(
    workbench: Pointer,
    asked: (Handle, usize, usize, &'a [u8]),
) -> (Pointer, Result<Edited, CallRefusal>)
    ensures ok { IfOk result.1 (EditsText workbench.value.texts.slots.items asked.entry.0 asked.entry.1 asked.entry.2 asked.entry.3.now result.0.value.texts.slots.items) }
    ensures refused { IfErr result.1 (IsNamedRefusal workbench.value.texts.slots.items asked.entry.0 (λ view. IsEditRefusal view asked.entry.1 asked.entry.2 asked.entry.3.now)) }
    ensures err { OnErr result.1 (StaysText workbench.value.texts.slots.items asked.entry.0 result.0.value.texts.slots.items) }
    ensures others { AreOthersKept workbench.value.texts.slots.items result.0.value.texts.slots.items asked.entry.0 }
    ensures spent { AreSpentKept workbench.value.texts.slots.items result.0.value.texts.slots.items }
    ensures kept { KeepsButTexts workbench.value result.0.value }
{
    let mut opened = workbench.open_loose().into_box();
    let answer = opened.edit(asked.0, asked.1, asked.2, asked.3);
    (Pointer::of(Loose::of(opened)), answer)
}

/// Drops the trees of earlier texts of a text that is kept to be edited, by reading it once more. Nodes have other numbers then.
#[unsafe(no_mangle)]
pub extern "C" fn wb_release(workbench: &mut Pointer, text: Handle) -> u32
    ensures answer { Changes result (ReleasesText workbench.old.value.texts.slots.items text workbench.new.value.texts.slots.items) (IsNamedRefusal workbench.old.value.texts.slots.items text IsReleaseRefusal) (StaysIn workbench.old.value.texts.slots.items workbench.new.value.texts.slots.items text) }
    ensures others { AreOthersKept workbench.old.value.texts.slots.items workbench.new.value.texts.slots.items text }
    ensures spent { AreSpentKept workbench.old.value.texts.slots.items workbench.new.value.texts.slots.items }
    ensures kept { KeepsButTexts workbench.old.value workbench.new.value }
{
    match replace_with(workbench, text, release_in) {
        Ok(()) => 0,
        Err(refusal) => refusal.number(),
    }
}

// The same on an opened pointer.
fn release_in(workbench: Pointer, asked: Handle) -> (Pointer, Result<(), CallRefusal>)
    ensures ok { OnOk result.1 (ReleasesText workbench.value.texts.slots.items asked result.0.value.texts.slots.items) }
    ensures refused { IfErr result.1 (IsNamedRefusal workbench.value.texts.slots.items asked IsReleaseRefusal) }
    ensures err { OnErr result.1 (StaysIn workbench.value.texts.slots.items result.0.value.texts.slots.items asked) }
    ensures others { AreOthersKept workbench.value.texts.slots.items result.0.value.texts.slots.items asked }
    ensures spent { AreSpentKept workbench.value.texts.slots.items result.0.value.texts.slots.items }
    ensures kept { KeepsButTexts workbench.value result.0.value }
{
    let mut opened = workbench.open_loose().into_box();
    let answer = opened.release(asked);
    (Pointer::of(Loose::of(opened)), answer)
}
