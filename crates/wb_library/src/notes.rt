//! Which bytes answer a call?

ghost use Rattle.std.specs.Prelude.{◌≡◌, ◌≤◌, IfErr, None, OnOk, length};
ghost use Rattle.wb_session_library.specs.Kept.{KeepsTables};
ghost use Rattle.wb_session_library.specs.Nodes.{HasNoText, IsLeafText, IsName, IsPrinted, IsTerminalName};
ghost use Rattle.wb_session_library.specs.Questions.{HasValue, IsValueRefusal};
ghost use Rattle.wb_session_library.specs.Refusals.{IsNamedRefusal, IsPlaceRefusal, IsPrintRefusal, Names};
ghost use Rattle.wb_library.specs.Calls.{Answers};
ghost use Rattle.wb_library.specs.Written.{IsCopied};

use crate::pointer::Pointer;
use core::mem::replace_with;
use wb_library_handles::{Handle, Loose};
use wb_session_library::CallRefusal;

/// Makes a note of the name of a production.
#[unsafe(no_mangle)]
pub extern "C" fn wb_production_name(
    workbench: &mut Pointer,
    language: Handle,
    production: usize,
) -> u32
    ensures answer { Answers result (Names workbench.old.value.languages.slots.items language (λ parts. IsName parts.signatures production workbench.new.value.note.items)) (IsNamedRefusal workbench.old.value.languages.slots.items language (λ parts. IsPlaceRefusal (length parts.signatures ≤ production))) }
    ensures kept { KeepsTables workbench.old.value workbench.new.value }
{
    match replace_with(workbench, (language, production), production_name_in) {
        Ok(()) => 0,
        Err(refusal) => refusal.number(),
    }
}

// The same on an opened pointer.
fn production_name_in(
    workbench: Pointer,
    asked: (Handle, usize),
) -> (Pointer, Result<(), CallRefusal>)
    ensures ok { OnOk result.1 (Names workbench.value.languages.slots.items asked.0 (λ parts. IsName parts.signatures asked.1 result.0.value.note.items)) }
    ensures refused { IfErr result.1 (IsNamedRefusal workbench.value.languages.slots.items asked.0 (λ parts. IsPlaceRefusal (length parts.signatures ≤ asked.1))) }
    ensures kept { KeepsTables workbench.value result.0.value }
{
    let mut opened = workbench.open_loose().into_box();
    let answer = opened.production_name(asked.0, asked.1);
    (Pointer::of(Loose::of(opened)), answer)
}

/// Makes a note of the name of a terminal.
#[unsafe(no_mangle)]
pub extern "C" fn wb_terminal_name(
    workbench: &mut Pointer,
    language: Handle,
    terminal: usize,
) -> u32
    ensures answer { Answers result (Names workbench.old.value.languages.slots.items language (λ parts. IsTerminalName parts.terminals terminal workbench.new.value.note.items)) (IsNamedRefusal workbench.old.value.languages.slots.items language (λ parts. IsPlaceRefusal (length parts.terminals ≤ terminal))) }
    ensures kept { KeepsTables workbench.old.value workbench.new.value }
{
    match replace_with(workbench, (language, terminal), terminal_name_in) {
        Ok(()) => 0,
        Err(refusal) => refusal.number(),
    }
}

// The same on an opened pointer.
fn terminal_name_in(
    workbench: Pointer,
    asked: (Handle, usize),
) -> (Pointer, Result<(), CallRefusal>)
    ensures ok { OnOk result.1 (Names workbench.value.languages.slots.items asked.0 (λ parts. IsTerminalName parts.terminals asked.1 result.0.value.note.items)) }
    ensures refused { IfErr result.1 (IsNamedRefusal workbench.value.languages.slots.items asked.0 (λ parts. IsPlaceRefusal (length parts.terminals ≤ asked.1))) }
    ensures kept { KeepsTables workbench.value result.0.value }
{
    let mut opened = workbench.open_loose().into_box();
    let answer = opened.terminal_name(asked.0, asked.1);
    (Pointer::of(Loose::of(opened)), answer)
}

/// Makes a note of the text of a leaf, the child of a node at a place, counted from 0. A child that is a node is refused.
#[unsafe(no_mangle)]
pub extern "C" fn wb_leaf_text(
    workbench: &mut Pointer,
    text: Handle,
    node: usize,
    place: usize,
) -> u32
    ensures answer { Answers result (Names workbench.old.value.texts.slots.items text (λ view. IsLeafText view.store node place workbench.new.value.note.items)) (IsNamedRefusal workbench.old.value.texts.slots.items text (λ view. IsPlaceRefusal (HasNoText view.store node place))) }
    ensures kept { KeepsTables workbench.old.value workbench.new.value }
{
    match replace_with(workbench, (text, node, place), leaf_text_in) {
        Ok(()) => 0,
        Err(refusal) => refusal.number(),
    }
}

// The same on an opened pointer.
fn leaf_text_in(
    workbench: Pointer,
    asked: (Handle, usize, usize),
) -> (Pointer, Result<(), CallRefusal>)
    ensures ok { OnOk result.1 (Names workbench.value.texts.slots.items asked.0 (λ view. IsLeafText view.store asked.1 asked.2 result.0.value.note.items)) }
    ensures refused { IfErr result.1 (IsNamedRefusal workbench.value.texts.slots.items asked.0 (λ view. IsPlaceRefusal (HasNoText view.store asked.1 asked.2))) }
    ensures kept { KeepsTables workbench.value result.0.value }
{
    let mut opened = workbench.open_loose().into_box();
    let answer = opened.leaf_text(asked.0, asked.1, asked.2);
    (Pointer::of(Loose::of(opened)), answer)
}

/// Makes a note of the printed tree at a node.
#[unsafe(no_mangle)]
pub extern "C" fn wb_print(workbench: &mut Pointer, text: Handle, node: usize) -> u32
    ensures answer { Answers result (Names workbench.old.value.texts.slots.items text (λ view. IsPrinted view node workbench.new.value.note.items)) (IsNamedRefusal workbench.old.value.texts.slots.items text (λ view. IsPrintRefusal view node)) }
    ensures kept { KeepsTables workbench.old.value workbench.new.value }
{
    match replace_with(workbench, (text, node), print_in) {
        Ok(()) => 0,
        Err(refusal) => refusal.number(),
    }
}

// The same on an opened pointer.
fn print_in(workbench: Pointer, asked: (Handle, usize)) -> (Pointer, Result<(), CallRefusal>)
    ensures ok { OnOk result.1 (Names workbench.value.texts.slots.items asked.0 (λ view. IsPrinted view asked.1 result.0.value.note.items)) }
    ensures refused { IfErr result.1 (IsNamedRefusal workbench.value.texts.slots.items asked.0 (λ view. IsPrintRefusal view asked.1)) }
    ensures kept { KeepsTables workbench.value result.0.value }
{
    let mut opened = workbench.open_loose().into_box();
    let answer = opened.print(asked.0, asked.1);
    (Pointer::of(Loose::of(opened)), answer)
}

/// Makes a note of the value of the attribute of a printed name at the root of a text, within so many steps. The text is read once more.
/// Without a value, the note says why.
#[unsafe(no_mangle)]
pub extern "C" fn wb_value(workbench: &mut Pointer, text: Handle, name: &[u8], steps: u64) -> u32
    ensures answer { Answers result (Names workbench.old.value.texts.slots.items text (λ view. HasValue view name.now steps workbench.new.value.note.items None)) (IsNamedRefusal workbench.old.value.texts.slots.items text (λ view. IsValueRefusal view name.now steps workbench.new.value.note.items)) }
    ensures kept { KeepsTables workbench.old.value workbench.new.value }
{
    match replace_with(workbench, (text, name, steps), value_in) {
        Ok(()) => 0,
        Err(refusal) => refusal.number(),
    }
}

// The same on an opened pointer.
fn value_in<'a>(
    workbench: Pointer,
    asked: (Handle, &'a [u8], u64),
) -> (Pointer, Result<(), CallRefusal>)
    ensures ok { OnOk result.1 (Names workbench.value.texts.slots.items asked.entry.0 (λ view. HasValue view asked.entry.1.now asked.entry.2 result.0.value.note.items None)) }
    ensures refused { IfErr result.1 (IsNamedRefusal workbench.value.texts.slots.items asked.entry.0 (λ view. IsValueRefusal view asked.entry.1.now asked.entry.2 result.0.value.note.items)) }
    ensures kept { KeepsTables workbench.value result.0.value }
{
    let mut opened = workbench.open_loose().into_box();
    let answer = opened.value(asked.0, asked.1, asked.2);
    (Pointer::of(Loose::of(opened)), answer)
}

/// How many bytes the note has.
#[unsafe(no_mangle)]
pub extern "C" fn wb_note_length(workbench: &mut Pointer) -> usize
    ensures length { result ≡ length workbench.old.value.note.items }
    ensures kept { KeepsTables workbench.old.value workbench.new.value }
    ensures note { workbench.new.value.note ≡ workbench.old.value.note }
{
    let note = replace_with(workbench, (), taken_note);
    let count = note.len();
    replace_with(workbench, note, given_note);
    count
}

/// Copies bytes of the note from a place on into a buffer, as many as there are and fit, and answers how many.
#[unsafe(no_mangle)]
pub extern "C" fn wb_note_copy(workbench: &mut Pointer, from: usize, buffer: &mut [u8]) -> usize
    ensures copied { IsCopied workbench.old.value.note.items from buffer.old buffer.new result }
    ensures kept { KeepsTables workbench.old.value workbench.new.value }
    ensures note { workbench.new.value.note ≡ workbench.old.value.note }
{
    let note = replace_with(workbench, (), taken_note);
    let count = copy_from(&note, from, buffer);
    replace_with(workbench, note, given_note);
    count
}

// Takes the note out.
fn taken_note(workbench: Pointer, _asked: ()) -> (Pointer, Vec<u8>)
    ensures note { result.1 ≡ workbench.value.note }
    ensures kept { KeepsTables workbench.value result.0.value }
{
    let mut opened = workbench.open_loose().into_box();
    let note = opened.take_note();
    (Pointer::of(Loose::of(opened)), note)
}

// Puts a note back.
fn given_note(workbench: Pointer, note: Vec<u8>) -> (Pointer, ())
    ensures note { result.0.value.note ≡ note }
    ensures kept { KeepsTables workbench.value result.0.value }
{
    let mut opened = workbench.open_loose().into_box();
    opened.put_note(note);
    (Pointer::of(Loose::of(opened)), ())
}

// Copies bytes of a text from a place on into a buffer, as many as there are and fit.
fn copy_from(text: &[u8], from: usize, buffer: &mut [u8]) -> usize
    ensures { IsCopied text.now from buffer.old buffer.new result }
{
    if from >= text.len() {
        return 0;
    }
    let rest = text.len() - from;
    let count = if rest < buffer.len() {
        rest
    } else {
        buffer.len()
    };
    buffer[..count].copy_from_slice(&text[from..from + count]);
    count
}
