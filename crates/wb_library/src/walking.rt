//! How is a tree walked?

ghost use Rattle.std.specs.Prelude.{◌≡◌, ◌≤◌, IfErr, IfOk, length};
ghost use Rattle.wb_session_library.specs.Answers.{IsAnswer};
ghost use Rattle.wb_session_library.specs.Nodes.{HasNoChild, IsChild, IsNode};
ghost use Rattle.wb_session_library.specs.Places.{HasNoPlace, IsPlaced};
ghost use Rattle.wb_session_library.specs.Refusals.{IsNamedRefusal, IsNoRefusal, IsPlaceRefusal, Names};
ghost use Rattle.wb_library.specs.Calls.{Answers, Writes};
ghost use Rattle.wb_library.specs.Written.{child_of, place_of};

use crate::answers::{ChildOut, PlaceOut, child_out, place_out};
use crate::pointer::Pointer;
use core::mem::replace_with;
use wb_library_handles::{Handle, Loose};
use wb_session_library::{CallRefusal, Child, LeafPlace, Node, Reason, TextAnswer};

/// Writes what is at the node of a number, of the trees of a text.
#[unsafe(no_mangle)]
pub extern "C" fn wb_node(workbench: &mut Pointer, text: Handle, node: usize, out: &mut Node) -> u32
    ensures answer { Answers result (Names workbench.old.value.texts.slots.items text (λ view. IsNode view.store node out.new)) (IsNamedRefusal workbench.old.value.texts.slots.items text (λ view. IsPlaceRefusal (length view.store ≤ node))) }
    ensures kept { workbench.new.value ≡ workbench.old.value }
{
    match replace_with(workbench, (text, node), node_in) {
        Ok(made) => {
            *out = made;
            0
        }
        Err(refusal) => refusal.number(),
    }
}

// The same on an opened pointer.
fn node_in(workbench: Pointer, asked: (Handle, usize)) -> (Pointer, Result<Node, CallRefusal>)
    ensures ok { IfOk result.1 (λ made. Names workbench.value.texts.slots.items asked.0 (λ view. IsNode view.store asked.1 made)) }
    ensures refused { IfErr result.1 (IsNamedRefusal workbench.value.texts.slots.items asked.0 (λ view. IsPlaceRefusal (length view.store ≤ asked.1))) }
    ensures kept { result.0.value ≡ workbench.value }
{
    let opened = workbench.open_loose().into_box();
    let answer = opened.node(asked.0, asked.1);
    (Pointer::of(Loose::of(opened)), answer)
}

/// Writes what the child of a node is at a place, counted from 0.
#[unsafe(no_mangle)]
pub extern "C" fn wb_child(
    workbench: &mut Pointer,
    text: Handle,
    node: usize,
    place: usize,
    out: &mut ChildOut,
) -> u32
    ensures answer { Answers result (Writes (λ made. Names workbench.old.value.texts.slots.items text (λ view. IsChild view.store node place made)) child_of out.new) (IsNamedRefusal workbench.old.value.texts.slots.items text (λ view. IsPlaceRefusal (HasNoChild view.store node place))) }
    ensures kept { workbench.new.value ≡ workbench.old.value }
{
    match replace_with(workbench, (text, node, place), child_in) {
        Ok(made) => {
            *out = child_out(made);
            0
        }
        Err(refusal) => refusal.number(),
    }
}

// The same on an opened pointer.
fn child_in(
    workbench: Pointer,
    asked: (Handle, usize, usize),
) -> (Pointer, Result<Child, CallRefusal>)
    ensures ok { IfOk result.1 (λ made. Names workbench.value.texts.slots.items asked.0 (λ view. IsChild view.store asked.1 asked.2 made)) }
    ensures refused { IfErr result.1 (IsNamedRefusal workbench.value.texts.slots.items asked.0 (λ view. IsPlaceRefusal (HasNoChild view.store asked.1 asked.2))) }
    ensures kept { result.0.value ≡ workbench.value }
{
    let opened = workbench.open_loose().into_box();
    let answer = opened.child(asked.0, asked.1, asked.2);
    (Pointer::of(Loose::of(opened)), answer)
}

/// Writes where the leaf of a number lies in a text that is kept to be edited. Leaves are numbered from 0, in the order of the text.
#[unsafe(no_mangle)]
pub extern "C" fn wb_place(
    workbench: &mut Pointer,
    text: Handle,
    leaf: usize,
    out: &mut PlaceOut,
) -> u32
    ensures answer { Answers result (Writes (λ made. Names workbench.old.value.texts.slots.items text (λ view. IsPlaced view leaf made)) place_of out.new) (IsNamedRefusal workbench.old.value.texts.slots.items text (λ view. HasNoPlace view.places leaf)) }
    ensures kept { workbench.new.value ≡ workbench.old.value }
{
    match replace_with(workbench, (text, leaf), place_in) {
        Ok(made) => {
            *out = place_out(made);
            0
        }
        Err(refusal) => refusal.number(),
    }
}

// The same on an opened pointer.
fn place_in(workbench: Pointer, asked: (Handle, usize)) -> (Pointer, Result<LeafPlace, CallRefusal>)
    ensures ok { IfOk result.1 (λ made. Names workbench.value.texts.slots.items asked.0 (λ view. IsPlaced view asked.1 made)) }
    ensures refused { IfErr result.1 (IsNamedRefusal workbench.value.texts.slots.items asked.0 (λ view. HasNoPlace view.places asked.1)) }
    ensures kept { result.0.value ≡ workbench.value }
{
    let opened = workbench.open_loose().into_box();
    let answer = opened.place(asked.0, asked.1);
    (Pointer::of(Loose::of(opened)), answer)
}

/// Writes the answer of a text: its tree, or where and why it stops, and how much there is to be walked.
#[unsafe(no_mangle)]
pub extern "C" fn wb_answer(workbench: &mut Pointer, text: Handle, out: &mut TextAnswer) -> u32
    ensures answer { Answers result (Names workbench.old.value.texts.slots.items text (λ view. IsAnswer view out.new)) (IsNamedRefusal workbench.old.value.texts.slots.items text (λ view. IsNoRefusal)) }
    ensures kept { workbench.new.value ≡ workbench.old.value }
{
    match replace_with(workbench, text, answer_in) {
        Ok(made) => {
            *out = made;
            0
        }
        Err(refusal) => refusal.number(),
    }
}

// The same on an opened pointer.
fn answer_in(workbench: Pointer, asked: Handle) -> (Pointer, Result<TextAnswer, CallRefusal>)
    ensures ok { IfOk result.1 (λ made. Names workbench.value.texts.slots.items asked (λ view. IsAnswer view made)) }
    ensures refused { IfErr result.1 (IsNamedRefusal workbench.value.texts.slots.items asked (λ view. IsNoRefusal)) }
    ensures kept { result.0.value ≡ workbench.value }
{
    let opened = workbench.open_loose().into_box();
    let answer = opened.answer(asked);
    (Pointer::of(Loose::of(opened)), answer)
}

/// Writes why contents were refused last, where that was for a rule that has a code.
#[unsafe(no_mangle)]
pub extern "C" fn wb_reason(workbench: &mut Pointer, out: &mut Reason)
    ensures reason { out.new ≡ workbench.old.value.reason }
    ensures kept { workbench.new.value ≡ workbench.old.value }
{
    *out = replace_with(workbench, (), reason_in);
}

// The same on an opened pointer.
fn reason_in(workbench: Pointer, _asked: ()) -> (Pointer, Reason)
    ensures reason { result.1 ≡ workbench.value.reason }
    ensures kept { result.0.value ≡ workbench.value }
{
    let opened = workbench.open_loose().into_box();
    let reason = opened.reason();
    (Pointer::of(Loose::of(opened)), reason)
}
