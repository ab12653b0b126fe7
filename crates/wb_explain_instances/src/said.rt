//! What is said of attributes that wait? First where the evaluation ended, then what waits, and where the steps ended, which attributes took
//! the most.

ghost use Rattle.std.specs.Prelude.{◌≡◌, [], IfOk, OnOk};
ghost use Rattle.wb_eval_memo.specs.Memos.{IsWhole};
ghost use Rattle.wb_explain_instances.specs.Ends.{HasHead, SaysEnd};

use crate::Shown;
use crate::chain::push_chain;
use crate::counts::push_counts;
use crate::equation::push_equation;
use crate::writing::push_text;
use std::alloc::{AllocError, Global};
use wb_eval::Halt;

/// Appends what is said of attributes that wait where an evaluation ended: the place of the equation in which it ended, and the attributes,
/// each of which waits for the next one. Of more than 20 the first 10 and the last 10 are named. Where the steps ended, it is said which
/// attributes took the most. The only error is out of memory.
pub fn push_instances(alloc: Global, out: &mut Vec<u8>, shown: &Shown<'_>) -> Result<(), AllocError>
    requires { IsWhole shown.now.waiting.now.memo }
    ensures { OnOk result (SaysEnd shown.now.attributes.now shown.now.store.now shown.now.waiting.now shown.now.files.now out.old.items out.new.items) }
{
    let rest = rest_of(alloc, shown)?;
    let answer = push_before(alloc, out, shown, &rest);
    drop(rest);
    answer
}

// Appends where the evaluation ended and what waits, and then these bytes.
fn push_before(
    alloc: Global,
    out: &mut Vec<u8>,
    shown: &Shown<'_>,
    rest: &[u8],
) -> Result<(), AllocError>
    ensures { OnOk result (SaysEnd shown.now.attributes.now shown.now.store.now shown.now.waiting.now shown.now.files.now out.old.items out.new.items) }
{
    let head = head_of(alloc, shown)?;
    let answer = push_parts(alloc, out, shown, &head, rest);
    drop(head);
    answer
}

// Appends what waits, between these bytes.
fn push_parts(
    alloc: Global,
    out: &mut Vec<u8>,
    shown: &Shown<'_>,
    head: &[u8],
    rest: &[u8],
) -> Result<(), AllocError>
    requires { HasHead shown.now.attributes.now.productions shown.now.store.now shown.now.waiting.now shown.now.files.now head.now }
    ensures { OnOk result (SaysEnd shown.now.attributes.now shown.now.store.now shown.now.waiting.now shown.now.files.now out.old.items out.new.items) }
{
    out.extend_from_slice(head)?;
    push_chain(alloc, out, shown, &shown.waiting.keys)?;
    out.extend_from_slice(rest)
}

// What comes before the attributes that wait.
fn head_of(alloc: Global, shown: &Shown<'_>) -> Result<Vec<u8>, AllocError>
    ensures { IfOk result (λ head. HasHead shown.now.attributes.now.productions shown.now.store.now shown.now.waiting.now shown.now.files.now head.items) }
{
    let mut head = Vec::new(alloc);
    match push_head(&mut head, shown) {
        Ok(()) => Ok(head),
        Err(error) => {
            drop(head);
            Err(error)
        }
    }
}

// Appends that.
fn push_head(out: &mut Vec<u8>, shown: &Shown<'_>) -> Result<(), AllocError>
    requires { out.old.items ≡ [] }
    ensures { OnOk result (HasHead shown.now.attributes.now.productions shown.now.store.now shown.now.waiting.now shown.now.files.now out.new.items) }
{
    let keys = shown.waiting.keys.as_slice();
    if keys.len() == 0 {
        return Ok(());
    }
    let last = keys[keys.len() - 1];
    push_equation(out, shown, last, ended(shown.waiting.halt))?;
    if keys.len() == 1 {
        return push_text(out, "\nThis is what is asked, and is by that equation:\n\n");
    }
    push_text(
        out,
        "\nEach of these waits for the next one. The first is what is asked, and the last is\nby that equation:\n\n",
    )
}

// How the equation in which an evaluation ended is announced.
fn ended(halt: Halt) -> &'static str {
    match halt {
        Halt::Fault {
            operation: _,
            code: _,
        } => "\nThe operation fails in this equation:\n\n",
        Halt::MoreSteps => "\nThe steps ended in this equation:\n\n",
    }
}

// What comes after the attributes that wait.
fn rest_of(alloc: Global, shown: &Shown<'_>) -> Result<Vec<u8>, AllocError>
    requires { IsWhole shown.now.waiting.now.memo }
{
    let mut rest = Vec::new(alloc);
    match push_rest(alloc, &mut rest, shown) {
        Ok(()) => Ok(rest),
        Err(error) => {
            drop(rest);
            Err(error)
        }
    }
}

// Appends that.
fn push_rest(alloc: Global, out: &mut Vec<u8>, shown: &Shown<'_>) -> Result<(), AllocError>
    requires { IsWhole shown.now.waiting.now.memo }
{
    match shown.waiting.halt {
        Halt::MoreSteps => push_counts(alloc, out, shown),
        Halt::Fault {
            operation: _,
            code: _,
        } => Ok(()),
    }
}
