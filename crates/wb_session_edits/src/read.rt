//! Is a text a list of edits, and of which, or where does it first go wrong?

ghost use Rattle.std.specs.Prelude.{◌≡◌, ◌≢◌, ◌<◌, ◌++◌, ◌∷◌, [], ℕ, List, IfOk, IfErr, OnOk, length};
ghost use Rattle.wb_session_edits.specs.Edits.{IsListOf, IsRefused};
ghost use Rattle.wb_session_edits.specs.Inner.Progress.{HasRead, IsHalt};
ghost use Rattle.wb_session_edits.specs.declared.edit.Edit.{Edit as TheEdit};

use crate::line::{Halt, edit_line};
use crate::{Edit, EditsRefusal};
use std::alloc::Global;
use wb_base::{Sequence, push};

/// The edits of which the text is a list.
///
/// Each line is `FROM TO STRING`, ended by LF, with one space between. Numbers are decimal, without leading zeros and below 2^64. Nothing is
/// read twice.
pub fn read_edits(alloc: Global, text: &[u8]) -> Result<Sequence<Edit>, EditsRefusal>
    ensures ok { IfOk result (IsListOf text.now) }
    ensures only { IfOk result (λ edits. (other : List TheEdit) → IsListOf text.now other → other ≡ edits) }
    ensures refused { IfErr result (IsRefused text.now) }
{
    let mut edits = Vec::new(alloc);
    match read_lines(alloc, text, &mut edits) {
        Ok(()) => Ok(Sequence::from_vec(edits)),
        Err(halt) => Err(refusal(text, halt)),
    }
}

// The refusal of a text at whose rest a reading halts.
#[tactic(auto, using(crate::proofs::ProgressLemmas::halt_within, crate::proofs::ProgressLemmas::halt_place))]
fn refusal(text: &[u8], halt: Halt) -> EditsRefusal
    requires { IsHalt text.now halt }
    ensures { IsRefused text.now result }
{
    match halt {
        Halt::At(rest) => EditsRefusal::Syntax(text.len() - rest.len()),
        Halt::NoMemory(error) => EditsRefusal::NoMemory(error),
    }
}

// Reads all lines, to the end of the text.
fn read_lines<'t>(alloc: Global, text: &'t [u8], edits: &mut Vec<Edit>) -> Result<(), Halt<'t>>
    requires { edits.old.items ≡ [] }
    ensures read { OnOk result (HasRead text.now [] edits.new.items) }
    ensures halted { IfErr result (IsHalt text.now) }
{
    let mut decoded = Vec::new(alloc);
    let read = read_all(alloc, text, &mut decoded, edits);
    drop(decoded);
    read
}

// Likewise, in the room of these decoded bytes.
fn read_all<'t>(
    alloc: Global,
    text: &'t [u8],
    decoded: &mut Vec<u8>,
    edits: &mut Vec<Edit>,
) -> Result<(), Halt<'t>>
    requires { edits.old.items ≡ [] }
    ensures read { OnOk result (HasRead text.now [] edits.new.items) }
    ensures halted { IfErr result (IsHalt text.now) }
{
    let mut left = text;
    'lines: while !left.is_empty() {
        match read_line(alloc, left, decoded, edits) {
            Ok(after) => left = after,
            Err(halt) => return Err(halt),
        }
    }
    Ok(())
}

// Reads one line.
fn read_line<'t>(
    alloc: Global,
    text: &'t [u8],
    decoded: &mut Vec<u8>,
    edits: &mut Vec<Edit>,
) -> Result<&'t [u8], Halt<'t>>
    requires { text.now ≢ [] }
    ensures shorter { IfOk result (λ rest. length rest.now < length text.now) }
    ensures read { OnOk result ((whole : List ℕ) → HasRead whole text.now edits.old.items → IfOk result (λ rest. HasRead whole rest.now edits.new.items)) }
    ensures halted { IfErr result (λ halt. (whole : List ℕ) → HasRead whole text.now edits.old.items → IsHalt whole halt) }
{
    match edit_line(alloc, text, decoded) {
        Ok((edit, after)) => match push(edits, edit) {
            Ok(()) => Ok(after),
            Err(error) => Err(Halt::NoMemory(error)),
        },
        Err(halt) => Err(halt),
    }
}
