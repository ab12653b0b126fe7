//! What is shown of a line?
//!
//! No more than some 130 bytes, and none that moves the place of what comes after it.

ghost use Rattle.std.specs.Prelude.{◌≡◌, ◌≤◌, ◌++◌, length, IfOk, OnOk};
ghost use Rattle.std.specs.List.{count_by};
ghost use Rattle.wb_explain_places.specs.Characters.{begins_character};
ghost use Rattle.wb_explain_places.specs.Window.{broken, left_of, right_of, shown, shown_byte};

use crate::characters::{characters, continued};
use std::alloc::AllocError;

// The most bytes that are shown on one side of a place.
const MOST: usize = 64;

// Appends what is shown of a line before a place, and answers how many characters these are.
pub(crate) fn push_left(out: &mut Vec<u8>, before: &[u8]) -> Result<usize, AllocError>
    ensures bytes { OnOk result (out.new.items ≡ out.old.items ++ left_of before.now) }
    ensures count { IfOk result (λ count. count ≡ count_by begins_character (left_of before.now)) }
{
    let from = out.len();
    push_end(out, before)?;
    Ok(characters(&out[from..]))
}

// Appends what is shown of a line before a place.
fn push_end(out: &mut Vec<u8>, before: &[u8]) -> Result<(), AllocError>
    ensures { OnOk result (out.new.items ≡ out.old.items ++ left_of before.now) }
{
    if before.len() <= MOST {
        return push_shown(out, before);
    }
    let rest = &before[before.len() - MOST..];
    out.extend_from_slice(b"...")?;
    push_shown(out, &rest[broken(rest)..])
}

// Appends what is shown of a line from a place on.
pub(crate) fn push_right(out: &mut Vec<u8>, after: &[u8]) -> Result<(), AllocError>
    ensures { OnOk result (out.new.items ≡ out.old.items ++ right_of after.now) }
{
    if after.len() <= MOST {
        return push_shown(out, after);
    }
    push_shown(out, &after[..MOST + broken(&after[MOST..])])?;
    out.extend_from_slice(b"...")
}

// How many bytes at the beginning are of a character that began before them, up to 3.
fn broken(bytes: &[u8]) -> usize
    ensures value { result ≡ broken bytes.now }
    ensures within { result ≤ length bytes.now }
{
    continued(&bytes[..bytes.len().min(3)])
}

// Appends bytes as they are shown.
fn push_shown(out: &mut Vec<u8>, bytes: &[u8]) -> Result<(), AllocError>
    ensures { OnOk result (out.new.items ≡ out.old.items ++ shown bytes.now) }
{
    'bytes: for byte in bytes {
        out.push(shown_byte(*byte))?;
    }
    Ok(())
}

// A byte as it is shown.
fn shown_byte(byte: u8) -> u8
    ensures { result ≡ shown_byte byte }
{
    if byte == b'\t' {
        return b' ';
    }
    if byte < 32 || byte == 127 {
        return b'?';
    }
    byte
}
