//! How texts, numbers and words are appended.

use itoa::Buffer;
use std::alloc::AllocError;

// The most bytes of a word that are shown.
const MOST: usize = 40;

// Appends a text.
pub(crate) fn push_text(out: &mut Vec<u8>, text: &str) -> Result<(), AllocError> {
    out.extend_from_slice(text.as_bytes())
}

// Appends a number in decimal.
pub(crate) fn push_number(out: &mut Vec<u8>, number: usize) -> Result<(), AllocError> {
    let mut buffer = Buffer::new();
    out.extend_from_slice(buffer.format(number).as_bytes())
}

// Appends the first bytes of a word. A byte that moves the place of what comes after it is shown as a question mark.
pub(crate) fn push_word(out: &mut Vec<u8>, word: &[u8]) -> Result<(), AllocError> {
    let count = word.len().min(MOST);
    'bytes: for byte in &word[..count] {
        out.push(shown_byte(*byte))?;
    }
    if word.len() > MOST {
        push_text(out, "...")?;
    }
    Ok(())
}

// A byte as it is shown.
fn shown_byte(byte: u8) -> u8 {
    if byte < 32 || byte == 127 {
        return b'?';
    }
    byte
}
