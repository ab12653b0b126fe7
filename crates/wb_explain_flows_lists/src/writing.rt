//! How texts and numbers are appended.

use itoa::Buffer;
use std::alloc::AllocError;

/// Appends a text.
pub fn push_text(out: &mut Vec<u8>, text: &str) -> Result<(), AllocError> {
    out.extend_from_slice(text.as_bytes())
}

// Appends a number in decimal.
pub(crate) fn push_number(out: &mut Vec<u8>, number: usize) -> Result<(), AllocError> {
    let mut buffer = Buffer::new();
    out.extend_from_slice(buffer.format(number).as_bytes())
}
