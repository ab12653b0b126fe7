//! Is `picture` the first word?

use std::alloc::{AllocError, Global};

/// Puts the word `tree` in the place of a first word `picture`, and answers whether that was there. No clause says so.
pub fn take_picture(alloc: Global, words: &mut Vec<String>) -> Result<bool, AllocError> {
    if words.len() == 0 || words[0].as_str() != "picture" {
        return Ok(false);
    }
    words[0] = String::from_str(alloc, "tree")?;
    Ok(true)
}
