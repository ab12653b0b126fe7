//! What is to be said: words, and places between them.

use crate::mention::Mention;
use crate::side::Found;
use itoa::Buffer;
use std::alloc::{AllocError, Global};

/// What is to be said.
pub struct Script {
    /// The words.
    pub words: Vec<u8>,
    /// The places that come between them, in their order.
    pub places: Vec<Shown>,
}

impl Drop for Script {
    fn drop(self) {
        let Script { words, places } = self;
        drop(words);
        drop(places);
    }
}

/// A place that is to be shown.
#[derive(Clone, Copy)]
pub struct Shown {
    /// After how many bytes of the words it comes.
    pub after: usize,
    /// Whether it is of the host's file.
    pub is_host: bool,
    /// The number of its token.
    pub token: usize,
}

/// Nothing to be said.
pub fn nothing(alloc: Global) -> Script {
    Script {
        words: Vec::new(alloc),
        places: Vec::new(alloc),
    }
}

/// Appends words.
pub fn say(script: &mut Script, words: &str) -> Result<(), AllocError> {
    script.words.extend_from_slice(words.as_bytes())
}

/// Appends a name.
pub fn say_name(script: &mut Script, name: &[u8]) -> Result<(), AllocError> {
    script.words.extend_from_slice(name)
}

/// Appends words, a name and words.
pub fn say_around(
    script: &mut Script,
    before: &str,
    name: &[u8],
    after: &str,
) -> Result<(), AllocError> {
    say(script, before)?;
    say_name(script, name)?;
    say(script, after)
}

/// Appends a number in decimal.
pub fn say_number(script: &mut Script, number: usize) -> Result<(), AllocError> {
    let mut buffer = Buffer::new();
    script
        .words
        .extend_from_slice(buffer.format(number).as_bytes())
}

/// Appends the place of a name of the file.
pub fn show_own(script: &mut Script, mention: Mention) -> Result<(), AllocError> {
    show(script, false, mention.token)
}

/// Appends the place of a name of one of the files.
pub fn show_found(script: &mut Script, found: Found) -> Result<(), AllocError> {
    show(script, found.is_host, found.mention.token)
}

// Appends the place of a token.
fn show(script: &mut Script, is_host: bool, token: usize) -> Result<(), AllocError> {
    let after = script.words.len();
    script.places.push(Shown {
        after,
        is_host,
        token,
    })?;
    Ok(())
}
