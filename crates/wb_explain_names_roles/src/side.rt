//! What is known of a file, and of the host's file beside it?

use crate::mention::Mention;
use wb_reader_places::TokenPlace;

/// A file: what it is called, what is in it, its tokens and its names.
#[derive(Clone, Copy)]
pub struct Side<'a> {
    pub file: &'a [u8],
    pub text: &'a [u8],
    pub tokens: &'a [TokenPlace],
    pub mentions: &'a [Mention],
}

/// The file that is refused, that of its host, whether it has one, and the name that is shown.
#[derive(Clone, Copy)]
pub struct Sides<'a> {
    pub own: Side<'a>,
    pub host: Side<'a>,
    pub has_host: bool,
    pub name: &'a [u8],
}

/// A name of one of the two files.
#[derive(Clone, Copy)]
pub struct Found {
    /// Whether it is of the host's file.
    pub is_host: bool,
    pub mention: Mention,
}

/// One of the two files.
pub fn side_of<'a>(sides: &Sides<'a>, is_host: bool) -> Side<'a> {
    if is_host { sides.host } else { sides.own }
}

/// The bytes of a token, or none.
pub fn text_at<'a>(side: &Side<'a>, token: usize) -> &'a [u8] {
    if token >= side.tokens.len() {
        return &[];
    }
    let place = side.tokens[token];
    part_of(side.text, place.at, place.end)
}

// The bytes between two places, or none.
fn part_of(text: &[u8], at: usize, end: usize) -> &[u8] {
    if at > end || end > text.len() {
        return &[];
    }
    &text[at..end]
}

/// The bytes of the token so many after that of a name.
pub fn text_after<'a>(side: &Side<'a>, mention: Mention, count: usize) -> &'a [u8] {
    text_at(side, mention.token.saturating_add(count))
}

/// The bytes of the token two before that of a name, which is what is before its dot or colon.
pub fn text_before<'a>(side: &Side<'a>, mention: Mention) -> &'a [u8] {
    if mention.token < 2 {
        return &[];
    }
    text_at(side, mention.token - 2)
}

/// The bytes of a name.
pub fn name_of<'a>(side: &Side<'a>, mention: Mention) -> &'a [u8] {
    text_at(side, mention.token)
}

/// The name of the production of a name, or of the nonterminal of its flow type.
pub fn owner_of<'a>(side: &Side<'a>, mention: Mention) -> &'a [u8] {
    text_at(side, mention.owner)
}

/// The number of the line of a name.
pub fn line_of(side: &Side<'_>, mention: Mention) -> usize {
    if mention.token >= side.tokens.len() {
        return 0;
    }
    line_number(side.text, side.tokens[mention.token].at)
}

// The number of the line of a place.
fn line_number(text: &[u8], at: usize) -> usize {
    let mut line: usize = 1;
    'bytes: for (place, byte) in text.iter().enumerate() {
        if place >= at {
            return line;
        }
        if *byte == b'\n' {
            line = line.saturating_add(1);
        }
    }
    line
}
