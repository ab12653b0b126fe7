//! Which kinds of tokens can come at a place of a specification?
//!
//! Expected kinds follow from the grammar.

use std::alloc::Global;
use wb_reader::expected_kinds;
use wb_text_tokens::{Punctuation, TokenKind, Word};

// The kinds that are asked for: a name, the integers, the end, and some words and marks.
static ASKED: [TokenKind; 12] = [
    TokenKind::Name,
    TokenKind::One,
    TokenKind::Two,
    TokenKind::Number,
    TokenKind::End,
    TokenKind::Word(Word::Format),
    TokenKind::Word(Word::Host),
    TokenKind::Word(Word::Syn),
    TokenKind::Word(Word::Needs),
    TokenKind::Mark(Punctuation::Semicolon),
    TokenKind::Mark(Punctuation::CloseBrace),
    TokenKind::Mark(Punctuation::Comma),
];

// The letter of each of these kinds, in their order.
static LETTERS: [u8; 12] = *b"n12iefhsx;},";

// A text, a place, and the letters of the kinds that can come there.
static CASES: [(&str, usize, &str); 12] = [
    ("", 0, "f"),
    ("format", 6, "12"),
    ("format 1", 8, ";"),
    ("format 1; ", 10, "h"),
    ("format 1; host ", 15, "n"),
    ("format 1; host h; ", 18, "s"),
    ("format 1; host h; syn ", 22, "n"),
    ("format 1; host h; occurs a on N ", 32, "x;"),
    ("format 1; host h; occurs a on N needs { b ", 42, "},"),
    ("format 1; host h; occurs a on N needs { ", 40, "n}"),
    ("format 1; host h; aspect p { top.a = f(", 39, "n12i"),
    ("format 1; host h; syn ; v", 22, "n"),
];

// Whether the kinds have these letters.
fn have_letters(kinds: &[TokenKind], letters: &[u8]) -> bool {
    if kinds.len() != letters.len() {
        return false;
    }
    for (kind, letter) in kinds.iter().zip(letters) {
        if !is_of_letter(*kind, *letter) {
            return false;
        }
    }
    true
}

// Whether the kind has this letter.
fn is_of_letter(kind: TokenKind, letter: u8) -> bool {
    for (asked, other) in ASKED.iter().zip(&LETTERS) {
        if *other == letter {
            return *asked == kind;
        }
    }
    false
}

// Whether kinds with these letters can come at the place.
fn can_come(alloc: Global, text: &[u8], at: usize, letters: &[u8]) -> bool {
    match expected_kinds(alloc, text, at, &ASKED) {
        Ok(Some(kinds)) => have_letters(&kinds, letters),
        _ => false,
    }
}

// Whether they do in each row.
fn each_can_come(alloc: Global, cases: &[(&str, usize, &str)]) -> bool {
    for (text, at, letters) in cases {
        if !can_come(alloc, text.as_bytes(), *at, letters.as_bytes()) {
            return false;
        }
    }
    true
}

// Whether nothing can come there, since what is before begins no specification.
fn begins_none(alloc: Global, text: &[u8], at: usize) -> bool {
    match expected_kinds(alloc, text, at, &ASKED) {
        Ok(None) => true,
        _ => false,
    }
}

#[test]
fn kinds_that_can_come_are_found(rt: HostRuntime) {
    assert!(rt; each_can_come(rt.alloc(), &CASES));
}

#[test]
fn nothing_can_come_after_what_begins_no_specification(rt: HostRuntime) {
    assert!(rt; begins_none(rt.alloc(), b"format 1; host ; x", 18));
}
