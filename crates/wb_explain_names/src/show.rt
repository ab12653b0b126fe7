//! How is shown what is to be said?
//!
//! A caret in words is shown as a question mark, so that each caret is under a place of the name.

ghost use Rattle.std.specs.Prelude.{◌≡◌, ◌≤◌, ◌++◌, ◌∷◌, [], ℕ, List, true, length, map, slice_range, IfSome, OnOk};
ghost use Rattle.wb_text_tokens.specs.declared.kind.TokenKind.TheVariants.{Name as NameKind};
ghost use Rattle.wb_explain_places.specs.Place.{Shows};
ghost use Rattle.wb_explain_names.specs.Said.{Says, SaysWords, without_caret};
ghost use Rattle.wb_explain_names.specs.Inner.Shown.{AreOf, IsNameToken, IsTokenOf, MayShow};

use std::alloc::AllocError;
use wb_explain_names_roles::script::Shown;
use wb_explain_names_roles::side::{Side, Sides};
use wb_explain_places::push_place;
use wb_reader_places::TokenPlace;
use wb_text_tokens::TokenKind;

// Appends words and the places between them.
pub(crate) fn push_script(
    out: &mut Vec<u8>,
    sides: &Sides<'_>,
    words: &[u8],
    places: &[Shown],
) -> Result<(), AllocError>
    requires own { AreOf sides.now.own.text.now sides.now.own.tokens.now }
    requires host { AreOf sides.now.host.text.now sides.now.host.tokens.now }
    ensures { OnOk result (Says sides.now.own.file.now sides.now.own.text.now sides.now.host.file.now sides.now.host.text.now
        sides.now.name.now out.old.items out.new.items) }
{
    let mut from = 0;
    'places: for shown in places {
        push_words(out, part_of(words, from, shown.after))?;
        push_one(out, sides, shown.is_host, shown.token)?;
        from = shown.after;
    }
    push_words(out, part_of(words, from, words.len()))?;
    Ok(())
}

// The bytes between two places, or none.
fn part_of(words: &[u8], from: usize, to: usize) -> &[u8] {
    if from > to || to > words.len() {
        return &[];
    }
    &words[from..to]
}

// Appends the place of a token of one of the files, where it is the name.
fn push_one(
    out: &mut Vec<u8>,
    sides: &Sides<'_>,
    is_host: bool,
    token: usize,
) -> Result<(), AllocError>
    requires own { AreOf sides.now.own.text.now sides.now.own.tokens.now }
    requires host { AreOf sides.now.host.text.now sides.now.host.tokens.now }
    ensures { OnOk result ((first : List ℕ) →
        Says sides.now.own.file.now sides.now.own.text.now sides.now.host.file.now sides.now.host.text.now
        sides.now.name.now first out.old.items →
        Says sides.now.own.file.now sides.now.own.text.now sides.now.host.file.now sides.now.host.text.now
        sides.now.name.now first out.new.items) }
{
    if is_host {
        push_token(out, &sides.host, sides.name, token)?;
        return Ok(());
    }
    push_token(out, &sides.own, sides.name, token)?;
    Ok(())
}

// Appends the place of a token of a file, where it is the name.
fn push_token(
    out: &mut Vec<u8>,
    side: &Side<'_>,
    name: &[u8],
    number: usize,
) -> Result<(), AllocError>
    requires { AreOf side.now.text.now side.now.tokens.now }
    ensures { OnOk result (MayShow side.now.file.now side.now.text.now name.now out.old.items out.new.items) }
{
    match token_in(side.text, side.tokens, number) {
        Some(place) => push_if_name(out, side, name, place),
        None => Ok(()),
    }
}

// The token of this number.
fn token_in(text: &[u8], tokens: &[TokenPlace], number: usize) -> Option<TokenPlace>
    requires { AreOf text.now tokens.now }
    ensures { IfSome result (IsTokenOf text.now) }
{
    if number < tokens.len() {
        return Some(tokens[number]);
    }
    None
}

// Appends the place of a token, where it is the name.
fn push_if_name(
    out: &mut Vec<u8>,
    side: &Side<'_>,
    name: &[u8],
    place: TokenPlace,
) -> Result<(), AllocError>
    requires { IsTokenOf side.now.text.now place }
    ensures { OnOk result (MayShow side.now.file.now side.now.text.now name.now out.old.items out.new.items) }
{
    if is_name(side.text, name, place) {
        push_at(out, side.file, side.text, place.at)?;
        return Ok(());
    }
    Ok(())
}

// Appends an empty line, and a place.
fn push_at(out: &mut Vec<u8>, file: &[u8], text: &[u8], at: usize) -> Result<(), AllocError>
    requires { at ≤ length text.now }
    ensures { OnOk result (Shows file.now text.now at (out.old.items ++ 10 ∷ []) out.new.items) }
{
    out.push(b'\n')?;
    push_place(out, file, text, at)?;
    Ok(())
}

// Whether a token is the name.
fn is_name(text: &[u8], name: &[u8], place: TokenPlace) -> bool
    ensures { result ≡ true → IsNameToken text.now name.now place }
{
    if !is_name_kind(place.kind) {
        return false;
    }
    reads(text, name, place.at, place.end)
}

// Whether it is a name at all.
fn is_name_kind(kind: TokenKind) -> bool
    ensures { result ≡ true → kind ≡ NameKind }
{
    match kind {
        TokenKind::Name => true,
        _ => false,
    }
}

// Whether the bytes between two places are the name.
fn reads(text: &[u8], name: &[u8], at: usize, end: usize) -> bool
    ensures { result ≡ true → (at ≤ length text.now) × (slice_range text.now at end ≡ name.now) }
{
    if at > end || end > text.len() {
        return false;
    }
    &text[at..end] == name
}

// Appends words.
fn push_words(out: &mut Vec<u8>, words: &[u8]) -> Result<(), AllocError>
    ensures { OnOk result (SaysWords out.old.items out.new.items) }
{
    push_without_carets(out, words)?;
    Ok(())
}

// Appends bytes without carets.
fn push_without_carets(out: &mut Vec<u8>, words: &[u8]) -> Result<(), AllocError>
    ensures { OnOk result (out.new.items ≡ out.old.items ++ map without_caret words.now) }
{
    'bytes: for byte in words {
        out.push(without_caret(*byte))?;
    }
    Ok(())
}

// The byte, or a question mark in the place of a caret.
fn without_caret(byte: u8) -> u8
    ensures { result ≡ without_caret byte }
{
    if byte == b'^' {
        return b'?';
    }
    byte
}
