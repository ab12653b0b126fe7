//! Layout: how far it goes.

ghost use Rattle.std.specs.Prelude.{◌≡◌, ◌≢◌, ◌↔◌, ℕ, ◌+◌, ◌≤◌, ◌<◌, length, slice_index, IsTrue, IfSome, MatchOption};
ghost use Rattle.wb_text_tokens.specs.Skipping.{is_blank, has_comments, HasByte, IsLayoutPiece, SkipsLayout};

use crate::Dialect;

// Whether the byte is space, tab, LF or CR.
fn is_blank(b: u8) -> bool
    ensures { result ≡ is_blank b }
{
    matches!(b, b' ' | b'\t' | b'\n' | b'\r')
}

/// Whether the byte is there.
pub fn has_byte(text: &[u8], at: usize, byte: u8) -> bool
    ensures { IsTrue result ↔ HasByte text.now at byte }
{
    at < text.len() && text[at] == byte
}

// Whether comments may stand between tokens.
fn has_comments(dialect: Dialect) -> bool
    ensures { result ≡ has_comments dialect }
{
    match dialect {
        Dialect::Terms => false,
        Dialect::FormatOne => true,
        Dialect::FormatTwo => true,
    }
}

// Whether two slashes are there.
fn begins_comment(text: &[u8], at: usize) -> bool
    ensures { IsTrue result ↔ (HasByte text.now at 47 × HasByte text.now (at + 1) 47) }
{
    has_byte(text, at, b'/') && has_byte(text, at + 1, b'/')
}

// The place of the first LF from a place on, or the end of the text.
fn line_end(text: &[u8], from: usize) -> usize
    requires { from ≤ length text.now }
    ensures ordered { from ≤ result }
    ensures within { result ≤ length text.now }
    ensures one_line { (place : ℕ) → from ≤ place → place < result
        → slice_index text.now place ≢ 10 }
    ensures ended { result < length text.now → slice_index text.now result ≡ 10 }
{
    let mut at = from;
    while at < text.len() {
        if text[at] == b'\n' {
            return at;
        }
        at += 1;
    }
    at
}

// The place after the piece of layout that begins there.
fn layout_piece(text: &[u8], at: usize, dialect: Dialect) -> Option<usize>
    requires { at ≤ length text.now }
    ensures piece { MatchOption result
        ((behind : ℕ) → ¬ IsLayoutPiece dialect text.now at behind)
        (IsLayoutPiece dialect text.now at) }
    ensures further { IfSome result (λ behind. (at < behind) × (behind ≤ length text.now)) }
{
    if at == text.len() {
        return None;
    }
    if is_blank(text[at]) {
        return Some(at + 1);
    }
    if has_comments(dialect) && begins_comment(text, at) {
        Some(line_end(text, at + 2))
    } else {
        None
    }
}

/// The place after all layout from a place on.
pub fn skip_layout(text: &[u8], from: usize, dialect: Dialect) -> usize
    requires { from ≤ length text.now }
    ensures skipped { SkipsLayout dialect text.now from result }
    ensures ordered { from ≤ result }
    ensures within { result ≤ length text.now }
{
    let mut at = from;
    while let Some(behind) = layout_piece(text, at, dialect) {
        at = behind;
    }
    at
}
