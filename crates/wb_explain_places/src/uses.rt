//! Where is a name in a text, as a word of its own?
//!
//! Comments and strings are looked through as well.

ghost use Rattle.std.specs.Prelude.{◌≡◌, ◌≤◌, ◌<◌, true, length, IfSome};
ghost use Rattle.wb_base.specs.Identifiers.{is_name_byte};
ghost use Rattle.wb_explain_places.specs.Uses.{BeginsName, EndsName, IsUse};

use wb_text_parts::word;

/// The first place from this one on at which the name is, and is no part of a longer one.
pub fn next_use(text: &[u8], name: &[u8], from: usize) -> Option<usize>
    ensures within { IfSome result (λ at. (from ≤ at) × (at < length text.now)) }
    ensures is { IfSome result (IsUse text.now name.now) }
{
    let mut at = from;
    while at < text.len() {
        if is_use(text, name, at) {
            return Some(at);
        }
        at += 1;
    }
    None
}

// Whether the name is at this place, as a word of its own.
fn is_use(text: &[u8], name: &[u8], at: usize) -> bool
    requires { at < length text.now }
    ensures { result ≡ true → IsUse text.now name.now at }
{
    if !begins_name(text, at) {
        return false;
    }
    match word(&text[at..], name) {
        Ok(after) => ends_name(after),
        Err(_) => false,
    }
}

// Whether a name can begin at this place: what is before it is no part of one.
fn begins_name(text: &[u8], at: usize) -> bool
    requires { at < length text.now }
    ensures { result ≡ true → BeginsName text.now at }
{
    if at == 0 {
        return true;
    }
    !is_name_byte(text[at - 1])
}

// Whether a name can end before this.
fn ends_name(after: &[u8]) -> bool
    ensures { result ≡ true → EndsName after.now }
{
    if after.len() == 0 {
        return true;
    }
    !is_name_byte(after[0])
}

// Whether the byte is a letter, a digit or `_`.
fn is_name_byte(byte: u8) -> bool
    ensures { result ≡ is_name_byte byte }
{
    byte.is_ascii_alphabetic() || byte == b'_' || byte.is_ascii_digit()
}
