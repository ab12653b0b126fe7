//! Which name does a text begin with?

ghost use Rattle.std.specs.Prelude.{◌≡◌, ◌≤◌, false, MatchOption, IfOk, IfErr, length, take};
ghost use Rattle.wb_base.specs.Identifiers.{IsName, is_letter, is_name_byte};
ghost use Rattle.wb_recheck_text.specs.Text.{name_then};
ghost use Rattle.wb_recheck_text.specs.Inner.Parts.{Begins, HasNoLetter, IsRun, IsStop, NamesThen};

use crate::reserved::is_reserved;
use crate::words::{begins, rest};

// The name at the beginning, which this byte ends, and what is after that byte; or the text from the first byte on with which no name goes
// on. A reserved word could go on as a longer name, so it is refused at the byte after it.
#[tactic(auto, using(crate::proofs::NameLemmas::name_none, crate::proofs::NameLemmas::name_stopped_byte, crate::proofs::NameLemmas::name_stopped_word, crate::proofs::NameLemmas::name_read))]
pub(crate) fn name(text: &[u8], end: u8) -> Result<(&[u8], &[u8]), &[u8]>
    requires { is_name_byte end ≡ false }
    ensures read { IfOk result (λ read. Begins IsName (name_then end) text.now read.0.now read.1.now) }
    ensures stopped { IfErr result (λ rest. IsStop (NamesThen end) text.now rest.now) }
{
    match identifier(text) {
        None => Err(text),
        Some(at) => {
            let after = rest(text, at);
            if !begins(after, end) {
                return Err(after);
            }
            let name = front(text, at);
            if is_reserved(name) {
                return Err(after);
            }
            Ok((name, rest(after, 1)))
        }
    }
}

// How many bytes the identifier at the beginning has.
#[tactic(auto, using(crate::proofs::NameLemmas::one_letter, crate::proofs::NameLemmas::no_letter, crate::proofs::NameLemmas::identifier_more, crate::proofs::NameLemmas::run_at_byte, crate::proofs::NameLemmas::run_at_end))]
fn identifier(text: &[u8]) -> Option<usize>
    ensures { MatchOption result (HasNoLetter text.now) (λ at. IsRun text.now at) }
{
    if text.is_empty() {
        return None;
    }
    if !is_letter(text[0]) {
        return None;
    }
    let mut at = 1;
    while at < text.len() {
        if !is_name_byte(text[at]) {
            return Some(at);
        }
        at += 1;
    }
    Some(at)
}

// The first bytes.
fn front(text: &[u8], at: usize) -> &[u8]
    requires { at ≤ length text.now }
    ensures { result.now ≡ take at text.now }
{
    &text[..at]
}

// Whether the byte is a letter or `_`.
fn is_letter(b: u8) -> bool
    ensures { result ≡ is_letter b }
{
    b.is_ascii_alphabetic() || b == b'_'
}

// Whether the byte is a letter, a digit or `_`.
fn is_name_byte(b: u8) -> bool
    ensures { result ≡ is_name_byte b }
{
    is_letter(b) || b.is_ascii_digit()
}
