//! What does a line of a report show?

ghost use Rattle.std.specs.Prelude.{◌≡◌, ◌<◌, ◌++◌, length, IfSome};
ghost use lib.Chars.{codes};
ghost use Rattle.wb_explain_lines.specs.Lines.{IsRefusedLine, ShowsNumber};
ghost use Rattle.wb_explain_lines.specs.Inner.Parts.{AreRefusedParts};

use wb_text_parts::{number, word};

/// What the line of a refusal shows, by its parts.
#[derive(Clone, Copy)]
pub struct Refused<'l> {
    /// The word that names the file.
    pub file: &'l str,
    /// The code: a letter and a digit.
    pub code: &'l [u8],
    /// What is after the code, with the line feed.
    pub rest: &'l [u8],
}

/// The parts of the line of a refusal, where it is one: the file is named by the first word that fits.
#[tactic(auto, using(crate::proofs::LineLemmas::refused_line))]
pub fn refused_of<'l>(line: &'l [u8], words: &'l [String]) -> Option<Refused<'l>>
    ensures { IfSome result (λ refused. IsRefusedLine line.now refused.file.now refused.code.now refused.rest.now) }
{
    match word(line, b"refused ") {
        Ok(after) => refused_by(after, words),
        Err(_) => None,
    }
}

// The same of what is after the first word of the line.
fn refused_by<'l>(text: &'l [u8], words: &'l [String]) -> Option<Refused<'l>>
    ensures { IfSome result (λ refused. AreRefusedParts text.now refused.file.now refused.code.now refused.rest.now) }
{
    for name in words {
        let file = name.as_str();
        match code_after(text, file) {
            Some(found) => {
                return Some(Refused {
                    file,
                    code: found.0,
                    rest: found.1,
                });
            }
            None => continue,
        }
    }
    None
}

// The code after the name of a file, and what is after that.
#[tactic(auto, using(crate::proofs::LineLemmas::refused_parts))]
fn code_after<'l>(text: &'l [u8], name: &str) -> Option<(&'l [u8], &'l [u8])>
    ensures { IfSome result (λ found. AreRefusedParts text.now name.now found.0.now found.1.now) }
{
    match word(text, name.as_bytes()) {
        Ok(after) => match word(after, b" ") {
            Ok(last) => code_at(last),
            Err(_) => None,
        },
        Err(_) => None,
    }
}

// The code at the beginning, and what is after that.
fn code_at(text: &[u8]) -> Option<(&[u8], &[u8])>
    ensures { IfSome result (λ found. (text.now ≡ found.0.now ++ found.1.now) × (length found.0.now ≡ 2)) }
{
    if text.len() < 3 {
        return None;
    }
    let (code, rest) = text.split_at(2);
    if is_code(code[0], code[1], rest[0]) {
        return Some((code, rest));
    }
    None
}

// Whether these are a code and what can be after it.
fn is_code(letter: u8, digit: u8, after: u8) -> bool {
    letter.is_ascii_uppercase() && digit.is_ascii_digit() && (after == b' ' || after == b'\n')
}

/// The file and the name of its host, in the line of an extension for another host.
pub fn other_host_of<'l>(line: &'l [u8], words: &'l [String]) -> Option<(&'l str, &'l [u8])> {
    match word(line, b"wrong host ") {
        Ok(after) => other_host_by(after, words),
        Err(_) => None,
    }
}

// The same of what is after the first words of the line.
fn other_host_by<'l>(text: &'l [u8], words: &'l [String]) -> Option<(&'l str, &'l [u8])> {
    for name in words {
        let file = name.as_str();
        match host_after(text, file) {
            Some(host) => return Some((file, host)),
            None => continue,
        }
    }
    None
}

// The name of a host after that of a file.
fn host_after<'l>(text: &'l [u8], file: &str) -> Option<&'l [u8]> {
    match word(text, file.as_bytes()) {
        Ok(after) => match word(after, b" names ") {
            Ok(last) => Some(first_part(last)),
            Err(_) => None,
        },
        Err(_) => None,
    }
}

/// The place after a code, and what is after that.
pub fn offset_in(rest: &[u8]) -> Option<(usize, &[u8])>
    ensures { IfSome result (λ found. ShowsNumber (codes " at ") 10 rest.now found.0 found.1.now) }
{
    number_after(rest, b" at ", b'\n')
}

// Where a text stops, and what is after that place in the line.
pub(crate) fn stopped_in(line: &[u8]) -> Option<(usize, &[u8])>
    ensures { IfSome result (λ found. ShowsNumber (codes "stopped at ") 32 line.now found.0 found.1.now) }
{
    number_after(line, b"stopped at ", b' ')
}

// The line of which the line of a refusal speaks, and what is after its number.
pub(crate) fn line_in(rest: &[u8]) -> Option<(usize, &[u8])>
    ensures { IfSome result (λ found. ShowsNumber (codes " line ") 10 rest.now found.0 found.1.now) }
{
    number_after(rest, b" line ", b'\n')
}

// The number between these bytes and this one, and what is after that.
#[tactic(auto, using(crate::proofs::LineLemmas::shown_number))]
fn number_after<'l>(text: &'l [u8], before: &[u8], end: u8) -> Option<(usize, &'l [u8])>
    requires { end < 48 }
    ensures { IfSome result (λ found. ShowsNumber before.now end text.now found.0 found.1.now) }
{
    match word(text, before) {
        Ok(after) => match number(after, end) {
            Ok(found) => Some(found),
            Err(_) => None,
        },
        Err(_) => None,
    }
}

// The code of a fault, which is the last part of its line.
pub(crate) fn fault_code(line: &[u8]) -> Option<&[u8]> {
    let Ok(after) = word(line, b"fault ") else {
        return None;
    };
    let space = place_of(after, b' ')?;
    Some(first_part(&after[space + 1..]))
}

// What is before the first space or line feed.
fn first_part(text: &[u8]) -> &[u8] {
    let part = match place_of(text, b' ') {
        Some(place) => &text[..place],
        None => text,
    };
    match place_of(part, b'\n') {
        Some(place) => &part[..place],
        None => part,
    }
}

// The first place of a byte.
pub(crate) fn place_of(text: &[u8], byte: u8) -> Option<usize>
    ensures { IfSome result (λ place. place < length text.now) }
{
    for (place, other) in text.iter().enumerate() {
        if *other == byte {
            return Some(place);
        }
    }
    None
}
