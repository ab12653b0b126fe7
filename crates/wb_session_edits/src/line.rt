//! Which line of a list of edits does a text begin with?

ghost use Rattle.std.specs.Prelude.{◌≡◌, ◌<◌, ◌∷◌, ℕ, List, IfOk, IfErr, OnOk, length};
ghost use Rattle.wb_text_parts.specs.Parts.{Begins, IsStop, Texts};
ghost use Rattle.wb_session_edits.specs.Inner.Strings.{BeginsString};
ghost use Rattle.wb_session_edits.specs.Inner.Progress.{ArePlacesSmall, BeginsLine, Endings, HaltsIn, Lines, places_text};

use crate::Edit;
use crate::string::string;
use std::alloc::{AllocError, Global};
use wb_base::Bytes;
use wb_text_parts::{number, word};

// Why a reading halts: what is left begins with the first fault, or memory ran out.
pub(crate) enum Halt<'t> {
    At(&'t [u8]),
    NoMemory(AllocError),
}

// The line at the beginning and what is after it, in the room of these decoded bytes.
#[tactic(auto, using(crate::proofs::LineLemmas::places_stopped, crate::proofs::LineLemmas::ending_halts, crate::proofs::LineLemmas::line_read))]
pub(crate) fn edit_line<'t>(
    alloc: Global,
    text: &'t [u8],
    decoded: &mut Vec<u8>,
) -> Result<(Edit, &'t [u8]), Halt<'t>>
    ensures read { IfOk result (λ read. BeginsLine text.now read.0 read.1.now) }
    ensures halted { IfErr result (HaltsIn Lines text.now) }
{
    match places(text) {
        Ok(((from, to), last)) => match ending(last, decoded) {
            Ok(after) => match Bytes::from_slice(alloc, decoded) {
                Ok(bytes) => Ok((Edit { from, to, bytes }, after)),
                Err(error) => Err(Halt::NoMemory(error)),
            },
            Err(halt) => Err(halt),
        },
        Err(stop) => Err(Halt::At(stop)),
    }
}

// The two places with a space after each, or the text from the first byte on with which no such places go on.
#[tactic(auto, using(crate::proofs::LineLemmas::places_stopped_from, crate::proofs::LineLemmas::places_stopped_to, crate::proofs::LineLemmas::places_read))]
fn places(text: &[u8]) -> Result<((usize, usize), &[u8]), &[u8]>
    ensures read { IfOk result (λ read. Begins ArePlacesSmall places_text text.now read.0 read.1.now) }
    ensures stopped { IfErr result (λ rest. IsStop (Texts ArePlacesSmall places_text) text.now rest.now) }
{
    let (from, after) = match number(text, b' ') {
        Ok(read) => read,
        Err(stop) => return Err(stop),
    };
    match number(after, b' ') {
        Ok((to, next)) => Ok(((from, to), next)),
        Err(stop) => Err(stop),
    }
}

// Decodes the string at the beginning, after which the line ends, and answers what is after that.
#[tactic(auto, using(crate::proofs::LineLemmas::string_halts, crate::proofs::LineLemmas::line_feed_stopped, crate::proofs::LineLemmas::ending_read))]
fn ending<'t>(text: &'t [u8], decoded: &mut Vec<u8>) -> Result<&'t [u8], Halt<'t>>
    ensures read { OnOk result (IfOk result (λ after. BeginsString text.now decoded.new.items (10 ∷ after.now))) }
    ensures halted { IfErr result (HaltsIn Endings text.now) }
{
    match string(text, decoded) {
        Ok(last) => match word(last, b"\n") {
            Ok(after) => Ok(after),
            Err(stop) => Err(Halt::At(stop)),
        },
        Err(halt) => Err(halt),
    }
}
