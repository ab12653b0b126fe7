//! Which line of an entry does a text begin with?

ghost use Rattle.std.specs.Prelude.{IfOk, IfErr};
ghost use Rattle.wb_recheck_text.specs.Text.{entry_text, origin_text};
ghost use Rattle.wb_recheck_text.specs.Faults.{IsEntrySmall, IsOriginSmall};
ghost use Rattle.wb_recheck_text.specs.Inner.Parts.{Begins, IsStop, Texts};
ghost use Rattle.wb_recheck_text.specs.Inner.Progress.{IsPairSmall, pair_text};

use crate::numbers::number;
use crate::words::{begins, word};
use wb_grammar_theory::Item;
use wb_recheck_theory::Entry;

// The line at the beginning and what is after it, or the text from the first byte on with which no such line goes on.
#[tactic(auto, using(crate::proofs::EntryLemmas::entry_stopped_word, crate::proofs::EntryLemmas::entry_stopped_first, crate::proofs::EntryLemmas::entry_stopped_second, crate::proofs::EntryLemmas::entry_stopped_origin, crate::proofs::EntryLemmas::entry_read))]
pub(crate) fn entry_line(text: &[u8]) -> Result<(Entry, &[u8]), &[u8]>
    ensures read { IfOk result (λ read. Begins IsEntrySmall entry_text text.now read.0 read.1.now) }
    ensures stopped { IfErr result (λ rest. IsStop (Texts IsEntrySmall entry_text) text.now rest.now) }
{
    let first = match word(text, b"look ") {
        Ok(first) => first,
        Err(stop) => return Err(stop),
    };
    let ((kernel, production), second) = match pair(first) {
        Ok(read) => read,
        Err(stop) => return Err(stop),
    };
    let ((dot, terminal), last) = match pair(second) {
        Ok(read) => read,
        Err(stop) => return Err(stop),
    };
    match origin(last) {
        Ok((origin, next)) => {
            let item = Item { production, dot };
            Ok((
                Entry {
                    kernel,
                    item,
                    terminal,
                    origin,
                },
                next,
            ))
        }
        Err(stop) => Err(stop),
    }
}

// Two numbers with a space after each, likewise.
#[tactic(auto, using(crate::proofs::EntryLemmas::pair_stopped_first, crate::proofs::EntryLemmas::pair_stopped_second, crate::proofs::EntryLemmas::pair_read))]
fn pair(text: &[u8]) -> Result<((usize, usize), &[u8]), &[u8]>
    ensures read { IfOk result (λ read. Begins IsPairSmall pair_text text.now read.0 read.1.now) }
    ensures stopped { IfErr result (λ rest. IsStop (Texts IsPairSmall pair_text) text.now rest.now) }
{
    let (first, after) = match number(text, b' ') {
        Ok(read) => read,
        Err(stop) => return Err(stop),
    };
    match number(after, b' ') {
        Ok((second, next)) => Ok(((first, second), next)),
        Err(stop) => Err(stop),
    }
}

// The origin at the beginning with the end of the line, likewise.
#[tactic(auto, using(crate::proofs::EntryLemmas::none_read, crate::proofs::EntryLemmas::some_read, crate::proofs::EntryLemmas::none_stopped, crate::proofs::EntryLemmas::some_stopped))]
fn origin(text: &[u8]) -> Result<(Option<usize>, &[u8]), &[u8]>
    ensures read { IfOk result (λ read. Begins IsOriginSmall origin_text text.now read.0 read.1.now) }
    ensures stopped { IfErr result (λ rest. IsStop (Texts IsOriginSmall origin_text) text.now rest.now) }
{
    if begins(text, b'-') {
        return match word(text, b"-\n") {
            Ok(next) => Ok((None, next)),
            Err(stop) => Err(stop),
        };
    }
    match number(text, b'\n') {
        Ok((place, next)) => Ok((Some(place), next)),
        Err(stop) => Err(stop),
    }
}
