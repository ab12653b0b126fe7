//! Is a text that of a certificate, and of which, or where does it first go wrong?

ghost use Rattle.std.specs.Prelude.{◌≡◌, ◌≢◌, ◌<◌, ◌∷◌, [], ℕ, List, IfOk, IfErr, OnOk, drop, length};
ghost use Rattle.wb_recheck_text.specs.declared.certificate.Certificate.{Certificate};
ghost use Rattle.wb_recheck_text.specs.declared.certificate.Head.{Head};
ghost use Rattle.wb_recheck_text.specs.Faults.{IsRefused, IsTextOf};
ghost use Rattle.wb_recheck_text.specs.Inner.Progress.{HasRead, IsFaultAt, IsHalt, head_of};
ghost use Rattle.wb_recheck_theory.specs.declared.line.Line.{Line};

use crate::entry_line::entry_line;
use crate::head_line::{HeadWords, head, owned};
use crate::kernel_line::kernel_line;
use crate::words::begins;
use crate::{Certificate, TextRefusal};
use std::alloc::{AllocError, Global};
use wb_base::{Sequence, push};
use wb_recheck_theory::{Entry, Line};

// Why a reading halts: what is left begins with the first fault, or memory ran out.
pub(crate) enum Halt<'t> {
    At(&'t [u8]),
    NoMemory(AllocError),
}

/// The certificate whose text this is.
///
/// Lines are ended by LF, and words have one space between them. Numbers are decimal, without leading zeros and below 2^64. A reserved word
/// is no name, and is refused at the byte after it, since a longer name could begin with it. Nothing is read twice.
#[tactic(auto, using(crate::proofs::ProgressLemmas::head_begun, crate::proofs::ProgressLemmas::top_within, crate::proofs::ProgressLemmas::top_place))]
pub fn read_certificate(alloc: Global, text: &[u8]) -> Result<Certificate, TextRefusal>
    ensures ok { IfOk result (IsTextOf text.now) }
    ensures only { IfOk result (λ certificate. (other : Certificate) → IsTextOf text.now other → other ≡ certificate) }
    ensures refused { IfErr result (IsRefused text.now) }
{
    match head(text) {
        Ok((words, body)) => read_body(alloc, text, words, body),
        Err(stop) => Err(TextRefusal::Syntax(text.len() - stop.len())),
    }
}

// The certificate, after its head.
fn read_body(
    alloc: Global,
    text: &[u8],
    words: HeadWords,
    body: &[u8],
) -> Result<Certificate, TextRefusal>
    requires { HasRead text.now body.now (head_of words) [] [] }
    ensures ok { IfOk result (IsTextOf text.now) }
    ensures only { IfOk result (λ certificate. (other : Certificate) → IsTextOf text.now other → other ≡ certificate) }
    ensures refused { IfErr result (IsRefused text.now) }
{
    let mut lines = Vec::new(alloc);
    let mut entries = Vec::new(alloc);
    match read_lists(body, &mut lines, &mut entries) {
        Ok(()) => made(alloc, words, lines, entries),
        Err(halt) => Err(refusal(text, halt)),
    }
}

// The refusal of a text at whose rest a reading halts.
#[tactic(auto, using(crate::proofs::ProgressLemmas::fault_within, crate::proofs::ProgressLemmas::fault_place))]
fn refusal(text: &[u8], halt: Halt) -> TextRefusal
    requires { IsHalt text.now halt }
    ensures { IsRefused text.now result }
{
    match halt {
        Halt::At(rest) => TextRefusal::Syntax(text.len() - rest.len()),
        Halt::NoMemory(error) => TextRefusal::NoMemory(error),
    }
}

// The certificate of a head, lines and entries.
fn made(
    alloc: Global,
    words: HeadWords,
    lines: Vec<Line>,
    entries: Vec<Entry>,
) -> Result<Certificate, TextRefusal>
    ensures ok { IfOk result (λ certificate. certificate ≡ record { head = head_of words.entry; lines = lines.items; entries = entries.items }) }
    ensures err { (text : List ℕ) → IfErr result (IsRefused text) }
{
    let lines = Sequence::from_vec(lines);
    let entries = Sequence::from_vec(entries);
    match owned(alloc, words) {
        Ok(head) => Ok(Certificate {
            head,
            lines,
            entries,
        }),
        Err(error) => Err(TextRefusal::NoMemory(error)),
    }
}

// Reads all lines and then all entries, to the end of the text.
fn read_lists<'t>(
    body: &'t [u8],
    lines: &mut Vec<Line>,
    entries: &mut Vec<Entry>,
) -> Result<(), Halt<'t>>
    requires { entries.old.items ≡ [] }
    ensures read { OnOk result ((text : List ℕ) (head : Head) → HasRead text body.now head lines.old.items [] → HasRead text [] head lines.new.items entries.new.items) }
    ensures halted { IfErr result (λ halt. (text : List ℕ) (head : Head) → HasRead text body.now head lines.old.items [] → IsHalt text halt) }
{
    match read_lines(body, lines) {
        Ok(rest) => read_entries(rest, entries),
        Err(halt) => Err(halt),
    }
}

// Reads lines of kernels as long as there are such.
fn read_lines<'t>(body: &'t [u8], lines: &mut Vec<Line>) -> Result<&'t [u8], Halt<'t>>
    ensures read { OnOk result ((text : List ℕ) (head : Head) → HasRead text body.now head lines.old.items [] → IfOk result (λ rest. HasRead text rest.now head lines.new.items [])) }
    ensures over { IfOk result (λ rest. (after : List ℕ) → rest.now ≢ 107 ∷ after) }
    ensures halted { IfErr result (λ halt. (text : List ℕ) (head : Head) → HasRead text body.now head lines.old.items [] → IsHalt text halt) }
{
    let mut rest = body;
    'lines: while begins(rest, b'k') {
        match read_line(rest, lines) {
            Ok(after) => rest = after,
            Err(halt) => return Err(halt),
        }
    }
    Ok(rest)
}

// Reads the line of a kernel.
fn read_line<'t>(text: &'t [u8], lines: &mut Vec<Line>) -> Result<&'t [u8], Halt<'t>>
    requires { text.now ≡ 107 ∷ drop 1 text.now }
    ensures shorter { IfOk result (λ rest. length rest.now < length text.now) }
    ensures read { OnOk result ((whole : List ℕ) (head : Head) → HasRead whole text.now head lines.old.items [] → IfOk result (λ rest. HasRead whole rest.now head lines.new.items [])) }
    ensures halted { IfErr result (λ halt. (whole : List ℕ) (head : Head) → HasRead whole text.now head lines.old.items [] → IsHalt whole halt) }
{
    match kernel_line(text) {
        Ok((line, after)) => match push(lines, line) {
            Ok(()) => Ok(after),
            Err(error) => Err(Halt::NoMemory(error)),
        },
        Err(stop) => Err(Halt::At(stop)),
    }
}

// Reads lines of entries to the end of the text.
fn read_entries<'t>(body: &'t [u8], entries: &mut Vec<Entry>) -> Result<(), Halt<'t>>
    requires none { entries.old.items ≡ [] }
    requires over { (after : List ℕ) → body.now ≢ 107 ∷ after }
    ensures read { OnOk result ((text : List ℕ) (head : Head) (lines : List Line) → HasRead text body.now head lines [] → HasRead text [] head lines entries.new.items) }
    ensures halted { IfErr result (λ halt. (text : List ℕ) (head : Head) (lines : List Line) → HasRead text body.now head lines [] → IsHalt text halt) }
{
    let mut rest = body;
    'entries: while begins(rest, b'l') {
        match read_entry(rest, entries) {
            Ok(after) => rest = after,
            Err(halt) => return Err(halt),
        }
    }
    match ended(rest) {
        Ok(()) => Ok(()),
        Err(halt) => Err(halt),
    }
}

// Halts unless nothing is left.
fn ended(rest: &[u8]) -> Result<(), Halt<'_>>
    ensures none { IfOk result (λ done. rest.now ≡ []) }
    ensures some { IfErr result (λ halt. rest.now ≢ []) }
    ensures halted { IfErr result (λ halt. (text : List ℕ) → IsFaultAt text rest.now → IsHalt text halt) }
{
    if rest.is_empty() {
        Ok(())
    } else {
        Err(Halt::At(rest))
    }
}

// Reads the line of an entry.
fn read_entry<'t>(text: &'t [u8], entries: &mut Vec<Entry>) -> Result<&'t [u8], Halt<'t>>
    requires { text.now ≡ 108 ∷ drop 1 text.now }
    ensures shorter { IfOk result (λ rest. length rest.now < length text.now) }
    ensures some { OnOk result (entries.new.items ≢ []) }
    ensures read { OnOk result ((whole : List ℕ) (head : Head) (lines : List Line) → HasRead whole text.now head lines entries.old.items → IfOk result (λ rest. HasRead whole rest.now head lines entries.new.items)) }
    ensures halted { IfErr result (λ halt. (whole : List ℕ) (head : Head) (lines : List Line) → HasRead whole text.now head lines entries.old.items → IsHalt whole halt) }
{
    match entry_line(text) {
        Ok((entry, after)) => match push(entries, entry) {
            Ok(()) => Ok(after),
            Err(error) => Err(Halt::NoMemory(error)),
        },
        Err(stop) => Err(Halt::At(stop)),
    }
}
