//! Whose certificate does a text say that it is?

ghost use Rattle.std.specs.Prelude.{◌≡◌, ◌≢◌, ◌∷◌, ℕ, List, IfOk, IfErr, drop};
ghost use Rattle.wb_base.specs.Identifiers.{IsName};
ghost use Rattle.wb_recheck_text.specs.Text.{head_text};
ghost use Rattle.wb_recheck_text.specs.Faults.{AreNames};
ghost use Rattle.wb_recheck_text.specs.Inner.Parts.{Begins, IsStop, Texts};
ghost use Rattle.wb_recheck_text.specs.Inner.Progress.{for_text, head_of, top_text};

use crate::Head;
use crate::names::name;
use crate::words::{begins, word};
use std::alloc::{AllocError, Global};
use wb_base::Bytes;

// The names of a head, where they are in the text.
#[derive(Clone, Copy)]
pub(crate) enum HeadWords<'t> {
    Host(&'t [u8]),
    Extension(&'t [u8], &'t [u8]),
}

// The first two lines and what is after them, or the text from the first byte on with which no such lines go on.
#[tactic(auto, using(crate::proofs::HeadLemmas::top_stopped_word, crate::proofs::HeadLemmas::top_stopped_head, crate::proofs::HeadLemmas::top_read))]
pub(crate) fn head(text: &[u8]) -> Result<(HeadWords<'_>, &[u8]), &[u8]>
    ensures read { IfOk result (λ read. Begins AreNames top_text text.now (head_of read.0) read.1.now) }
    ensures stopped { IfErr result (λ rest. IsStop (Texts AreNames top_text) text.now rest.now) }
{
    let line = match word(text, b"certificate 1\n") {
        Ok(line) => line,
        Err(stop) => return Err(stop),
    };
    match head_line(line) {
        Ok((words, next)) => Ok((words, next)),
        Err(stop) => Err(stop),
    }
}

// The second line, likewise.
fn head_line(text: &[u8]) -> Result<(HeadWords<'_>, &[u8]), &[u8]>
    ensures read { IfOk result (λ read. Begins AreNames head_text text.now (head_of read.0) read.1.now) }
    ensures stopped { IfErr result (λ rest. IsStop (Texts AreNames head_text) text.now rest.now) }
{
    if begins(text, b'e') {
        extension(text)
    } else {
        host(text)
    }
}

// The line of a host, likewise.
#[tactic(auto, using(crate::proofs::HeadLemmas::host_stopped_word, crate::proofs::HeadLemmas::host_stopped_name, crate::proofs::HeadLemmas::host_read))]
fn host(text: &[u8]) -> Result<(HeadWords<'_>, &[u8]), &[u8]>
    requires { (after : List ℕ) → text.now ≢ 101 ∷ after }
    ensures read { IfOk result (λ read. Begins AreNames head_text text.now (head_of read.0) read.1.now) }
    ensures stopped { IfErr result (λ rest. IsStop (Texts AreNames head_text) text.now rest.now) }
{
    let after = match word(text, b"host ") {
        Ok(after) => after,
        Err(stop) => return Err(stop),
    };
    match name(after, b'\n') {
        Ok((name, next)) => Ok((HeadWords::Host(name), next)),
        Err(stop) => Err(stop),
    }
}

// The line of an extension, likewise.
#[tactic(auto, using(crate::proofs::HeadLemmas::extension_stopped_word, crate::proofs::HeadLemmas::extension_stopped_name, crate::proofs::HeadLemmas::extension_stopped_host, crate::proofs::HeadLemmas::extension_read))]
fn extension(text: &[u8]) -> Result<(HeadWords<'_>, &[u8]), &[u8]>
    requires { text.now ≡ 101 ∷ drop 1 text.now }
    ensures read { IfOk result (λ read. Begins AreNames head_text text.now (head_of read.0) read.1.now) }
    ensures stopped { IfErr result (λ rest. IsStop (Texts AreNames head_text) text.now rest.now) }
{
    let after = match word(text, b"extension ") {
        Ok(after) => after,
        Err(stop) => return Err(stop),
    };
    let (own, last) = match name(after, b' ') {
        Ok(read) => read,
        Err(stop) => return Err(stop),
    };
    match for_host(last) {
        Ok((host, next)) => Ok((HeadWords::Extension(own, host), next)),
        Err(stop) => Err(stop),
    }
}

// The host of an extension, likewise.
#[tactic(auto, using(crate::proofs::HeadLemmas::for_stopped_word, crate::proofs::HeadLemmas::for_stopped_name, crate::proofs::HeadLemmas::for_read))]
fn for_host(text: &[u8]) -> Result<(&[u8], &[u8]), &[u8]>
    ensures read { IfOk result (λ read. Begins IsName for_text text.now read.0.now read.1.now) }
    ensures stopped { IfErr result (λ rest. IsStop (Texts IsName for_text) text.now rest.now) }
{
    let after = match word(text, b"for ") {
        Ok(after) => after,
        Err(stop) => return Err(stop),
    };
    match name(after, b'\n') {
        Ok((host, next)) => Ok((host, next)),
        Err(stop) => Err(stop),
    }
}

// The head with names of its own.
pub(crate) fn owned(alloc: Global, words: HeadWords) -> Result<Head, AllocError>
    ensures { IfOk result (λ head. head ≡ head_of words.entry) }
{
    match words {
        HeadWords::Host(name) => Ok(Head::Host(Bytes::from_slice(alloc, name)?)),
        HeadWords::Extension(name, host) => {
            let host = Bytes::from_slice(alloc, host)?;
            Ok(Head::Extension(Bytes::from_slice(alloc, name)?, host))
        }
    }
}
