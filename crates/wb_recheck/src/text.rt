//! Which text has the certificate of a grammar that is fit for parsing?

ghost use Rattle.std.specs.Prelude.{◌≡◌, ◌<◌, ◌≤◌, IfOk, IfSome, MatchOption, length};
ghost use Rattle.wb_grammar.specs.Facts.{AreFacts};
ghost use Rattle.wb_recheck.specs.Inner.Fit.{IsFit, IsTextWithin};
ghost use Rattle.wb_recheck_text.specs.Faults.{AreNames, IsTextOf};
ghost use Rattle.wb_recheck_writer.specs.Order.{HasMoreEntries, HaveSmallDots, IsWrittenCertificate};

use std::alloc::{AllocError, Global};
use wb_base::{Bytes, Grammar};
use wb_grammar::{Facts, GrammarRefusal, analyse};
use wb_items::Kernels;
use wb_recheck_text::{Certificate, Head, print_certificate};
use wb_recheck_writer::{Lists, certificate_lists};

// How many bytes the line of an entry has at least: `look 0 0 0 0 -` and its end.
const LEAST_LINE: usize = 15;

// The text of the certificate with this head, or none where it has more bytes than the limit.
pub(crate) fn text_within(
    alloc: Global,
    grammar: &Grammar,
    head: Head,
    limit: usize,
) -> Result<Option<Bytes>, AllocError>
    requires fit { IsFit grammar.now }
    requires names { AreNames head }
    ensures { IfOk result (IsTextWithin grammar.now head limit) }
{
    match lists_of(alloc, grammar, limit / LEAST_LINE) {
        Ok(Some(lists)) => text_of(alloc, grammar, head, lists, limit),
        Ok(None) => {
            drop(head);
            Ok(None)
        }
        Err(error) => {
            drop(head);
            Err(error)
        }
    }
}

// What the certificate of the grammar lists, or none where it has more than so many entries.
fn lists_of(alloc: Global, grammar: &Grammar, most: usize) -> Result<Option<Lists>, AllocError>
    requires { IsFit grammar.now }
    ensures written { IfOk result (λ made. MatchOption made (HasMoreEntries grammar.now most) (λ lists. IsWrittenCertificate grammar.now lists.lines lists.entries)) }
    ensures dots { IfOk result (λ made. IfSome made (λ lists. HaveSmallDots lists.entries)) }
{
    let facts = facts_of(alloc, grammar)?;
    let lists = lists_with(alloc, grammar, &facts, most);
    drop(facts);
    lists
}

// Like `lists_of`, with what an analysis knows.
fn lists_with(
    alloc: Global,
    grammar: &Grammar,
    facts: &Facts,
    most: usize,
) -> Result<Option<Lists>, AllocError>
    requires { AreFacts grammar.now facts.now }
    ensures written { IfOk result (λ made. MatchOption made (HasMoreEntries grammar.now most) (λ lists. IsWrittenCertificate grammar.now lists.lines lists.entries)) }
    ensures dots { IfOk result (λ made. IfSome made (λ lists. HaveSmallDots lists.entries)) }
{
    let kernels = Kernels::build(alloc, grammar, facts)?;
    let lists = certificate_lists(alloc, grammar, facts, &kernels, most);
    drop(kernels);
    lists
}

// What an analysis knows of the grammar.
fn facts_of(alloc: Global, grammar: &Grammar) -> Result<Facts, AllocError>
    requires { IsFit grammar.now }
    ensures { IfOk result (AreFacts grammar.now) }
{
    match analyse(alloc, grammar) {
        Ok(facts) => Ok(facts),
        Err(GrammarRefusal::NoMemory(error)) => Err(error),
        Err(GrammarRefusal::NotReduced(_)) => unreachable!(),
        Err(GrammarRefusal::UnitCycle(_)) => unreachable!(),
        Err(GrammarRefusal::HiddenLeftRecursion(_)) => unreachable!(),
    }
}

// The text with these lists, or none where it has more bytes than the limit.
fn text_of(
    alloc: Global,
    grammar: &Grammar,
    head: Head,
    lists: Lists,
    limit: usize,
) -> Result<Option<Bytes>, AllocError>
    requires names { AreNames head }
    requires written { IsWrittenCertificate grammar.now lists.lines lists.entries }
    requires dots { HaveSmallDots lists.entries }
    ensures { IfOk result (IsTextWithin grammar.now head limit) }
{
    let Lists { lines, entries } = lists;
    let certificate = Certificate {
        head,
        lines,
        entries,
    };
    let text = printed(alloc, grammar, &certificate);
    drop(certificate);
    match text {
        Ok(text) => within(text, limit),
        Err(error) => Err(error),
    }
}

// The text of a certificate of the grammar.
fn printed(
    alloc: Global,
    grammar: &Grammar,
    certificate: &Certificate,
) -> Result<Vec<u8>, AllocError>
    requires names { AreNames certificate.now.head }
    requires written { IsWrittenCertificate grammar.now certificate.now.lines certificate.now.entries }
    requires dots { HaveSmallDots certificate.now.entries }
    ensures { IfOk result (λ text. IsTextOf text.items certificate.now) }
{
    let _productions = grammar.productions();
    let _terminals = grammar.terminals();
    let _nonterminals = grammar.nonterminals();
    let _lines = certificate.lines.as_slice().len();
    let _entries = certificate.entries.as_slice().len();
    let mut text = Vec::new(alloc);
    match print_certificate(&mut text, certificate) {
        Ok(()) => Ok(text),
        Err(error) => {
            drop(text);
            Err(error)
        }
    }
}

// The text, or none where it has more bytes than the limit.
fn within(text: Vec<u8>, limit: usize) -> Result<Option<Bytes>, AllocError>
    ensures { IfOk result (λ made. MatchOption made (limit < length text.items) (λ bytes. (bytes ≡ text.items) × (length text.items ≤ limit))) }
{
    if text.len() > limit {
        drop(text);
        return Ok(None);
    }
    match Bytes::from_vec(text) {
        Ok(bytes) => Ok(Some(bytes)),
        Err(error) => Err(error),
    }
}
