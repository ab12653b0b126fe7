//! Compares the text of a certificate with a grammar, part by part.

ghost use Rattle.std.specs.Prelude.{◌≡◌, IfErr, IfOk, map};
ghost use Rattle.wb_grammar.specs.Facts.{AreFacts};
ghost use Rattle.wb_items.specs.Kernels.{AreKernels};
ghost use Rattle.wb_items.specs.LookaheadSets.{AreLookaheads};
ghost use Rattle.wb_recheck_entries.specs.Faults.{AreRightEntries};
ghost use Rattle.wb_recheck_entries.specs.Keys.{key_of};
ghost use Rattle.wb_recheck_entries.specs.References.{IsReference};
ghost use Rattle.wb_recheck_theory.specs.Certificates.{IsCertificate};
ghost use Rattle.wb_recheck_theory.specs.Lines.{AreMovesListed};
ghost use Rattle.wb_recheck_entries.specs.Texts.{HasCertificate, IsCertificateOf, IsFault, IsFaultOf, IsHeadOf};
ghost use Rattle.wb_recheck_entries.specs.Inner.Faults.{IsFaultIn};
ghost use Rattle.wb_recheck_entries.specs.Inner.Numbers.{IsLineFault, TellsEntry, TellsLine};

use crate::first_wrong::keys_of_entries;
use crate::gathered::lookaheads_of_entries;
use crate::missing::missing_entry;
use crate::owner::is_head_of;
use crate::{CertificateFault, EntryKeys, EntryRefusal, Owner, Reference};
use std::alloc::{AllocError, Global};
use wb_base::Grammar;
use wb_grammar::Facts;
use wb_items::{Kernels, Lookaheads};
use wb_recheck_lines::{LineRefusal, missing_move, states_of_lines};
use wb_recheck_text::{Certificate, TextRefusal, read_certificate};
use wb_recheck_theory::Entry;

/// The kernels of a grammar, and the lookaheads that a certificate lists.
#[derive(Drop)]
pub struct Looked {
    pub kernels: Kernels,
    pub lookaheads: Lookaheads,
}

/// The kernels of a grammar with these facts and the lookaheads that the text lists, where it is the text of a certificate of the grammar
/// that names the owner.
///
/// No lookahead is looked for, and nothing is trusted. It takes time in the text but for logarithms, and that of finding the kernels; no
/// clause bounds it.
pub fn lookaheads_by_text(
    alloc: Global,
    text: &[u8],
    owner: &Owner,
    grammar: &Grammar,
    facts: &Facts,
) -> Result<Looked, CertificateFault>
    requires { AreFacts grammar.now facts.now }
    ensures kernels { IfOk result (λ looked. looked.kernels.grammar ≡ grammar.now) }
    ensures lookaheads { IfOk result (λ looked. AreLookaheads looked.kernels looked.lookaheads) }
    ensures certificate { IfOk result (λ looked. HasCertificate text.now (IsHeadOf owner.now) grammar.now) }
    ensures refused { IfErr result (IsFault text.now (IsHeadOf owner.now) grammar.now) }
{
    match read_certificate(alloc, text) {
        Ok(certificate) => {
            let answer = looked_by(alloc, &certificate, owner, grammar, facts);
            drop(certificate);
            answer
        }
        Err(TextRefusal::Syntax(place)) => Err(CertificateFault::Syntax(place)),
        Err(TextRefusal::NoMemory(error)) => Err(CertificateFault::NoMemory(error)),
    }
}

// Like `lookaheads_by_text`, where the text is that of this certificate.
fn looked_by(
    alloc: Global,
    certificate: &Certificate,
    owner: &Owner,
    grammar: &Grammar,
    facts: &Facts,
) -> Result<Looked, CertificateFault>
    requires { AreFacts grammar.now facts.now }
    ensures kernels { IfOk result (λ looked. looked.kernels.grammar ≡ grammar.now) }
    ensures lookaheads { IfOk result (λ looked. AreLookaheads looked.kernels looked.lookaheads) }
    ensures certificate { IfOk result (λ looked. IsCertificateOf (IsHeadOf owner.now) grammar.now certificate.now) }
    ensures refused { IfErr result (IsFaultOf (IsHeadOf owner.now) grammar.now certificate.now) }
{
    if !is_head_of(owner, &certificate.head) {
        return Err(CertificateFault::WrongLine(2));
    }
    let kernels = Kernels::build(alloc, grammar, facts)?;
    match lookaheads_by(alloc, certificate, grammar, facts, &kernels) {
        Ok(lookaheads) => Ok(Looked {
            kernels,
            lookaheads,
        }),
        Err(fault) => {
            drop(kernels);
            Err(fault)
        }
    }
}

// The lookaheads that a certificate lists, where its lines and entries are those of a certificate of the grammar.
fn lookaheads_by(
    alloc: Global,
    certificate: &Certificate,
    grammar: &Grammar,
    facts: &Facts,
    kernels: &Kernels,
) -> Result<Lookaheads, CertificateFault>
    requires facts { AreFacts grammar.now facts.now }
    requires of_grammar { kernels.now.grammar ≡ grammar.now }
    requires kernels { AreKernels kernels.now }
    ensures lookaheads { IfOk result (AreLookaheads kernels.now) }
    ensures certificate { IfOk result (λ lookaheads. IsCertificate grammar.now certificate.now.lines certificate.now.entries) }
    ensures refused { IfErr result (IsFaultIn grammar.now certificate.now.lines certificate.now.entries) }
{
    let lines = certificate.lines.as_slice();
    match states_of_lines(alloc, kernels, lines) {
        Ok(found) => {
            let reference = Reference {
                grammar,
                facts,
                kernels,
                lines,
                found: &found,
            };
            let answer = lookaheads_after(alloc, &reference, certificate.entries.as_slice());
            drop(found);
            answer
        }
        Err(refusal) => Err(of_lines(refusal)),
    }
}

// Like `lookaheads_by`, after the lines.
fn lookaheads_after(
    alloc: Global,
    reference: &Reference,
    entries: &[Entry],
) -> Result<Lookaheads, CertificateFault>
    requires { IsReference reference.now }
    ensures lookaheads { IfOk result (AreLookaheads reference.now.kernels.now) }
    ensures certificate { IfOk result (λ lookaheads. IsCertificate reference.now.grammar.now reference.now.lines.now entries.now) }
    ensures refused { IfErr result (IsFaultIn reference.now.grammar.now reference.now.lines.now entries.now) }
{
    match test_listed(alloc, reference, entries) {
        Ok(()) => match lookaheads_of_entries(alloc, reference, entries) {
            Ok(lookaheads) => Ok(lookaheads),
            Err(error) => Err(CertificateFault::NoMemory(error)),
        },
        Err(fault) => Err(fault),
    }
}

// Whether the entries are right, and nothing is missing.
fn test_listed(
    alloc: Global,
    reference: &Reference,
    entries: &[Entry],
) -> Result<(), CertificateFault>
    requires { IsReference reference.now }
    ensures ok { IfOk result (λ done. IsCertificate reference.now.grammar.now reference.now.lines.now entries.now) }
    ensures refused { IfErr result (IsFaultIn reference.now.grammar.now reference.now.lines.now entries.now) }
{
    match keys_of_entries(alloc, reference, entries) {
        Ok(keys) => {
            let answer = test_missing(alloc, reference, entries, &keys);
            drop(keys);
            answer
        }
        Err(refusal) => Err(of_entries(refusal, reference.lines.len())),
    }
}

// Whether nothing is missing, where the entries are right and these are their keys.
fn test_missing(
    alloc: Global,
    reference: &Reference,
    entries: &[Entry],
    keys: &EntryKeys,
) -> Result<(), CertificateFault>
    requires reference { IsReference reference.now }
    requires right { AreRightEntries reference.now.grammar.now reference.now.lines.now entries.now }
    requires keys { keys.now ≡ map key_of entries.now }
    ensures ok { IfOk result (λ done. IsCertificate reference.now.grammar.now reference.now.lines.now entries.now) }
    ensures refused { IfErr result (IsFaultIn reference.now.grammar.now reference.now.lines.now entries.now) }
{
    match missing_move(reference.kernels, reference.found) {
        Some(kernel) => Err(CertificateFault::Missing(kernel)),
        None => test_entries(alloc, reference, entries, keys),
    }
}

// Whether no entry is missing, where no move is.
fn test_entries(
    alloc: Global,
    reference: &Reference,
    entries: &[Entry],
    keys: &EntryKeys,
) -> Result<(), CertificateFault>
    requires reference { IsReference reference.now }
    requires right { AreRightEntries reference.now.grammar.now reference.now.lines.now entries.now }
    requires keys { keys.now ≡ map key_of entries.now }
    requires moves { AreMovesListed reference.now.grammar.now reference.now.lines.now }
    ensures ok { IfOk result (λ done. IsCertificate reference.now.grammar.now reference.now.lines.now entries.now) }
    ensures refused { IfErr result (IsFaultIn reference.now.grammar.now reference.now.lines.now entries.now) }
{
    let found = missing_entry(alloc, reference, entries, keys)?;
    match found {
        Some(kernel) => Err(CertificateFault::Missing(kernel)),
        None => Ok(()),
    }
}

// The fault of lines that are refused.
fn of_lines(refusal: LineRefusal) -> CertificateFault
    ensures { TellsLine refusal result }
{
    match refusal {
        LineRefusal::Wrong(place) => wrong_line(place, 0),
        LineRefusal::NoMemory(error) => CertificateFault::NoMemory(error),
    }
}

// The fault of entries that are refused, behind so many lines.
fn of_entries(refusal: EntryRefusal, lines: usize) -> CertificateFault
    ensures { TellsEntry lines refusal result }
{
    match refusal {
        EntryRefusal::Wrong(place) => wrong_line(place, lines),
        EntryRefusal::NoMemory(error) => CertificateFault::NoMemory(error),
    }
}

// The fault of the line at a place after so many others, of which the first is the third of the text.
fn wrong_line(place: usize, before: usize) -> CertificateFault
    ensures { IsLineFault place before result }
{
    match place.checked_add(before) {
        None => CertificateFault::NoMemory(AllocError),
        Some(sum) => match sum.checked_add(3) {
            None => CertificateFault::NoMemory(AllocError),
            Some(line) => CertificateFault::WrongLine(line),
        },
    }
}
