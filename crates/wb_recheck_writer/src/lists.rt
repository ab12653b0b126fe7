//! Which lines and entries has the certificate of a grammar?

ghost use Rattle.std.specs.Prelude.{◌≡◌, IfOk, IfSome, MatchOption};
ghost use Rattle.wb_grammar.specs.Facts.{AreFacts};
ghost use Rattle.wb_items.specs.Kernels.{AreKernels};
ghost use Rattle.wb_recheck_writer.specs.Inner.Lines.{AreAllLines};
ghost use Rattle.wb_recheck_writer.specs.Inner.Reached.{IsOutcome};
ghost use Rattle.wb_recheck_writer.specs.Order.{HasMoreEntries, HaveSmallDots, IsWrittenCertificate};

use crate::context::Context;
use crate::entries::entries_of;
use crate::lines::{NumberedLines, numbered_lines};
use std::alloc::{AllocError, Global};
use wb_base::{Grammar, Sequence};
use wb_grammar::Facts;
use wb_items::{Kernels, production_numbers};
use wb_recheck_theory::{Entry, Line};

/// What a certificate lists: a line for each kernel but the first, and an entry for each lookahead.
#[derive(Drop)]
pub struct Lists {
    pub lines: Sequence<Line>,
    pub entries: Sequence<Entry>,
}

/// The certificate of a grammar as it is written, or none, which comes only where it has more than so many entries.
///
/// Kernels have the numbers of their lines, whatever they have in `kernels`. Time goes with the entries, and for each with what follows
/// from it. Memory goes with the entries that are made, at most so many and what follows from one more.
pub fn certificate_lists(
    alloc: Global,
    grammar: &Grammar,
    facts: &Facts,
    kernels: &Kernels,
    most: usize,
) -> Result<Option<Lists>, AllocError>
    requires facts { AreFacts grammar.now facts.now }
    requires kernels { AreKernels kernels.now }
    requires of_grammar { kernels.now.grammar ≡ grammar.now }
    ensures written { IfOk result (λ made. MatchOption made (HasMoreEntries grammar.now most) (λ lists. IsWrittenCertificate grammar.now lists.lines lists.entries)) }
    ensures dots { IfOk result (λ made. IfSome made (λ lists. HaveSmallDots lists.entries)) }
{
    let numbered = numbered_lines(alloc, kernels)?;
    match entries_with(alloc, grammar, facts, kernels, &numbered, most) {
        Ok(Some(entries)) => Ok(Some(Lists {
            lines: lines_in(numbered),
            entries,
        })),
        Ok(None) => {
            drop(numbered);
            Ok(None)
        }
        Err(error) => {
            drop(numbered);
            Err(error)
        }
    }
}

// The lines without the numbers of their kernels.
fn lines_in(numbered: NumberedLines) -> Sequence<Line>
    ensures { result ≡ numbered.lines.items }
{
    let NumberedLines { states, lines } = numbered;
    drop(states);
    Sequence::from_vec(lines)
}

// The entries after these lines, or none where there are too many.
fn entries_with(
    alloc: Global,
    grammar: &Grammar,
    facts: &Facts,
    kernels: &Kernels,
    numbered: &NumberedLines,
    most: usize,
) -> Result<Option<Sequence<Entry>>, AllocError>
    requires facts { AreFacts grammar.now facts.now }
    requires kernels { AreKernels kernels.now }
    requires of_grammar { kernels.now.grammar ≡ grammar.now }
    requires lines { AreAllLines kernels.now numbered.now }
    ensures { IfOk result (IsOutcome grammar.now numbered.now.lines.items most) }
{
    let rules = production_numbers(alloc, grammar)?;
    let context = Context {
        grammar,
        facts,
        rules: &rules,
        kernels,
        numbered,
    };
    let made = entries_of(alloc, &context, most);
    drop(rules);
    made
}
