//! Which numbered value does a file stand for on its base, where each of its names is right?
//!
//! All rows are made empty, filled and lent, so that nothing is owned where memory runs out; then the value takes their lists.

ghost use Rattle.std.specs.Prelude.{◌≡◌, IfOk, IfSome};
ghost use Rattle.wb_syntax_resolved.specs.Resolved.{IsResolved};
ghost use Rattle.wb_names_numbers_theory.specs.Resolves.{Resolves};
ghost use Rattle.wb_names_symbols.specs.Empty.{IsEmpty};
ghost use Rattle.wb_names_symbols.specs.Lent.{lent_file};
ghost use Rattle.wb_names.specs.Inner.Made.{value_with};
ghost use Rattle.wb_names.specs.Inner.Rest.{IsReady};
ghost use Rattle.wb_names.specs.Inner.Unwritten.{IsUnwritten};
ghost use Rattle.wb_names.specs.Inner.Value.{HasGrammar, IsGrammarFor};

use crate::rows::{Written, add_rows, nothing_written};
use std::alloc::{AllocError, Global};
use std::mem::replace;
use wb_base::{Grammar, Sequence};
use wb_names_rows::grammar::grammar_of;
use wb_names_rows::signatures::signatures_of;
use wb_names_symbols::lent::Lent;
use wb_names_symbols::symbols::{Counts, Symbols, fill, no_symbols};
use wb_syntax_resolved::{Attribution, AttributionParts, Resolved, ResolvedParts};
use wb_values::Signatures;

// The numbered value.
pub(crate) fn numbered(alloc: Global, file: &Lent) -> Result<Resolved, AllocError>
    requires { IsReady (lent_file file.now) }
    ensures { IfOk result (Resolves (lent_file file.now)) }
{
    let mut symbols = no_symbols(alloc, file.owner);
    let mut written = nothing_written(alloc);
    let made = numbered_in(alloc, file, &mut symbols, &mut written);
    drop(symbols);
    drop(written);
    made
}

// Like `numbered`, where all rows are to be filled.
fn numbered_in(
    alloc: Global,
    file: &Lent,
    symbols: &mut Symbols,
    written: &mut Written,
) -> Result<Resolved, AllocError>
    requires ready { IsReady (lent_file file.now) }
    requires empty { IsEmpty file.now.owner symbols.old }
    requires nothing { IsUnwritten written.old }
    ensures { IfOk result (Resolves (lent_file file.now)) }
{
    let counts = fill(alloc, file, symbols)?;
    add_rows(alloc, file, symbols, written)?;
    written.grammar = grammar_for(alloc, counts, written)?;
    written.signatures = signatures_of(alloc, file.extensions, &written.productions.concrete)?;
    value(alloc, file, symbols, written)
}

// The grammar, where there is a start.
fn grammar_for(
    alloc: Global,
    counts: Counts,
    written: &Written,
) -> Result<Option<Grammar>, AllocError>
    requires { IfSome written.now.rest.start (HasGrammar counts.scanned counts.of_grammar written.now.concrete written.now.productions.concrete.items) }
    ensures { IfOk result (IsGrammarFor counts.scanned counts.of_grammar written.now.concrete written.now.productions.concrete.items written.now.rest.start) }
{
    match written.rest.start {
        None => Ok(None),
        Some(start) => Ok(Some(grammar_of(
            alloc,
            counts.scanned,
            counts.of_grammar,
            start,
            &written.productions.concrete[..written.concrete],
        )?)),
    }
}

// The value of the rows, whose lists are taken out of them.
fn value(
    alloc: Global,
    file: &Lent,
    symbols: &mut Symbols,
    written: &mut Written,
) -> Result<Resolved, AllocError>
    requires { IsResolved (value_with (lent_file file.now) symbols.old written.old) }
    ensures { IfOk result (λ r. r ≡ value_with (lent_file file.now) symbols.old written.old) }
{
    let extensions = Vec::from_clones(alloc, file.extensions)?;
    let attributes = Attribution::new(
        alloc,
        AttributionParts {
            extensions: Sequence::from_vec(extensions),
            nonterminals: taken(alloc, &mut symbols.nonterminals.of_grammar),
            attributes: taken(alloc, &mut written.rest.plains.attributes),
            occurrences: taken(alloc, &mut written.rest.plains.occurrences),
            productions: taken(alloc, &mut written.productions.concrete),
            signatures: replace(&mut written.signatures, Signatures::new(alloc)),
        },
    )?;
    match file.base.host.copy() {
        Ok(host) => Resolved::new(
            alloc,
            ResolvedParts {
                host,
                grammar: replace(&mut written.grammar, None),
                terminals: taken(alloc, &mut symbols.terminals.scanned),
                preferences: taken(alloc, &mut written.rest.plains.preferences),
                extensible: taken(alloc, &mut written.rest.extensible),
                attributes,
            },
        ),
        Err(error) => {
            drop(attributes);
            Err(error)
        }
    }
}

// What a list has; nothing is left in it.
fn taken<T>(alloc: Global, list: &mut Vec<T>) -> Sequence<T>
    ensures { result ≡ list.old.items }
{
    Sequence::from_vec(replace(list, Vec::new(alloc)))
}
