//! What do the symbols after each place of a right side begin with? Found once for each production.

ghost use Rattle.std.specs.Prelude.{◌≡◌, ◌+◌, ◌<◌, [], All, Some, IfOk, length, drop, slice_get};
ghost use Rattle.wb_base.specs.Grammar.{IsSymbolBelow};
ghost use Rattle.wb_grammar.specs.Facts.{AreFacts};
ghost use Rattle.wb_determinism_lookaheads.specs.Inner.Rests.{AreRests, AreRestsOf, IsRest};

use std::alloc::{AllocError, Global};
use wb_base::{Grammar, Sequence, Symbol, push};
use wb_grammar::Facts;
use wb_termset::TermSet;

// The terminals that begin what symbols derive, and whether these derive the empty text.
#[derive(Drop)]
pub(crate) struct Rest {
    pub(crate) set: TermSet,
    pub(crate) empty: bool,
}

// For each production and each place of its right side, what the symbols after that place begin with.
pub(crate) fn rests_of(
    alloc: Global,
    grammar: &Grammar,
    facts: &Facts,
) -> Result<Vec<Sequence<Rest>>, AllocError>
    requires { AreFacts grammar.now facts.now }
    ensures { IfOk result (λ rests. AreRests grammar.now rests.items) }
{
    let mut rests = Vec::new(alloc);
    'productions: for production in 0..grammar.productions() {
        push(
            &mut rests,
            rests_in(alloc, grammar, facts, grammar.right(production))?,
        )?;
    }
    Ok(rests)
}

// Like `rests_of`, for one right side.
fn rests_in(
    alloc: Global,
    grammar: &Grammar,
    facts: &Facts,
    right: &[Symbol],
) -> Result<Sequence<Rest>, AllocError>
    requires facts { AreFacts grammar.now facts.now }
    requires right { All (IsSymbolBelow grammar.now.terminals grammar.now.nonterminals) right.now }
    ensures { IfOk result (λ row. AreRestsOf grammar.now right.now row) }
{
    let mut row = Vec::new(alloc);
    'places: for place in 0..right.len() {
        let rest = first_of(alloc, grammar, facts, &right[place + 1..])?;
        push(&mut row, rest)?;
    }
    Ok(Sequence::from_vec(row))
}

// What the symbols begin with.
fn first_of(
    alloc: Global,
    grammar: &Grammar,
    facts: &Facts,
    symbols: &[Symbol],
) -> Result<Rest, AllocError>
    requires facts { AreFacts grammar.now facts.now }
    requires symbols { All (IsSymbolBelow grammar.now.terminals grammar.now.nonterminals) symbols.now }
    ensures { IfOk result (IsRest grammar.now symbols.now) }
{
    let mut set = TermSet::new(alloc, grammar.lookahead_count()?)?;
    'symbols: for symbol in symbols {
        match *symbol {
            Symbol::Terminal(terminal) => {
                set.insert(terminal);
                return Ok(Rest { set, empty: false });
            }
            Symbol::Nonterminal(nonterminal) => {
                set.union_with(facts.first(nonterminal));
                if !facts.nullable(nonterminal) {
                    return Ok(Rest { set, empty: false });
                }
            }
        }
    }
    Ok(Rest { set, empty: true })
}
