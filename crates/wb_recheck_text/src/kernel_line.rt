//! Which line of a kernel does a text begin with?

ghost use Rattle.std.specs.Prelude.{IfOk, IfErr};
ghost use Rattle.wb_recheck_text.specs.Text.{line_text, symbol_text};
ghost use Rattle.wb_recheck_text.specs.Faults.{IsLineSmall, IsSymbolSmall};
ghost use Rattle.wb_recheck_text.specs.Inner.Parts.{Begins, IsStop, Texts};

use crate::numbers::number;
use crate::words::{begins, rest, word};
use wb_base::Symbol;
use wb_recheck_theory::Line;

// The line at the beginning and what is after it, or the text from the first byte on with which no such line goes on.
#[tactic(auto, using(crate::proofs::LineLemmas::line_stopped_word, crate::proofs::LineLemmas::line_stopped_from, crate::proofs::LineLemmas::line_stopped_symbol, crate::proofs::LineLemmas::line_read))]
pub(crate) fn kernel_line(text: &[u8]) -> Result<(Line, &[u8]), &[u8]>
    ensures read { IfOk result (λ read. Begins IsLineSmall line_text text.now read.0 read.1.now) }
    ensures stopped { IfErr result (λ rest. IsStop (Texts IsLineSmall line_text) text.now rest.now) }
{
    let after = match word(text, b"kernel ") {
        Ok(after) => after,
        Err(stop) => return Err(stop),
    };
    let (from, last) = match number(after, b' ') {
        Ok(read) => read,
        Err(stop) => return Err(stop),
    };
    match symbol(last) {
        Ok((symbol, next)) => Ok((Line { from, symbol }, next)),
        Err(stop) => Err(stop),
    }
}

// The symbol at the beginning with the end of the line, likewise.
#[tactic(auto, using(crate::proofs::LineLemmas::terminal_read, crate::proofs::LineLemmas::nonterminal_read, crate::proofs::LineLemmas::terminal_stopped, crate::proofs::LineLemmas::nonterminal_stopped, crate::proofs::LineLemmas::symbol_stopped))]
fn symbol(text: &[u8]) -> Result<(Symbol, &[u8]), &[u8]>
    ensures read { IfOk result (λ read. Begins IsSymbolSmall symbol_text text.now read.0 read.1.now) }
    ensures stopped { IfErr result (λ rest. IsStop (Texts IsSymbolSmall symbol_text) text.now rest.now) }
{
    if begins(text, b't') {
        return match number(rest(text, 1), b'\n') {
            Ok((terminal, next)) => Ok((Symbol::Terminal(terminal), next)),
            Err(stop) => Err(stop),
        };
    }
    if begins(text, b'n') {
        return match number(rest(text, 1), b'\n') {
            Ok((nonterminal, next)) => Ok((Symbol::Nonterminal(nonterminal), next)),
            Err(stop) => Err(stop),
        };
    }
    Err(text)
}
