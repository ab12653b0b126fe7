//! To which line's kernel does a symbol lead?

ghost use Rattle.std.specs.Prelude.{◌<◌};
ghost use Rattle.wb_recheck_theory.specs.Lines.{HasMove, IsMoveOf, kernel_count};
ghost use Rattle.wb_recheck_writer.specs.Inner.Reached.{IsContext, grammar_of, lines_of};

use crate::context::Context;
use wb_base::Symbol;

// The kernel that is the move of a kernel by the symbol.
pub(crate) fn moved(context: &Context, kernel: usize, symbol: Symbol) -> usize
    requires context { IsContext context.now }
    requires kernel { kernel < kernel_count (lines_of context.now) }
    requires moves { HasMove (grammar_of context.now) (lines_of context.now) kernel symbol }
    ensures within { result < kernel_count (lines_of context.now) }
    ensures is { IsMoveOf (grammar_of context.now) (lines_of context.now) kernel symbol result }
{
    let states = &context.numbered.states;
    let Some(next) = context.kernels.next(states.state(kernel), symbol) else {
        unreachable!()
    };
    let Some(place) = states.place(next) else {
        unreachable!()
    };
    place
}
