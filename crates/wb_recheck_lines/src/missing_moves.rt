//! Is each move of the listed kernels listed?

ghost use Rattle.std.specs.Prelude.{◌≡◌, ◌<◌, ℕ, List, MatchBool, MatchOption, Some, Contains, length, slice_get};
ghost use Rattle.wb_base.specs.declared.symbol.Symbol.{Symbol};
ghost use Rattle.wb_items.specs.Kernels.{AreKernels, LeadsTo, count_of, prefix_of};
ghost use Rattle.wb_recheck_theory.specs.declared.line.Line.{Line};
ghost use Rattle.wb_recheck_theory.specs.Lines.{AreGoodLines, AreMovesListed};
ghost use Rattle.wb_recheck_lines.specs.Faults.{LacksMove};
ghost use Rattle.wb_recheck_lines.specs.States.{AreStatesOf};
ghost use Rattle.wb_recheck_lines.specs.Inner.Walks.{AreListedUpTo, AreMovesIn, HasMoveOut};

use crate::LineStates;
use wb_items::{Kernels, Move};

/// The first kernel that has a move which isn't listed, if there is one.
pub fn missing_move(kernels: &Kernels, found: &LineStates) -> Option<usize>
    requires kernels { AreKernels kernels.now }
    requires below { (k s : ℕ) → slice_get found.now.states k ≡ Some s → s < count_of kernels.now }
    ensures { (lines : List Line) → AreGoodLines kernels.now.grammar lines → AreStatesOf kernels.now lines found.now.states → MatchOption result (AreMovesListed kernels.now.grammar lines) (LacksMove kernels.now.grammar lines) }
{
    'places: for place in 0..found.len() {
        if lacks_move(kernels.moves(found.state(place)), found) {
            return Some(place);
        }
    }
    None
}

// Whether one of the moves leads to a kernel that isn't listed.
fn lacks_move(moves: &[Move], found: &LineStates) -> bool
    ensures { MatchBool result (HasMoveOut moves.now found.now.states) (AreMovesIn moves.now found.now.states) }
{
    'moves: for place in 0..moves.len() {
        if found.place(moves[place].state).is_none() {
            return true;
        }
    }
    false
}
