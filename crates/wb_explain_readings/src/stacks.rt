//! Stacks of states that share what is below.

use crate::automaton::{Automaton, Dotted, Move};
use crate::symbols::{left_of, length_of};
use std::alloc::{AllocError, Global};
use wb_base::{Grammar, Symbol};

// A state on top of a stack, and the place of what is below.
#[derive(Clone, Copy)]
struct Cell {
    state: usize,
    below: usize,
}

// Stacks over the states of a grammar. A stack is the place of its top; the stack at place 0 has the first state alone.
#[derive(Drop)]
pub(crate) struct Stacks<'a> {
    pub(crate) grammar: &'a Grammar,
    pub(crate) automaton: Automaton,
    cells: Vec<Cell>,
}

// The most states of a stack that are looked at.
const DEEPEST: usize = 10_000;

impl<'a> Stacks<'a> {
    // No stacks.
    pub(crate) fn new(alloc: Global, grammar: &'a Grammar) -> Stacks<'a> {
        Stacks {
            grammar,
            automaton: Automaton::new(alloc),
            cells: Vec::new(alloc),
        }
    }

    // Makes the first stack.
    pub(crate) fn begin(&mut self) -> Result<(), AllocError> {
        self.automaton.begin(self.grammar)?;
        self.cells.push(Cell { state: 0, below: 0 })?;
        Ok(())
    }

    // The state on top.
    pub(crate) fn state(&self, stack: usize) -> usize {
        match self.cells.get(stack) {
            Some(cell) => cell.state,
            None => usize::MAX,
        }
    }

    // How many items the state on top has.
    pub(crate) fn count(&self, stack: usize) -> usize {
        self.automaton.count(self.state(stack))
    }

    // An item of the state on top.
    pub(crate) fn item(&self, stack: usize, place: usize) -> Option<Dotted> {
        self.automaton.item(self.state(stack), place)
    }

    // The first move of the state on top.
    pub(crate) fn first_move(&self, stack: usize) -> usize {
        self.automaton.first_move(self.state(stack))
    }

    // A move.
    pub(crate) fn move_at(&self, place: usize) -> Option<Move> {
        self.automaton.move_at(place)
    }

    // Whether the state on top has a move over a symbol.
    pub(crate) fn has_move(&self, stack: usize, symbol: Symbol) -> bool {
        self.automaton
            .move_over(self.state(stack), symbol)
            .is_some()
    }

    // What is below so many states.
    pub(crate) fn below(&self, stack: usize, count: usize) -> usize {
        let mut place = stack;
        'cells: for _ in 0..count {
            match self.cells.get(place) {
                Some(cell) => place = cell.below,
                None => return usize::MAX,
            }
        }
        place
    }

    // The stack with the state after a symbol on top.
    pub(crate) fn pushed(
        &mut self,
        stack: usize,
        symbol: Symbol,
    ) -> Result<Option<usize>, AllocError> {
        let state = self.state(stack);
        let Some(next) = self.automaton.after(self.grammar, state, symbol)? else {
            return Ok(None);
        };
        let place = self.cells.len();
        self.cells.push(Cell {
            state: next,
            below: stack,
        })?;
        Ok(Some(place))
    }

    // The stack after a reduction.
    pub(crate) fn reduced(
        &mut self,
        stack: usize,
        production: usize,
    ) -> Result<Option<usize>, AllocError> {
        let below = self.below(stack, length_of(self.grammar, production));
        let left = left_of(self.grammar, production);
        self.pushed(below, Symbol::Nonterminal(left))
    }

    // Whether two stacks have the same states.
    pub(crate) fn are_equal(&self, one: usize, other: usize) -> bool {
        let mut left = one;
        let mut right = other;
        'cells: for _ in 0..DEEPEST {
            if left == right {
                return true;
            }
            let Some(first) = self.cells.get(left) else {
                return false;
            };
            let Some(second) = self.cells.get(right) else {
                return false;
            };
            if first.state != second.state || left == 0 || right == 0 {
                return false;
            }
            left = first.below;
            right = second.below;
        }
        false
    }
}
