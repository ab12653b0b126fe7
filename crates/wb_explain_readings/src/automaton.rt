//! Which state comes after a symbol? The states of the LR(0) automaton are made as they are asked for.
//!
//! A search looks at few of them, so they aren't those of `wb_items`, which are all made and have their laws.

use crate::symbols::{left_of, symbol_at};
use std::alloc::{AllocError, Global};
use wb_base::{Grammar, Symbol};

// A production with a dot before one of its symbols, or at the end.
#[derive(Clone, Copy)]
pub(crate) struct Dotted {
    pub(crate) production: usize,
    pub(crate) dot: usize,
}

// Where the items of a state are, the first of which are its kernel, and its first move.
#[derive(Clone, Copy)]
struct State {
    from: usize,
    kernel_end: usize,
    end: usize,
    moves: usize,
}

// A symbol after a dot of a state, the state after it, and the next move. The largest number stands for none.
#[derive(Clone, Copy)]
pub(crate) struct Move {
    pub(crate) symbol: Symbol,
    to: usize,
    pub(crate) next: usize,
}

// The states that were made.
#[derive(Drop)]
pub(crate) struct Automaton {
    items: Vec<Dotted>,
    states: Vec<State>,
    moves: Vec<Move>,
    is_open: Vec<bool>,
}

// The most items of all states.
const MOST_ITEMS: usize = 1_000_000;

// The most moves of a state.
const MOST_MOVES: usize = 100_000;

impl Automaton {
    // No states.
    pub(crate) fn new(alloc: Global) -> Automaton {
        Automaton {
            items: Vec::new(alloc),
            states: Vec::new(alloc),
            moves: Vec::new(alloc),
            is_open: Vec::new(alloc),
        }
    }

    // Makes the first state, which is number 0.
    pub(crate) fn begin(&mut self, grammar: &Grammar) -> Result<(), AllocError> {
        'nonterminals: for _ in 0..grammar.nonterminals() {
            self.is_open.push(false)?;
        }
        self.items.push(Dotted {
            production: grammar.productions(),
            dot: 0,
        })?;
        self.close(grammar, 0)
    }

    // How many items a state has.
    pub(crate) fn count(&self, state: usize) -> usize {
        match self.states.get(state) {
            Some(found) => found.end.saturating_sub(found.from),
            None => 0,
        }
    }

    // An item of a state.
    pub(crate) fn item(&self, state: usize, place: usize) -> Option<Dotted> {
        match self.states.get(state) {
            Some(found) => self.items.get(found.from.saturating_add(place)).copied(),
            None => None,
        }
    }

    // The place of an item of a state among all items.
    pub(crate) fn index(&self, state: usize, place: usize) -> usize {
        match self.states.get(state) {
            Some(found) => found.from.saturating_add(place),
            None => usize::MAX,
        }
    }

    // The first move of a state.
    pub(crate) fn first_move(&self, state: usize) -> usize {
        match self.states.get(state) {
            Some(found) => found.moves,
            None => usize::MAX,
        }
    }

    // A move.
    pub(crate) fn move_at(&self, place: usize) -> Option<Move> {
        self.moves.get(place).copied()
    }

    // The place of a state's move over a symbol.
    pub(crate) fn move_over(&self, state: usize, symbol: Symbol) -> Option<usize> {
        let mut place = self.first_move(state);
        'moves: for _ in 0..MOST_MOVES {
            match self.moves.get(place) {
                Some(found) => {
                    if found.symbol == symbol {
                        return Some(place);
                    }
                    place = found.next;
                }
                None => return None,
            }
        }
        None
    }

    // The state after a symbol.
    pub(crate) fn after(
        &mut self,
        grammar: &Grammar,
        state: usize,
        symbol: Symbol,
    ) -> Result<Option<usize>, AllocError> {
        let Some(place) = self.move_over(state, symbol) else {
            return Ok(None);
        };
        if let Some(found) = self.moves.get(place) {
            if found.to < self.states.len() {
                return Ok(Some(found.to));
            }
        }
        if self.items.len() > MOST_ITEMS {
            return Ok(None);
        }
        let to = self.made_after(grammar, state, symbol)?;
        if place < self.moves.len() {
            self.moves[place].to = to;
        }
        Ok(Some(to))
    }

    // The number of the state after a symbol, which is made where it isn't there.
    fn made_after(
        &mut self,
        grammar: &Grammar,
        state: usize,
        symbol: Symbol,
    ) -> Result<usize, AllocError> {
        let from = self.items.len();
        'items: for place in 0..self.count(state) {
            if let Some(item) = self.item(state, place) {
                if symbol_at(grammar, item.production, item.dot) == Some(symbol) {
                    self.items.push(Dotted {
                        production: item.production,
                        dot: item.dot.saturating_add(1),
                    })?;
                }
            }
        }
        if let Some(known) = self.known(from) {
            self.items.truncate(from);
            return Ok(known);
        }
        let number = self.states.len();
        self.close(grammar, from)?;
        Ok(number)
    }

    // The state whose kernel are the last items, from this place on.
    fn known(&self, from: usize) -> Option<usize> {
        'states: for number in 0..self.states.len() {
            if self.has_kernel(number, from) {
                return Some(number);
            }
        }
        None
    }

    // Whether the last items, from this place on, are the kernel of a state.
    fn has_kernel(&self, number: usize, from: usize) -> bool {
        let Some(state) = self.states.get(number) else {
            return false;
        };
        let count = self.items.len().saturating_sub(from);
        if state.kernel_end.saturating_sub(state.from) != count {
            return false;
        }
        'items: for place in from..self.items.len() {
            if !self.is_in_kernel(*state, place) {
                return false;
            }
        }
        true
    }

    // Whether the item at this place is in the kernel of a state.
    fn is_in_kernel(&self, state: State, place: usize) -> bool {
        let Some(item) = self.items.get(place) else {
            return false;
        };
        'items: for other in state.from..state.kernel_end {
            if let Some(known) = self.items.get(other) {
                if known.production == item.production && known.dot == item.dot {
                    return true;
                }
            }
        }
        false
    }

    // Makes a state whose kernel are the last items, from this place on.
    fn close(&mut self, grammar: &Grammar, from: usize) -> Result<(), AllocError> {
        let kernel_end = self.items.len();
        'flags: for place in 0..self.is_open.len() {
            if place < self.is_open.len() {
                self.is_open[place] = false;
            }
        }
        'items: for place in from..MOST_ITEMS.saturating_mul(2) {
            let Some(item) = self.items.get(place).copied() else {
                break;
            };
            if let Some(Symbol::Nonterminal(next)) = symbol_at(grammar, item.production, item.dot) {
                self.open(grammar, next)?;
            }
        }
        self.states.push(State {
            from,
            kernel_end,
            end: self.items.len(),
            moves: usize::MAX,
        })?;
        self.add_moves(grammar, from)
    }

    // Adds the initial items of a nonterminal, where they aren't there.
    fn open(&mut self, grammar: &Grammar, nonterminal: usize) -> Result<(), AllocError> {
        if nonterminal >= self.is_open.len() {
            return Ok(());
        }
        if self.is_open[nonterminal] {
            return Ok(());
        }
        self.is_open[nonterminal] = true;
        'productions: for production in 0..grammar.productions() {
            if left_of(grammar, production) == nonterminal {
                self.items.push(Dotted { production, dot: 0 })?;
            }
        }
        Ok(())
    }

    // Gives the last state a move for each symbol after a dot.
    fn add_moves(&mut self, grammar: &Grammar, from: usize) -> Result<(), AllocError> {
        let state = self.states.len().saturating_sub(1);
        'items: for place in from..self.items.len() {
            if let Some(item) = self.items.get(place).copied() {
                if let Some(symbol) = symbol_at(grammar, item.production, item.dot) {
                    self.add_move(state, symbol)?;
                }
            }
        }
        Ok(())
    }

    // Gives a state a move over a symbol, where it has none.
    fn add_move(&mut self, state: usize, symbol: Symbol) -> Result<(), AllocError> {
        if self.move_over(state, symbol).is_some() {
            return Ok(());
        }
        let place = self.moves.len();
        let next = self.first_move(state);
        self.moves.push(Move {
            symbol,
            to: usize::MAX,
            next,
        })?;
        if state < self.states.len() {
            self.states[state].moves = place;
        }
        Ok(())
    }
}
