//! Which nonterminals derive the empty text, or some text? The least set that productions generate, with no terminals or with all.
//!
//! Each production waits at the first nonterminal of its right side that isn't in the set, so the worklist takes linear time.

ghost use Rattle.std.specs.Prelude.{◌≡◌, ◌<◌, ◌↔◌, ◌++◌, ◌∷◌, [], false, length, take, replicate, slice_index_or, All, IfOk, OnOk, IsTrue, MatchOption};
ghost use Rattle.wb_grammar.specs.Inner.LeastSets.{Holds, IsKnown, IsLeastSet, IsFirstMissing};
ghost use Rattle.wb_grammar.specs.Inner.Worklists.{state_of, added, IsWorklist, AreSettled, IsPassed, Passes, Advances};

use std::alloc::{AllocError, Global};
use std::marker::Model;
use std::mem::replace;
use wb_base::{Grammar, Symbol, push};
use wb_termset::TermSet;

// The nonterminals that are generated, where terminals may be in right sides or not.
pub(crate) fn least_set(
    alloc: Global,
    grammar: &Grammar,
    terminals: bool,
) -> Result<TermSet, AllocError>
    ensures { IfOk result (IsLeastSet grammar.now terminals) }
{
    let mut worklist = Worklist::new(alloc, grammar.nonterminals())?;
    'productions: for production in 0..grammar.productions() {
        worklist.pass(grammar, terminals, production, 0)?;
    }
    'waiting: while !worklist.waiting.is_empty() {
        worklist.advance(alloc, grammar, terminals)?;
    }
    Ok(worklist.set)
}

/// Productions that wait at a nonterminal, each with the number of symbols of its right side that are passed.
#[derive(Drop)]
pub(crate) struct Stopped {
    list: Vec<(usize, usize)>,
}

impl Model for Stopped {
    ghost use Rattle.std.specs.Prelude.{List, ℕ};

    ghost Value = { List (ℕ × ℕ) };

    ghost view = { λ s. s.list.items };
}

impl Stopped {
    // No production.
    fn new(alloc: Global) -> Stopped
        ensures { result ≡ [] }
    {
        Stopped {
            list: Vec::new(alloc),
        }
    }

    // One production more.
    fn push(&mut self, production: usize, passed: usize) -> Result<(), AllocError>
        ensures { OnOk result (self.new ≡ self.old ++ (production, passed) ∷ []) }
    {
        push(&mut self.list, (production, passed))
    }
}

/// The set so far, its members whose productions still wait, and for each nonterminal the productions that wait at it.
#[derive(Drop)]
pub(crate) struct Worklist {
    pub(crate) set: TermSet,
    pub(crate) waiting: Vec<usize>,
    pub(crate) stopped: Vec<Stopped>,
}

impl Worklist {
    // The empty set, and no production that waits.
    fn new(alloc: Global, nonterminals: usize) -> Result<Worklist, AllocError>
        ensures { IfOk result (λ made. state_of made ≡ record { set = replicate nonterminals false; waiting = []; stopped = replicate nonterminals [] }) }
    {
        let set = TermSet::new(alloc, nonterminals)?;
        let mut stopped = Vec::new(alloc);
        'nonterminals: for _nonterminal in 0..nonterminals {
            push(&mut stopped, Stopped::new(alloc))?;
        }
        Ok(Worklist {
            set,
            waiting: Vec::new(alloc),
            stopped,
        })
    }

    // Lets the productions go on that wait at the member taken last.
    fn advance(
        &mut self,
        alloc: Global,
        grammar: &Grammar,
        terminals: bool,
    ) -> Result<(), AllocError>
        requires waiting { 0 < length self.old.waiting.items }
        requires worklist { IsWorklist grammar.now terminals (state_of self.old) }
        requires settled { AreSettled grammar.now terminals (state_of self.old) }
        ensures { OnOk result (Advances grammar.now terminals (state_of self.old) (state_of self.new)) }
    {
        let nonterminal = self.waiting[self.waiting.len() - 1];
        self.waiting.pop();
        let stopped = replace(&mut self.stopped[nonterminal], Stopped::new(alloc));
        'stopped: for &(production, passed) in &stopped.list {
            self.pass(grammar, terminals, production, passed)?;
        }
        Ok(())
    }

    // Passes the symbols of a right side that the set holds: all, and the left side is a member, or up to one at which the production
    // waits.
    fn pass(
        &mut self,
        grammar: &Grammar,
        terminals: bool,
        production: usize,
        passed: usize,
    ) -> Result<(), AllocError>
        requires worklist { IsWorklist grammar.now terminals (state_of self.old) }
        requires passed { IsPassed grammar.now terminals self.old.set production passed }
        ensures { OnOk result (Passes grammar.now terminals production (state_of self.old) (state_of self.new)) }
    {
        let right = grammar.right(production);
        let Some(place) = first_missing(right, passed, terminals, &self.set) else {
            return self.add(grammar.left(production));
        };
        if let Symbol::Nonterminal(nonterminal) = right[place] {
            self.stopped[nonterminal].push(production, place)?;
        }
        Ok(())
    }

    // Adds a member, which waits if it is new.
    fn add(&mut self, nonterminal: usize) -> Result<(), AllocError>
        requires { nonterminal < length self.old.set }
        ensures { OnOk result (state_of self.new ≡ added (state_of self.old) nonterminal (slice_index_or self.old.set nonterminal false)) }
    {
        if self.set.contains(nonterminal) {
            return Ok(());
        }
        push(&mut self.waiting, nonterminal)?;
        self.set.insert(nonterminal);
        Ok(())
    }
}

// The first place from a number on whose symbol the set doesn't hold.
fn first_missing(symbols: &[Symbol], from: usize, terminals: bool, set: &TermSet) -> Option<usize>
    requires known { All (IsKnown (length set.now)) symbols.now }
    requires passed { All (Holds terminals set.now) (take from symbols.now) }
    ensures { MatchOption result (All (Holds terminals set.now) symbols.now) (IsFirstMissing terminals set.now symbols.now) }
{
    'places: for place in from..symbols.len() {
        if !holds(symbols[place], terminals, set) {
            return Some(place);
        }
    }
    None
}

// Whether the set holds the symbol.
fn holds(symbol: Symbol, terminals: bool, set: &TermSet) -> bool
    requires { IsKnown (length set.now) symbol }
    ensures { IsTrue result ↔ Holds terminals set.now symbol }
{
    match symbol {
        Symbol::Terminal(_) => terminals,
        Symbol::Nonterminal(a) => set.contains(a),
    }
}
