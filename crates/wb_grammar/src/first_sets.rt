//! A set of terminals for each nonterminal, which passes of `first.rt` enlarge.

ghost use Rattle.std.specs.Prelude.{◌≡◌, ◌<◌, Bool, false, List, length, IfOk, IsTrue, replicate, slice_set};
ghost use Rattle.wb_termset.specs.Sets.{Grew, IsUnion};
ghost use Rattle.wb_grammar.specs.Facts.{set_of};

use std::alloc::{AllocError, Global};
use std::marker::Model;
use wb_base::push;
use wb_termset::TermSet;

#[derive(Drop)]
pub(crate) struct FirstSets {
    pub(crate) sets: Vec<TermSet>,
}

impl Model for FirstSets {
    ghost use Rattle.std.specs.Prelude.{List, Bool};

    ghost Value = { List (List Bool) };

    ghost view = { λ s. s.sets.items };
}

impl FirstSets {
    // So many empty sets of numbers below a count.
    pub(crate) fn new(alloc: Global, sets: usize, count: usize) -> Result<FirstSets, AllocError>
        ensures { IfOk result (λ made. made ≡ replicate sets (replicate count false)) }
    {
        let mut made = Vec::new(alloc);
        'sets: for _ in 0..sets {
            push(&mut made, TermSet::new(alloc, count)?)?;
        }
        Ok(FirstSets { sets: made })
    }

    // The set of a nonterminal.
    pub(crate) fn set(&self, nonterminal: usize) -> &TermSet
        requires { nonterminal < length self.now }
        ensures { result.now ≡ set_of self.now nonterminal }
    {
        &self.sets[nonterminal]
    }

    // Adds the members of a set to that of a nonterminal, and answers whether one was new.
    pub(crate) fn add(&mut self, nonterminal: usize, set: &TermSet) -> bool
        requires nonterminal { nonterminal < length self.old }
        requires len { length (set_of self.old nonterminal) ≡ length set.now }
        ensures after { (new : List Bool) × IsUnion (set_of self.old nonterminal) set.now new × (self.new ≡ slice_set self.old nonterminal new) }
        ensures grew { IsTrue result → Grew (set_of self.old nonterminal) (set_of self.new nonterminal) }
        ensures stayed { result ≡ false → self.new ≡ self.old }
    {
        self.sets[nonterminal].union_with(set)
    }
}
