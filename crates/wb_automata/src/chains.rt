//! Lists of leaves that share their beginnings.
//!
//! Each list is another one with a leaf after it, so lists that begin alike take no more room than one of them.

ghost use Rattle.std.specs.Prelude.{◌≡◌, ◌<◌, ◌++◌, ◌∷◌, [], IfOk, IfSome, IsTrue, Some, length, slice_get};
ghost use Rattle.wb_automata_positions.specs.Rows.{row};
ghost use Rattle.wb_automata.specs.Inner.Chains.{AreLinks, IsGone, lists_of};

use std::alloc::{AllocError, Global};
use std::marker::Model;
use wb_base::push;

// A leaf, and the number of the list that it comes after.
#[derive(Clone, Copy)]
pub(crate) struct Link {
    pub(crate) before: usize,
    pub(crate) leaf: usize,
}

// Lists by number, the empty one first.
#[derive(Drop)]
pub(crate) struct Chains {
    links: Vec<Link>,
    // For each list the last one that was made from it, if any: it makes it fast and proves nothing.
    latest: Vec<usize>,
}

impl Model for Chains {
    ghost use Rattle.std.specs.Prelude.{List, ℕ};
    ghost use Rattle.wb_automata.specs.Inner.Chains.{AreLinks, lists_of};

    ghost Value = { List (List ℕ) };

    ghost view = { λ c. lists_of c.links.items };

    ghost invariant = { λ c. AreLinks c.links.items };
}

impl Chains {
    pub(crate) fn new(alloc: Global) -> Chains
        ensures { result ≡ [] ∷ [] }
    {
        Chains {
            links: Vec::new(alloc),
            latest: Vec::new(alloc),
        }
    }

    // Leaves the empty list alone.
    pub(crate) fn clear(&mut self)
        ensures { self.new ≡ [] ∷ [] }
    {
        self.links.clear();
        self.latest.clear();
    }

    // The number of a list with the leaf after it.
    pub(crate) fn after(&mut self, before: usize, leaf: usize) -> Result<usize, AllocError>
        requires { before < length self.old }
        ensures { IfOk result (IsGone self.old before leaf self.new) }
    {
        if let Some(number) = self.find(before, leaf) {
            return Ok(number);
        }
        self.add(before, leaf)
    }

    // The number of a list with the leaf after it, where it was made last.
    fn find(&self, before: usize, leaf: usize) -> Option<usize>
        ensures { IfSome result (λ number. slice_get self.now number ≡ Some (row self.now before ++ leaf ∷ [])) }
    {
        let hint = hint_at(&self.latest, before);
        if is_link(&self.links, hint, before, leaf) {
            return Some(hint + 1);
        }
        None
    }

    // Makes the list with the leaf after it.
    fn add(&mut self, before: usize, leaf: usize) -> Result<usize, AllocError>
        requires { before < length self.old }
        ensures { IfOk result (IsGone self.old before leaf self.new) }
    {
        let count = self.links.len();
        push(&mut self.latest, usize::MAX)?;
        push(&mut self.links, Link { before, leaf })?;
        note(&mut self.latest, before, count);
        Ok(count + 1)
    }

    // How many lists there are.
    pub(crate) fn count(&self) -> usize {
        self.links.len() + 1
    }

    // The leaves of a list.
    pub(crate) fn list(&self, number: usize, all: &mut Vec<usize>) -> Result<(), AllocError>
        requires { number < length self.now }
        ensures { IfOk result (λ _. slice_get self.now number ≡ Some all.new.items) }
    {
        read_back(&self.links, number, all)
    }
}

// The hint at a place, and one that leads nowhere where there is none.
fn hint_at(hints: &[usize], place: usize) -> usize {
    if place < hints.len() {
        hints[place]
    } else {
        usize::MAX
    }
}

// Puts a hint at a place that has room for it.
fn note(hints: &mut Vec<usize>, place: usize, hint: usize) {
    if place < hints.len() {
        hints[place] = hint;
    }
}

// Whether the link at a place is this one.
fn is_link(links: &[Link], at: usize, before: usize, leaf: usize) -> bool
    ensures within { IsTrue result → at < length links.now }
    ensures is { IsTrue result → (link : Link) → slice_get links.now at ≡ Some link → (link.before ≡ before) × (link.leaf ≡ leaf) }
{
    at < links.len() && links[at].before == before && links[at].leaf == leaf
}

// The leaves of a list, read back from its last one.
fn read_back(links: &[Link], number: usize, all: &mut Vec<usize>) -> Result<(), AllocError>
    requires links { AreLinks links.now }
    requires number { number < length (lists_of links.now) }
    ensures { IfOk result (λ _. slice_get (lists_of links.now) number ≡ Some all.new.items) }
{
    all.clear();
    let mut at = number;
    'back: while at > 0 {
        push(all, links[at - 1].leaf)?;
        at = links[at - 1].before;
    }
    all.reverse();
    Ok(())
}
