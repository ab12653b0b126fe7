//! Which of some leaves hold each of some bytes?
//!
//! The leaves are gone through once, for all bytes. Bytes that the same leaves hold share a list.

ghost use Rattle.std.specs.Prelude.{◌≡◌, ◌<◌, ◌≤◌, ℕ, false, [], ◌∷◌, IfOk, IfSome, OnOk, Some, length, replicate, slice_get, slice_index};
ghost use Rattle.wb_automata_positions.specs.Leaves.{has_byte, node_holds};
ghost use Rattle.wb_automata_positions.specs.Rising.{AreRising};
ghost use Rattle.wb_automata_positions.specs.Transitions.{IsPlaceList};
ghost use Rattle.wb_automata.specs.Inner.Ways.{AreListed, AreWays, HasPassed, HasStepped, IsPut};

use crate::chains::Chains;
use std::alloc::{AllocError, Global};
use wb_automata_positions::holds;
use wb_base::push;
use wb_regex::RegexNode;

// The list of leaves of each byte, by its number.
#[derive(Drop)]
pub(crate) struct Ways {
    pub(crate) chains: Chains,
    pub(crate) ends: Vec<usize>,
    // The leaves that hold the byte that was asked for last.
    pub(crate) list: Vec<usize>,
    // The first byte with each list, and how many bytes are below each: they make it fast and prove nothing.
    firsts: Vec<usize>,
    ranks: Vec<usize>,
}

impl Ways {
    // Room for the lists of these bytes.
    pub(crate) fn new(alloc: Global, bytes: &[u8]) -> Result<Ways, AllocError> {
        Ok(Ways {
            ranks: ranks_of(alloc, bytes)?,
            chains: Chains::new(alloc),
            ends: Vec::new(alloc),
            list: Vec::new(alloc),
            firsts: Vec::new(alloc),
        })
    }

    // Finds which of the leaves hold each byte.
    pub(crate) fn read(
        &mut self,
        nodes: &[RegexNode],
        bytes: &[u8],
        ahead: &[usize],
    ) -> Result<(), AllocError>
        requires rising { AreRising bytes.now }
        requires places { IsPlaceList (length nodes.now) ahead.now }
        ensures { IfOk result (λ _. AreWays nodes.now bytes.now ahead.now self.new.chains self.new.ends.items (length ahead.now)) }
    {
        self.begin(bytes.len())?;
        for q in ahead {
            self.pass(nodes[*q], *q, bytes)?;
        }
        let count = self.chains.count();
        lengthen(&mut self.firsts, count)?;
        Ok(())
    }

    // No leaves for any byte.
    fn begin(&mut self, count: usize) -> Result<(), AllocError>
        ensures chains { IfOk result (λ _. self.new.chains ≡ [] ∷ []) }
        ensures ends { IfOk result (λ _. self.new.ends.items ≡ replicate count 0) }
    {
        self.chains.clear();
        set_zeros(&mut self.ends, count)?;
        Ok(())
    }

    // Puts a leaf after the others of each byte that its node holds.
    fn pass(&mut self, node: RegexNode, q: usize, bytes: &[u8]) -> Result<(), AllocError>
        requires rising { AreRising bytes.now }
        requires listed { AreListed self.old.chains self.old.ends.items (length bytes.now) }
        ensures { IfOk result (λ _. HasPassed node bytes.now q (length bytes.now) self.old.chains self.old.ends.items self.new.chains self.new.ends.items) }
    {
        let mut c = 0;
        'bytes: while c < bytes.len() {
            c = self.step(node, q, bytes, c)?;
        }
        Ok(())
    }

    // Puts a leaf after the others of a byte if its node holds it, and goes on to a byte before which it holds none of the others.
    fn step(
        &mut self,
        node: RegexNode,
        q: usize,
        bytes: &[u8],
        c: usize,
    ) -> Result<usize, AllocError>
        requires rising { AreRising bytes.now }
        requires within { c < length bytes.now }
        requires place { c < length self.old.ends.items }
        requires listed { slice_index self.old.ends.items c < length self.old.chains }
        ensures { IfOk result (λ d. HasStepped node bytes.now q c d self.old.chains self.old.ends.items self.new.chains self.new.ends.items) }
    {
        if holds(node, bytes[c]) {
            self.put(c, q)?;
            return Ok(c + 1);
        }
        let byte = skip(node, bytes[c]);
        Ok(rank_from(bytes, &self.ranks, c + 1, byte))
    }

    // Puts a leaf after the others of a byte.
    fn put(&mut self, c: usize, q: usize) -> Result<(), AllocError>
        requires within { c < length self.old.ends.items }
        requires listed { slice_index self.old.ends.items c < length self.old.chains }
        ensures { IfOk result (λ _. IsPut c q self.old.chains self.old.ends.items self.new.chains self.new.ends.items) }
    {
        let end = self.chains.after(self.ends[c], q)?;
        self.ends[c] = end;
        Ok(())
    }

    // Lists the leaves that hold a byte.
    pub(crate) fn find(&mut self, c: usize) -> Result<(), AllocError>
        requires within { c < length self.old.ends.items }
        requires listed { slice_index self.old.ends.items c < length self.old.chains }
        ensures chains { self.new.chains ≡ self.old.chains }
        ensures ends { self.new.ends ≡ self.old.ends }
        ensures list { IfOk result (λ _. slice_get self.old.chains (slice_index self.old.ends.items c) ≡ Some self.new.list.items) }
    {
        let end = self.ends[c];
        self.chains.list(end, &mut self.list)?;
        Ok(())
    }

    // An earlier byte with the same list, where it is found.
    pub(crate) fn alike(&mut self, c: usize) -> Option<usize>
        requires { c < length self.old.ends.items }
        ensures chains { self.new.chains ≡ self.old.chains }
        ensures ends { self.new.ends ≡ self.old.ends }
        ensures alike { IfSome result (λ d. (d < c) × (slice_index self.old.ends.items d ≡ slice_index self.old.ends.items c)) }
    {
        let end = self.ends[c];
        if end >= self.firsts.len() {
            return None;
        }
        let first = self.firsts[end];
        if first < c && self.ends[first] == end {
            return Some(first);
        }
        self.firsts[end] = c;
        None
    }
}

// So many zeros and nothing else.
fn set_zeros(numbers: &mut Vec<usize>, count: usize) -> Result<(), AllocError>
    ensures { OnOk result (numbers.new.items ≡ replicate count 0) }
{
    numbers.clear();
    numbers.resize(count, 0)
}

// At least so many numbers.
fn lengthen(numbers: &mut Vec<usize>, count: usize) -> Result<(), AllocError> {
    if numbers.len() < count {
        numbers.resize(count, 0)?;
    }
    Ok(())
}

// A number from a byte's on before which the node holds none from the byte on.
fn skip(node: RegexNode, byte: u8) -> usize
    ensures { (b : ℕ) → byte ≤ b → b < result → node_holds node b ≡ false }
{
    match node {
        RegexNode::Set(words) => skip_in(&words, usize::from(byte)),
        RegexNode::Sequence(_, _) => 256,
        RegexNode::Choice(_, _) => 256,
        RegexNode::Star(_) => 256,
        RegexNode::Plus(_) => 256,
        RegexNode::Maybe(_) => 256,
    }
}

// The same for a set of bytes: the first one that it holds, or where the word ends.
fn skip_in(words: &[u64; 4], byte: usize) -> usize
    requires { byte < 256 }
    ensures { (b : ℕ) → byte ≤ b → b < result → has_byte words.now b ≡ false }
{
    let rest = words[byte / 64] >> (byte % 64);
    if rest == 0 {
        return (byte / 64 + 1) * 64;
    }
    byte + rest.trailing_zeros() as usize
}

// A place from one on before which the bytes from there are below this one.
fn rank_from(bytes: &[u8], ranks: &[usize], from: usize, byte: usize) -> usize
    requires rising { AreRising bytes.now }
    requires within { from ≤ length bytes.now }
    ensures from { from ≤ result }
    ensures within { result ≤ length bytes.now }
    ensures below { (d : ℕ) → from ≤ d → d < result → slice_index bytes.now d < byte }
{
    if byte >= ranks.len() {
        return from;
    }
    let rank = ranks[byte];
    if rank <= from || rank > bytes.len() || usize::from(bytes[rank - 1]) >= byte {
        return from;
    }
    rank
}

// How many of the bytes are below each number.
fn ranks_of(alloc: Global, bytes: &[u8]) -> Result<Vec<usize>, AllocError> {
    let mut ranks = Vec::new(alloc);
    let mut rank = 0;
    for byte in 0..257usize {
        if rank < bytes.len() && usize::from(bytes[rank]) < byte {
            rank += 1;
        }
        push(&mut ranks, rank)?;
    }
    Ok(ranks)
}
