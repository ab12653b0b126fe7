//! Chains of reductions that take one symbol each: each is kept with its productions, so that the next like it builds its nodes in a row.
//!
//! The tables alone justify a chain. It may end early, where no more productions are kept or there is no memory.

ghost use Rattle.std.specs.Prelude.{◌≡◌, ℕ, List, [], IfNone, IfOk, IfSome, IsTrue, length, take};
ghost use Rattle.wb_base.specs.Grammar.{GrammarView};
ghost use Rattle.wb_scan_theory.specs.Parts.{AreTablesOf};
ghost use Rattle.wb_parser_states.specs.Rules.{AreRules};
ghost use Rattle.wb_parser.specs.Inner.Chains.{AreChains, AreReductions, IsChainOf, IsLonger, IsStart};

use std::alloc::{AllocError, Global};
use wb_base::push;
use wb_lookahead::{Action, Tables};
use wb_parser_states::{Rule, rules_of};
use wb_scan::Language;

// How many chains are kept, and how many productions of all chains.
const PLACES: usize = 16_384;

const LINKS: usize = 262_144;

// For shorter texts no chains are kept.
const SHORT: usize = 16_384;

// Where a chain begins: a state, the state below it, and the terminal that is ahead.
#[derive(Clone, Copy)]
pub(crate) struct Start {
    pub(crate) below: usize,
    pub(crate) state: usize,
    pub(crate) terminal: usize,
}

// A chain: reductions by the listed productions from the first place on lead from its start to the target, at which the action is this one.
#[derive(Clone, Copy)]
pub(crate) struct Chain {
    pub(crate) start: Start,
    pub(crate) first: usize,
    pub(crate) end: usize,
    pub(crate) target: usize,
    pub(crate) action: Action,
}

// What reductions are made by: left sides and widths of productions, chains that were met, and their productions.
#[derive(Drop)]
pub(crate) struct Reductions {
    pub(crate) rules: Vec<Rule>,
    pub(crate) chains: Vec<Chain>,
    pub(crate) productions: Vec<usize>,
}

// Those of a language for a text of this size. The only error is out of memory.
pub(crate) fn reductions_for(
    alloc: Global,
    language: &Language,
    size: usize,
) -> Result<Reductions, AllocError>
    ensures { IfOk result (AreReductions language.now.language.grammar language.now.tables) }
{
    let rules = rules_of(alloc, language.grammar())?;
    let chains = no_chains(alloc, language.tables(), size);
    let productions = Vec::new(alloc);
    Ok(Reductions {
        rules,
        chains,
        productions,
    })
}

// Places for chains, as far as there is memory. In each is one of no reductions, that of the state 0 above itself.
fn no_chains(alloc: Global, tables: &Tables, size: usize) -> Vec<Chain>
    requires { (g : GrammarView) × AreTablesOf g tables.now }
    ensures { (g : GrammarView) → AreTablesOf g tables.now → AreChains g tables.now [] result.items }
{
    let first = Chain {
        start: Start {
            below: 0,
            state: 0,
            terminal: 0,
        },
        first: 0,
        end: 0,
        target: 0,
        action: tables.action(0, 0),
    };
    let mut chains = Vec::new(alloc);
    if size < SHORT {
        return chains;
    }
    'places: for _ in 0..PLACES {
        match push(&mut chains, first) {
            Ok(()) => {}
            Err(_) => return chains,
        }
    }
    chains
}

// The chain from a start on: the one that is kept, or the one that is followed and kept then.
#[inline]
pub(crate) fn chain_from(language: &Language, reductions: &mut Reductions, start: Start) -> Chain
    requires start { IsStart language.now.language.grammar language.now.tables start }
    requires reductions { AreReductions language.now.language.grammar language.now.tables reductions.old }
    ensures start { result.start ≡ start }
    ensures chain { IsChainOf language.now.language.grammar language.now.tables reductions.new.productions.items result }
    ensures reductions { AreReductions language.now.language.grammar language.now.tables reductions.new }
{
    let place = place_of(start);
    if place < reductions.chains.len() {
        let kept = reductions.chains[place];
        if is_same(kept.start, start) {
            return kept;
        }
    }
    follow_and_keep(language, reductions, start, place)
}

// Follows a chain, and keeps it at a place, if there is one.
fn follow_and_keep(
    language: &Language,
    reductions: &mut Reductions,
    start: Start,
    place: usize,
) -> Chain
    requires start { IsStart language.now.language.grammar language.now.tables start }
    requires reductions { AreReductions language.now.language.grammar language.now.tables reductions.old }
    ensures start { result.start ≡ start }
    ensures chain { IsChainOf language.now.language.grammar language.now.tables reductions.new.productions.items result }
    ensures reductions { AreReductions language.now.language.grammar language.now.tables reductions.new }
{
    let chain = follow(
        language,
        &reductions.rules,
        &mut reductions.productions,
        start,
    );
    if place < reductions.chains.len() {
        reductions.chains[place] = chain;
    }
    chain
}

// The place at which a chain from this start is kept: bits in the middle of a sum of products.
fn place_of(start: Start) -> usize {
    let below = start.below.wrapping_mul(2_654_435_761);
    let state = start.state.wrapping_mul(2_246_822_519);
    let terminal = start.terminal.wrapping_mul(3_266_489_917);
    (below.wrapping_add(state).wrapping_add(terminal) >> 18) % PLACES
}

// Whether both starts are the same.
fn is_same(one: Start, other: Start) -> bool
    ensures { IsTrue result → one ≡ other }
{
    one.below == other.below && one.state == other.state && one.terminal == other.terminal
}

// The chain from a start on, whose productions are added to the list. None has more links than there are nonterminals, since none has one
// twice.
fn follow(language: &Language, rules: &[Rule], productions: &mut Vec<usize>, start: Start) -> Chain
    requires start { IsStart language.now.language.grammar language.now.tables start }
    requires rules { AreRules language.now.language.grammar rules.now }
    ensures start { result.start ≡ start }
    ensures chain { IsChainOf language.now.language.grammar language.now.tables productions.new.items result }
    ensures begins { take (length productions.old.items) productions.new.items ≡ productions.old.items }
{
    let mut chain = begin(language, start, productions.len());
    'links: for _ in 0..language.grammar().nonterminals() {
        match linked(language, rules, productions, chain) {
            Some(longer) => chain = longer,
            None => return chain,
        }
    }
    chain
}

// The chain of no reductions, whose productions are to be listed from a place on.
fn begin(language: &Language, start: Start, place: usize) -> Chain
    requires { IsStart language.now.language.grammar language.now.tables start }
    ensures start { result.start ≡ start }
    ensures end { result.end ≡ place }
    ensures chain { (productions : List ℕ) → place ≡ length productions → IsChainOf language.now.language.grammar language.now.tables productions result }
{
    Chain {
        start,
        first: place,
        end: place,
        target: start.state,
        action: language.tables().action(start.state, start.terminal),
    }
}

// The chain with one reduction more, where that takes one symbol and its production can be listed.
fn linked(
    language: &Language,
    rules: &[Rule],
    productions: &mut Vec<usize>,
    chain: Chain,
) -> Option<Chain>
    requires rules { AreRules language.now.language.grammar rules.now }
    requires chain { IsChainOf language.now.language.grammar language.now.tables productions.old.items chain }
    requires end { chain.end ≡ length productions.old.items }
    ensures some { IfSome result (IsLonger language.now.language.grammar language.now.tables productions.old.items productions.new.items chain) }
    ensures none { IfNone result (productions.new.items ≡ productions.old.items) }
{
    let tables = language.tables();
    let Action::Reduce(production) = chain.action else {
        return None;
    };
    let rule = rules[production];
    if rule.width != 1 || productions.len() >= LINKS {
        return None;
    }
    let target = tables.goto(chain.start.below, rule.left)?;
    match push(productions, production) {
        Ok(()) => Some(Chain {
            start: chain.start,
            first: chain.first,
            end: chain.end + 1,
            target,
            action: tables.action(target, chain.start.terminal),
        }),
        Err(_) => None,
    }
}
