//! Makes the language of a sample, which gives its symbols by number.
//!
//! For a sample whose numbers are out of range the answer is out of memory, so that its test fails.

ghost use Rattle.std.specs.Prelude.{◌≡◌, ◌<◌, ◌≤◌, ◌+◌, ℕ, All, IsTrue, IfOk, Some, length, slice_get};
ghost use Rattle.wb_scan.specs.Bare.{AreWrittenFor};
ghost use Rattle.wb_base.specs.Grammar.{IsSymbolBelow};
ghost use Rattle.wb_grammar.specs.Facts.{AreFacts};
ghost use Rattle.wb_graph.specs.Graphs.{IsEdgeBelow};

use std::alloc::{AllocError, Global};
use wb_base::{Grammar, Kind, Symbol, push};
use wb_grammar::{Facts, analyse};
use wb_regex::{Regex, read_regex};
use wb_scan::{Language, LanguageRefusal, language_of};
use wb_values::Signatures;

// A production with its name.
pub(crate) struct Rule {
    pub(crate) name: &'static str,
    pub(crate) left: usize,
    pub(crate) right: &'static [Symbol],
}

// A language: the number of nonterminals, of which 0 is the start; its productions; and the expressions of its terminals, then of layout.
pub(crate) struct Sample {
    pub(crate) terminals: usize,
    pub(crate) nonterminals: usize,
    pub(crate) rules: &'static [Rule],
    pub(crate) expressions: &'static [&'static str],
    pub(crate) preferences: &'static [(usize, usize)],
}

// The language of a sample, or why there is none.
pub(crate) fn language(alloc: Global, sample: &Sample) -> Result<Language, LanguageRefusal> {
    let mut regexes = Vec::new(alloc);
    if add_regexes(alloc, sample.expressions, &mut regexes) {
        with_regexes(alloc, sample, &regexes)
    } else {
        Err(LanguageRefusal::NoMemory(AllocError))
    }
}

fn with_regexes(
    alloc: Global,
    sample: &Sample,
    regexes: &[Regex],
) -> Result<Language, LanguageRefusal> {
    let grammar = grammar_of(alloc, sample)?;
    match analyse(alloc, &grammar) {
        Ok(facts) => with_facts(alloc, sample, grammar, &facts, regexes),
        Err(_) => Err(LanguageRefusal::NoMemory(AllocError)),
    }
}

fn with_facts(
    alloc: Global,
    sample: &Sample,
    grammar: Grammar,
    facts: &Facts,
    regexes: &[Regex],
) -> Result<Language, LanguageRefusal>
    requires { AreFacts grammar facts.now }
{
    let Beside {
        layout,
        preferences,
    } = beside_of(alloc, sample, grammar.terminals(), regexes)?;
    language_of(alloc, grammar, facts, regexes, layout, preferences)
}

// What a language has besides its grammar and its expressions: the numbers of layout, and preferences.
struct Beside {
    layout: Vec<usize>,
    preferences: Vec<(usize, usize)>,
}

fn beside_of(
    alloc: Global,
    sample: &Sample,
    terminals: usize,
    regexes: &[Regex],
) -> Result<Beside, AllocError>
    ensures { IfOk result (λ beside. AreWrittenFor terminals regexes.now beside.layout.items beside.preferences.items) }
{
    let layout = layout_of(alloc, terminals, regexes.len())?;
    let preferences = pairs_of(alloc, sample.preferences, regexes.len())?;
    Ok(Beside {
        layout,
        preferences,
    })
}

// The numbers of layout.
fn layout_of(alloc: Global, terminals: usize, count: usize) -> Result<Vec<usize>, AllocError>
    ensures numbers { IfOk result (λ layout. (k t : ℕ) → slice_get layout.items k ≡ Some t → t ≡ terminals + k) }
    ensures count { IfOk result (λ layout. count ≡ terminals + length layout.items) }
{
    if count < terminals {
        return Err(AllocError);
    }
    let mut layout = Vec::new(alloc);
    'numbers: for number in terminals..count {
        push(&mut layout, number)?;
    }
    Ok(layout)
}

// The pairs, where their numbers are in range.
fn pairs_of(
    alloc: Global,
    pairs: &[(usize, usize)],
    count: usize,
) -> Result<Vec<(usize, usize)>, AllocError>
    ensures { IfOk result (λ made. All (IsEdgeBelow count) made.items) }
{
    if are_pairs_below(pairs, count) {
        Vec::from_slice(alloc, pairs)
    } else {
        Err(AllocError)
    }
}

fn are_pairs_below(pairs: &[(usize, usize)], count: usize) -> bool
    ensures { IsTrue result → All (IsEdgeBelow count) pairs.now }
{
    pairs.iter().all(|pair| pair.0 < count && pair.1 < count)
}

// Adds the expressions, and returns whether all are read.
pub(crate) fn add_regexes(alloc: Global, texts: &[&str], regexes: &mut Vec<Regex>) -> bool {
    for text in texts {
        if !add_regex(alloc, *text, regexes) {
            return false;
        }
    }
    true
}

fn add_regex(alloc: Global, text: &str, regexes: &mut Vec<Regex>) -> bool {
    match read_regex(alloc, text.as_bytes()) {
        Ok(regex) => push(regexes, regex).is_ok(),
        Err(_) => false,
    }
}

fn grammar_of(alloc: Global, sample: &Sample) -> Result<Grammar, AllocError> {
    if sample.nonterminals == 0 {
        return Err(AllocError);
    }
    let mut grammar = Grammar::new(alloc, sample.terminals, sample.nonterminals, 0);
    if add_rules(&mut grammar, sample.rules) {
        Ok(grammar)
    } else {
        Err(AllocError)
    }
}

// Adds the productions, and returns whether all are in range.
pub(crate) fn add_rules(grammar: &mut Grammar, rules: &[Rule]) -> bool {
    for rule in rules {
        if !add(grammar, rule.left, rule.right) {
            return false;
        }
    }
    true
}

// Adds a production, and returns whether its numbers are in range.
pub(crate) fn add(grammar: &mut Grammar, left: usize, right: &[Symbol]) -> bool {
    left < grammar.nonterminals()
        && are_below(right, grammar.terminals(), grammar.nonterminals())
        && grammar.add(left, right).is_ok()
}

fn are_below(symbols: &[Symbol], terminals: usize, nonterminals: usize) -> bool
    ensures { IsTrue result → All (IsSymbolBelow terminals nonterminals) symbols.now }
{
    symbols.iter().all(|symbol| match *symbol {
        Symbol::Terminal(number) => number < terminals,
        Symbol::Nonterminal(number) => number < nonterminals,
    })
}

// Adds the signatures of productions, and returns whether memory sufficed.
pub(crate) fn add_signatures(alloc: Global, rules: &[Rule], signatures: &mut Signatures) -> bool {
    for rule in rules {
        if !add_signature(alloc, rule, signatures) {
            return false;
        }
    }
    true
}

fn add_signature(alloc: Global, rule: &Rule, signatures: &mut Signatures) -> bool {
    let mut kinds = Vec::new(alloc);
    add_kinds(rule.right, &mut kinds)
        && signatures
            .add(rule.name.as_bytes(), rule.left, &kinds)
            .is_ok()
}

fn add_kinds(symbols: &[Symbol], kinds: &mut Vec<Kind>) -> bool {
    for symbol in symbols {
        if push(kinds, kind_of(*symbol)).is_err() {
            return false;
        }
    }
    true
}

fn kind_of(symbol: Symbol) -> Kind {
    match symbol {
        Symbol::Terminal(_) => Kind::Text,
        Symbol::Nonterminal(number) => Kind::Tree(number),
    }
}
