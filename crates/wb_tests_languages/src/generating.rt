//! Which text of a language does a number make?

ghost use Rattle.std.specs.Prelude.{◌<◌, ◌≤◌, IfSome, length};
ghost use Rattle.wb_grammar.specs.Facts.{AreFacts};

use crate::sample::{Sample, add, add_regexes, add_rules};
use crate::samples::{LISTS, SUMS, TIGHT_SUMS};
use std::alloc::Global;
use wb_base::Symbol::{Nonterminal as N, Terminal as T};
use wb_base::{Grammar, Symbol};
use wb_generate::{Generated, generate};
use wb_grammar::{Facts, analyse};
use wb_regex::Regex;

// What a number makes: this text with its leaves, a text of this number of bytes and leaves, or none, with the least number of leaves.
#[derive(Clone, Copy)]
enum Wanted {
    Text(&'static str, u64),
    Long(usize, u64),
    NoSentence(u64),
}

// A number, the greatest number of leaves of its text, and what it makes.
type Draw = (u64, u64, Wanted);

fn is_wanted(answer: &Generated, wanted: Wanted) -> bool {
    match answer {
        Generated::Text { text, leaves } => is_text(text.as_slice(), *leaves, wanted),
        Generated::NoSentence(least) => match wanted {
            Wanted::NoSentence(expected) => *least == expected,
            _ => false,
        },
    }
}

fn is_text(text: &[u8], leaves: u64, wanted: Wanted) -> bool {
    match wanted {
        Wanted::Text(expected, many) => text == expected.as_bytes() && leaves == many,
        Wanted::Long(bytes, many) => text.len() == bytes && leaves == many,
        Wanted::NoSentence(_) => false,
    }
}

// The position, if it is before the end.
fn place_before(place: usize, end: usize) -> Option<usize>
    ensures { IfSome result (λ p. p < end) }
{
    if place < end { Some(place) } else { None }
}

// Whether the number makes this of the grammar, where the first expression after those of the terminals is the layout.
fn makes_by(alloc: Global, grammar: &Grammar, facts: &Facts, regexes: &[Regex], draw: Draw) -> bool
    requires { AreFacts grammar.now facts.now }
{
    let (number, size, wanted) = draw;
    if size > 100_000 || regexes.len() < grammar.terminals() {
        return false;
    }
    let layout = place_before(grammar.terminals(), regexes.len());
    match generate(alloc, grammar, regexes, layout, number, size) {
        Ok(answer) => is_wanted(&answer, wanted),
        Err(_) => false,
    }
}

fn makes_with(alloc: Global, grammar: &Grammar, regexes: &[Regex], draw: Draw) -> bool {
    match analyse(alloc, grammar) {
        Ok(facts) => makes_by(alloc, grammar, &facts, regexes, draw),
        Err(_) => false,
    }
}

fn makes_in(alloc: Global, grammar: &Grammar, expressions: &[&str], draw: Draw) -> bool {
    let mut regexes = Vec::new(alloc);
    add_regexes(alloc, expressions, &mut regexes) && makes_with(alloc, grammar, &regexes, draw)
}

fn makes(alloc: Global, sample: &Sample, draw: Draw) -> bool {
    if sample.nonterminals == 0 {
        return false;
    }
    let mut grammar = Grammar::new(alloc, sample.terminals, sample.nonterminals, 0);
    add_rules(&mut grammar, sample.rules) && makes_in(alloc, &grammar, sample.expressions, draw)
}

fn make_all(alloc: Global, rows: &[(&Sample, Draw)]) -> bool {
    for (sample, draw) in rows {
        if !makes(alloc, *sample, *draw) {
            return false;
        }
    }
    true
}

static TEXTS: [(&Sample, Draw); 11] = [
    (&SUMS, (0, 3, Wanted::Text("0 + 0", 3))), // the first draw is 335903614
    (&SUMS, (7, 2, Wanted::Text("0", 1))), // a sum would have two leaves more, and one is to spare
    (&SUMS, (7, 0, Wanted::NoSentence(1))),
    (&SUMS, (1, 5, Wanted::Text("0", 1))), // the first draw is divisible by 4, so that all are chosen among
    (&SUMS, (2, 5, Wanted::Text("0 + 0 + 0", 5))),
    (&SUMS, (3, 9, Wanted::Text("0 + 0 + 0 + 0", 7))),
    (&TIGHT_SUMS, (0, 3, Wanted::Text("0+0", 3))),
    (&LISTS, (0, 0, Wanted::Text("", 0))), // no leaf may come, so that no draw is made
    (&LISTS, (0, 1, Wanted::Text("0", 1))),
    (&LISTS, (0, 3, Wanted::Text("0\n0\n0", 3))),
    (&LISTS, (2, 3, Wanted::Text("0\n0", 2))),
];

#[test]
fn numbers_make_their_one_text(rt: HostRuntime) {
    assert!(rt; make_all(rt.alloc(), &TEXTS));
}

// Gives nonterminal 0 these symbols. Each later nonterminal is the next one twice, and the last is a terminal: so nonterminal 1 has 2 to
// the power of `doublings` leaves.
fn add_doublings(grammar: &mut Grammar, doublings: usize, first: &[Symbol]) -> bool
    requires { doublings ≤ 100 }
{
    if !add(grammar, 0, first) {
        return false;
    }
    for n in 1..doublings + 1 {
        if !add(grammar, n, &[N(n + 1), N(n + 1)]) {
            return false;
        }
    }
    add(grammar, doublings + 1, &[T(0)])
}

fn is_doubled(alloc: Global, doublings: usize, first: &[Symbol], draw: Draw) -> bool {
    if doublings > 100 {
        return false;
    }
    let mut grammar = Grammar::new(alloc, 1, doublings + 2, 0);
    add_doublings(&mut grammar, doublings, first) && makes_in(alloc, &grammar, &["a"], draw)
}

fn are_doubled(alloc: Global, rows: &[(usize, &[Symbol], Draw)]) -> bool {
    for (doublings, first, draw) in rows {
        if !is_doubled(alloc, *doublings, *first, *draw) {
            return false;
        }
    }
    true
}

static DOUBLED: [(usize, &[Symbol], Draw); 6] = [
    (3, &[N(1)], (0, 8, Wanted::Text("aaaaaaaa", 8))),
    (16, &[N(1)], (0, 65_535, Wanted::NoSentence(65_536))),
    (16, &[N(1)], (0, 100_000, Wanted::Long(65_536, 65_536))),
    (17, &[N(1)], (0, 100_000, Wanted::NoSentence(100_001))),
    (90, &[N(1)], (0, 100_000, Wanted::NoSentence(100_001))),
    // 100,000 is 65,536 and 32,768, and 1,024, 512, 128 and 32
    (
        16,
        &[N(1), N(2), N(7), N(8), N(10), N(12)],
        (0, 100_000, Wanted::Long(100_000, 100_000)),
    ),
];

#[test]
fn least_counts_saturate_and_long_texts_are_made(rt: HostRuntime) {
    assert!(rt; are_doubled(rt.alloc(), &DOUBLED));
}
