//! Does the automaton agree with a plain matcher, and are the texts that it finds those worked out by hand?

use crate::holds;
use std::alloc::{AllocError, Global};
use wb_automata::{Automaton, Overlap, least_text, overlap};
use wb_base::push;
use wb_regex::{Regex, RegexNode, RegexRefusal, read_regex};
use wb_termset::TermSet;

// The length of the longest text, and the number of positions in it, with its end.
const LONGEST: usize = 4;

const PLACES: usize = 5;

// An entry of a table, or nothing outside it.
fn entry(table: &[u8], node: usize, place: usize) -> u8 {
    let index = node.wrapping_mul(PLACES).wrapping_add(place);
    if index < table.len() { table[index] } else { 0 }
}

// Where the node ends from each of these positions, as bits.
fn ends_from(table: &[u8], node: usize, places: u8) -> u8 {
    let mut ends = 0;
    for place in 0..PLACES {
        if places >> place & 1 == 1 {
            ends |= entry(table, node, place);
        }
    }
    ends
}

// The same for any number of repetitions.
fn repeated(table: &[u8], node: usize, places: u8) -> u8 {
    let mut ends = places;
    for _ in 0..PLACES {
        ends |= ends_from(table, node, ends);
    }
    ends
}

// Where a set ends: after a byte that it holds.
fn set_end(words: [u64; 4], text: &[u8], place: usize) -> u8 {
    if place >= LONGEST || place >= text.len() {
        return 0;
    }
    let byte = text[place];
    if words[usize::from(byte / 64)] >> (byte % 64) & 1 == 1 {
        2 << place
    } else {
        0
    }
}

fn node_ends(table: &[u8], node: RegexNode, text: &[u8], place: usize) -> u8 {
    let here = if place < PLACES { 1 << place } else { 0 };
    match node {
        RegexNode::Set(words) => set_end(words, text, place),
        RegexNode::Sequence(i, j) => ends_from(table, j, entry(table, i, place)),
        RegexNode::Choice(i, j) => entry(table, i, place) | entry(table, j, place),
        RegexNode::Star(i) => repeated(table, i, here),
        RegexNode::Plus(i) => repeated(table, i, entry(table, i, place)),
        RegexNode::Maybe(i) => here | entry(table, i, place),
    }
}

// Whether the whole text matches, node by node and position by position.
fn matches_plainly(alloc: Global, regex: &Regex, text: &[u8]) -> Result<bool, AllocError> {
    let mut table: Vec<u8> = Vec::new(alloc);
    let mut last = 0;
    for node in regex.nodes() {
        for place in 0..PLACES {
            let ends = node_ends(&table, *node, text, place);
            if place == 0 {
                last = ends;
            }
            push(&mut table, ends)?;
        }
    }
    Ok(text.len() <= LONGEST && last >> text.len() & 1 == 1)
}

// Whether the steps over the text from the start of a set lead to a state that accepts the terminal.
fn matches_by_steps(automaton: &Automaton, set: usize, text: &[u8], terminal: usize) -> bool {
    if set >= automaton.sets().len() {
        return false;
    }
    let mut state = automaton.start(set);
    for byte in text {
        if state >= automaton.states() {
            return false;
        }
        match automaton.step(state, *byte) {
            None => return false,
            Some(next) => state = next,
        }
    }
    state < automaton.states()
        && automaton.accepts(state, terminal)
        && automaton.accepted(state).contains(&terminal)
}

// The expressions of the lines of a text.
pub(crate) fn expressions(alloc: Global, lines: &str) -> Result<Vec<Regex>, RegexRefusal> {
    let mut all = Vec::new(alloc);
    for line in lines.lines() {
        push(&mut all, read_regex(alloc, line.as_bytes())?)?;
    }
    Ok(all)
}

// The set of those of the numbers that are below the count.
fn set_of(alloc: Global, count: usize, numbers: &[usize]) -> Result<TermSet, AllocError> {
    let mut set = TermSet::new(alloc, count)?;
    for number in numbers {
        if *number < set.count() {
            set.insert(*number);
        }
    }
    Ok(set)
}

// A set for each list of numbers.
pub(crate) fn sets_of(
    alloc: Global,
    count: usize,
    lists: &[&[usize]],
) -> Result<Vec<TermSet>, AllocError> {
    let mut sets = Vec::new(alloc);
    for numbers in lists {
        push(&mut sets, set_of(alloc, count, *numbers)?)?;
    }
    Ok(sets)
}

fn build(alloc: Global, terminals: &[Regex], lists: &[&[usize]]) -> Result<Automaton, AllocError> {
    let sets = sets_of(alloc, terminals.len(), lists)?;
    Automaton::build(alloc, terminals, &sets)
}

// A question about an automaton.
#[derive(Clone, Copy)]
enum Question {
    // Whether it agrees with a plain matcher.
    Agrees,
    // Whether its states are in order.
    IsOrdered,
    // Whether it matches the nested texts that it should, and no others.
    Matches,
}

fn answer(alloc: Global, automaton: &Automaton, question: Question) -> Result<bool, AllocError> {
    match question {
        Question::Agrees => agree(alloc, automaton),
        Question::IsOrdered => are_found(alloc, automaton),
        Question::Matches => Ok(are_matched(automaton, &NESTED)),
    }
}

// The answer of the automaton of terminals, with a set for each list of numbers.
fn answer_of(
    alloc: Global,
    terminals: &[Regex],
    lists: &[&[usize]],
    question: Question,
) -> Result<bool, AllocError> {
    let automaton = build(alloc, terminals, lists)?;
    answer(alloc, &automaton, question)
}

// The same, with the terminals on the lines of a text.
fn answers(
    alloc: Global,
    lines: &str,
    lists: &[&[usize]],
    question: Question,
) -> Result<bool, RegexRefusal> {
    let terminals = expressions(alloc, lines)?;
    Ok(answer_of(alloc, &terminals, lists, question)?)
}

const TWENTY: &str = "a
ab
a|b
a+
ab*
a?b
(ab)+
(a|b)+c
[ab]c
[^a]
a*b
(a|ab)(c|bc)
a+b+c+
(a?b)+
[a-c][a-c]
(aa)+
a(b|c)*a
(ab|ba)+
c(a|b)?c?
(a|b|c)+abc|b";

// One set has all twenty, and the other has every second one.
static ALL_AND_HALF: [&[usize]; 2] = [
    &[
        0, 1, 2, 3, 4, 5, 6, 7, 8, 9, 10, 11, 12, 13, 14, 15, 16, 17, 18, 19,
    ],
    &[0, 2, 4, 6, 8, 10, 12, 14, 16, 18],
];

// The letter with a number, of three.
fn letter(number: usize) -> u8 {
    match number % 3 {
        0 => b'a',
        1 => b'b',
        _ => b'c',
    }
}

// Whether steps and plain matching agree on a text, over all expressions and both sets.
fn agree_on(alloc: Global, automaton: &Automaton, text: &[u8]) -> Result<bool, AllocError> {
    for (terminal, regex) in automaton.terminals().iter().enumerate() {
        let wanted = matches_plainly(alloc, regex, text)?;
        let second = wanted && terminal % 2 == 0;
        if matches_by_steps(automaton, 0, text, terminal) != wanted
            || matches_by_steps(automaton, 1, text, terminal) != second
        {
            return Ok(false);
        }
    }
    Ok(true)
}

// Whether they agree on all texts over three letters up to the greatest length.
fn agree(alloc: Global, automaton: &Automaton) -> Result<bool, AllocError> {
    for number in 0..81usize {
        let text = [
            letter(number),
            letter(number / 3),
            letter(number / 9),
            letter(number / 27),
        ];
        for length in 0..=LONGEST {
            if !agree_on(alloc, automaton, &text[..length])? {
                return Ok(false);
            }
        }
    }
    Ok(automaton.terminals().len() == 20)
}

#[test]
fn the_automaton_agrees_with_a_plain_matcher(rt: HostRuntime) {
    assert!(rt; holds(answers(rt.alloc(), TWENTY, &ALL_AND_HALF, Question::Agrees)));
}

// A name, a keyword and blanks, then terminals of which each takes any text but a blank and a letter of its own.
fn raw_terminals(alloc: Global) -> Result<Vec<Regex>, RegexRefusal> {
    let mut all = expressions(alloc, "[a-z]+\nif\n[ \\n]+")?;
    for letter in b'a'..b'y' {
        let text = [b'[', b'^', b' ', letter, b']', b'+'];
        push(&mut all, read_regex(alloc, &text)?)?;
    }
    Ok(all)
}

// Twenty-four sets, each with one of those terminals and the three others.
fn sets_of_one(alloc: Global) -> Result<Vec<TermSet>, AllocError> {
    let mut sets = Vec::new(alloc);
    for raw in 3..27usize {
        push(&mut sets, set_of(alloc, 27, &[0, 1, 2, raw])?)?;
    }
    Ok(sets)
}

// Whether there are fewer states than the product of those terminals would have.
fn are_few_states(alloc: Global, terminals: &[Regex]) -> Result<bool, AllocError> {
    let sets = sets_of_one(alloc)?;
    let states = Automaton::build(alloc, terminals, &sets)?.states();
    Ok(24 < states && states < 400)
}

fn has_few_states(alloc: Global) -> Result<bool, RegexRefusal> {
    let terminals = raw_terminals(alloc)?;
    Ok(are_few_states(alloc, &terminals)?)
}

#[test]
fn terminals_of_no_common_set_do_not_multiply(rt: HostRuntime) {
    assert!(rt; holds(has_few_states(rt.alloc())));
}

// Whether a state was found from the start of this set by this text.
fn is_found_by(
    alloc: Global,
    automaton: &Automaton,
    state: usize,
    set: usize,
    text: &[u8],
) -> Result<bool, AllocError> {
    if state >= automaton.states() || automaton.set(state) != set {
        return Ok(false);
    }
    Ok(automaton.text(alloc, state)?.as_slice() == text)
}

// States of the automaton of `ab` and `c`, each of which is in a set of its own, with their sets and texts.
static FOUND: [(usize, usize, &str); 4] = [(0, 0, ""), (2, 0, "ab"), (3, 1, ""), (4, 1, "c")];

static ONE_EACH: [&[usize]; 2] = [&[0], &[1]];

// Whether that automaton has its states in order.
fn are_found(alloc: Global, automaton: &Automaton) -> Result<bool, AllocError> {
    for (state, set, text) in &FOUND {
        if !is_found_by(alloc, automaton, *state, *set, text.as_bytes())? {
            return Ok(false);
        }
    }
    Ok(automaton.states() == 5)
}

#[test]
fn states_are_numbered_by_sets_and_texts(rt: HostRuntime) {
    assert!(rt; holds(answers(rt.alloc(), "ab\nc", &ONE_EACH, Question::IsOrdered)));
}

static NESTED: [(&str, bool); 8] = [
    ("c", true),
    ("ac", true),
    ("bac", true),
    ("abbabc", true),
    ("", false),
    ("ab", false),
    ("cc", false),
    ("aca", false),
];

// Whether exactly the expected texts match.
fn are_matched(automaton: &Automaton, rows: &[(&str, bool)]) -> bool {
    for (text, wanted) in rows {
        if matches_by_steps(automaton, 0, text.as_bytes(), 0) != *wanted {
            return false;
        }
    }
    true
}

static ALONE: [&[usize]; 1] = [&[0]];

#[test]
fn nested_marks_match_what_one_does(rt: HostRuntime) {
    let nested = "((((a|b*)*)+)?(a|(b+)*)*)*c";
    assert!(rt; holds(answers(rt.alloc(), nested, &ALONE, Question::Matches)));
}

// Whether an expression and a text's overlap in the last text, or in none where that is empty.
fn overlaps_with(
    alloc: Global,
    one: &Regex,
    right: &[u8],
    text: &[u8],
) -> Result<bool, RegexRefusal> {
    let other = read_regex(alloc, right)?;
    match overlap(alloc, one, &other)? {
        Overlap::Both(shared) => Ok(shared.as_slice() == text),
        Overlap::Disjoint => Ok(text.is_empty()),
    }
}

// Whether the two texts overlap in the third, or in none where that is empty.
fn overlaps(alloc: Global, left: &[u8], right: &[u8], text: &[u8]) -> Result<bool, RegexRefusal> {
    let one = read_regex(alloc, left)?;
    overlaps_with(alloc, &one, right, text)
}

static OVERLAPS: [(&str, &str, &str); 3] = [
    ("if", "[a-z]+", "if"),
    ("[0-9]+", "[a-z]+", ""),
    ("a+b|c+", "[a-d]+b|cc", "ab"),
];

// Whether the first two texts of each row overlap in the third.
fn all_overlap(alloc: Global, rows: &[(&str, &str, &str)]) -> Result<bool, RegexRefusal> {
    for (left, right, text) in rows {
        if !overlaps(alloc, left.as_bytes(), right.as_bytes(), text.as_bytes())? {
            return Ok(false);
        }
    }
    Ok(true)
}

#[test]
fn a_keyword_overlaps_with_names_and_numbers_do_not(rt: HostRuntime) {
    assert!(rt; holds(all_overlap(rt.alloc(), &OVERLAPS)));
}

// An automaton of one of these has a state for each choice of the last letters.
static FAR_FROM_THE_END: [(&str, &str, &str); 1] = [(
    "[ab]*a[ab][ab][ab][ab][ab][ab][ab][ab][ab][ab][ab][ab][ab][ab][ab][ab][ab][ab][ab][ab]",
    "[ab]*b[ab][ab][ab][ab][ab][ab][ab][ab][ab][ab][ab][ab][ab][ab][ab][ab][ab][ab][ab]",
    "abaaaaaaaaaaaaaaaaaaa",
)];

#[test]
fn letters_far_from_the_end_overlap(rt: HostRuntime) {
    assert!(rt; holds(all_overlap(rt.alloc(), &FAR_FROM_THE_END)));
}

static LEAST: [(&str, &str); 3] = [
    ("[ \\n]+", "\n"),
    ("aa|b", "b"),
    // so long that few positions are ahead of each
    (
        "(the|a|an) (quick|quickly moving) brown (dog|fox) jumps? (over|under) the (lazy|crazy) (dog|fox|hedgehog)s?, (and|or) (then|thus) it goes",
        "a quick brown dog jump over the lazy dog, or then it goes",
    ),
];

fn is_least(alloc: Global, text: &str, wanted: &str) -> Result<bool, RegexRefusal> {
    let regex = read_regex(alloc, text.as_bytes())?;
    Ok(least_text(alloc, &regex)?.as_slice() == wanted.as_bytes())
}

// Whether the second text of each row is the least one of the first.
fn all_least(alloc: Global, rows: &[(&str, &str)]) -> Result<bool, RegexRefusal> {
    for (text, wanted) in rows {
        if !is_least(alloc, text, wanted)? {
            return Ok(false);
        }
    }
    Ok(true)
}

#[test]
fn the_least_text_is_the_shortest_and_then_the_first(rt: HostRuntime) {
    assert!(rt; holds(all_least(rt.alloc(), &LEAST)));
}
