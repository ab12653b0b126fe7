//! Which terminals and layouts of extensions share a text?
//!
//! The own terminals and own layout of all extensions are listed one after another. Two that are one text each are compared as texts. Where one of two is,
//! an automaton of the other is followed along it (`text_machine`). All other pairs that are asked later are asked at once, by one walk.

ghost use Rattle.std.specs.Prelude.{◌≡◌, ◌≤◌, ◌<◌, ◌↔◌, All, IfOk, IfSome, IsTrue, List, OnOk, Some, length, slice_get, true};
ghost use Rattle.wb_automata.specs.Automata.{IsMatch};
ghost use Rattle.wb_automata.specs.Sharing.{ArePairsBelow, Share};
ghost use Rattle.wb_regex.specs.Matches.{ShareText};
ghost use Rattle.wb_regex.specs.Tree.{Tree};
ghost use Rattle.wb_compose_language.specs.Inner.Known.{AreBases, ArePatternsAdded, AreTexts, AreTold, HasOwnRows, IsAdded, IsKnown, IsOneText, IsText};

use crate::Addition;
use crate::addition::own_from;
use crate::text_machine::is_match;
use indexmap::IndexSet;
use std::alloc::{AllocError, Global};
use wb_automata::{Automaton, Overlap, only_text, overlap, sharing};
use wb_base::{Sequence, push};
use wb_regex::Regex;
use wb_syntax_resolved::TerminalKind;

// The own terminals and layouts of all extensions, and for each extension the place of the first.
#[derive(Drop)]
pub(crate) struct Owns {
    pub(crate) patterns: Vec<Regex>,
    pub(crate) bases: Vec<usize>,
    // The extension of each, and whether it is a marker: they say which pairs are asked, and prove nothing.
    groups: Vec<usize>,
    markers: Vec<bool>,
}

// Pairs of them, and whether each shares a text.
#[derive(Drop)]
pub(crate) struct Told {
    pairs: Vec<(usize, usize)>,
    flags: Vec<bool>,
    // The place of each pair. A place that is found here is tested where it is used.
    places: IndexSet<(usize, usize)>,
}

// What is known of them: the texts of those that are one text alone, an automaton of all others, and what is told of pairs.
#[derive(Clone, Copy)]
pub(crate) struct Known<'a> {
    pub(crate) owns: &'a Owns,
    pub(crate) texts: &'a [Option<Sequence<u8>>],
    pub(crate) machine: &'a Automaton,
    pub(crate) told: &'a Told,
}

// The own terminals and layouts of these extensions, where the host has so many of both.
pub(crate) fn owns_of(
    alloc: Global,
    own: usize,
    hosts: usize,
    extensions: &[Addition],
) -> Result<Owns, AllocError>
    requires { All (HasOwnRows own hosts) extensions.now }
    ensures { IfOk result (λ owns. AreBases own hosts extensions.now owns.patterns.items owns.bases.items) }
{
    let mut owns = Owns {
        patterns: Vec::new(alloc),
        bases: Vec::new(alloc),
        groups: Vec::new(alloc),
        markers: Vec::new(alloc),
    };
    'extensions: for extension in extensions {
        add_extension(own, hosts, extension, &mut owns)?;
    }
    Ok(owns)
}

// Adds the own terminals of one, and then its own layout.
fn add_extension(
    own: usize,
    hosts: usize,
    extension: &Addition,
    owns: &mut Owns,
) -> Result<(), AllocError>
    requires { HasOwnRows own hosts extension.now }
    ensures { OnOk result (IsAdded own hosts extension.now owns.old.patterns.items owns.old.bases.items owns.new.patterns.items owns.new.bases.items) }
{
    let base = owns.patterns.len();
    push(&mut owns.bases, base)?;
    let from = own_from(extension, hosts);
    add_rows(extension, own, extension.grammar.terminals(), owns)?;
    add_rows(extension, from, extension.terminals.len(), owns)
}

// Adds the rows from the first number to before the end.
fn add_rows(
    extension: &Addition,
    first: usize,
    end: usize,
    owns: &mut Owns,
) -> Result<(), AllocError>
    requires first { first ≤ end }
    requires end { end ≤ length extension.now.terminals.now }
    ensures patterns { OnOk result (ArePatternsAdded first end extension.now owns.old.patterns.items owns.new.patterns.items) }
    ensures bases { owns.new.bases.items ≡ owns.old.bases.items }
{
    'rows: for number in first..end {
        let terminal = &extension.terminals[number];
        push(&mut owns.patterns, terminal.pattern.copy()?)?;
        push(&mut owns.groups, owns.bases.len())?;
        push(&mut owns.markers, is_marking(terminal.kind))?;
    }
    Ok(())
}

fn is_marking(kind: TerminalKind) -> bool {
    matches!(kind, TerminalKind::Marking)
}

// The texts of expressions that are one text alone.
pub(crate) fn texts_of(
    alloc: Global,
    patterns: &[Regex],
) -> Result<Vec<Option<Sequence<u8>>>, AllocError>
    ensures { IfOk result (λ texts. AreTexts patterns.now texts.items) }
{
    let mut texts = Vec::new(alloc);
    'patterns: for pattern in patterns {
        push(&mut texts, only_text(alloc, pattern)?)?;
    }
    Ok(texts)
}

// What is told of all pairs of a marker and a terminal or layout of another extension of which neither is a text alone.
pub(crate) fn told_of(
    alloc: Global,
    owns: &Owns,
    texts: &[Option<Sequence<u8>>],
) -> Result<Told, AllocError>
    ensures { IfOk result (AreTold owns.now.patterns.items) }
{
    let pairs = asked_pairs(alloc, owns, texts)?;
    let places = places_of(alloc, pairs.as_slice())?;
    let flags = sharing(alloc, owns.patterns.as_slice(), pairs.as_slice())?;
    Ok(Told {
        pairs,
        flags,
        places,
    })
}

fn places_of(
    alloc: Global,
    pairs: &[(usize, usize)],
) -> Result<IndexSet<(usize, usize)>, AllocError> {
    let mut places = IndexSet::new(alloc);
    'pairs: for pair in pairs {
        places.insert_full(*pair)?;
    }
    Ok(places)
}

fn asked_pairs(
    alloc: Global,
    owns: &Owns,
    texts: &[Option<Sequence<u8>>],
) -> Result<Vec<(usize, usize)>, AllocError>
    ensures { IfOk result (λ pairs. ArePairsBelow (length owns.now.patterns.items) pairs.items) }
{
    let mut pairs = Vec::new(alloc);
    'markers: for marker in 0..owns.patterns.len() {
        if is_marker(owns, marker) {
            add_asked(owns, texts, marker, &mut pairs)?;
        }
    }
    Ok(pairs)
}

// Adds the pairs of a marker.
fn add_asked(
    owns: &Owns,
    texts: &[Option<Sequence<u8>>],
    marker: usize,
    pairs: &mut Vec<(usize, usize)>,
) -> Result<(), AllocError>
    requires marker { marker < length owns.now.patterns.items }
    requires pairs { ArePairsBelow (length owns.now.patterns.items) pairs.old.items }
    ensures { OnOk result (ArePairsBelow (length owns.now.patterns.items) pairs.new.items) }
{
    'others: for other in 0..owns.patterns.len() {
        if is_asked(owns, texts, marker, other) {
            push(pairs, (marker, other))?;
        }
    }
    Ok(())
}

fn is_marker(owns: &Owns, place: usize) -> bool {
    place < owns.markers.len() && owns.markers[place]
}

fn is_plain(texts: &[Option<Sequence<u8>>], place: usize) -> bool {
    place < texts.len() && texts[place].is_some()
}

fn group_of(owns: &Owns, place: usize) -> usize {
    if place < owns.groups.len() {
        owns.groups[place]
    } else {
        0
    }
}

fn is_asked(owns: &Owns, texts: &[Option<Sequence<u8>>], marker: usize, other: usize) -> bool {
    group_of(owns, marker) != group_of(owns, other)
        && !is_plain(texts, marker)
        && !is_plain(texts, other)
}

// Whether two of them match some text.
pub(crate) fn shares(
    alloc: Global,
    known: &Known,
    one: usize,
    other: usize,
) -> Result<bool, AllocError>
    requires known { IsKnown known.now }
    requires one { one < length known.now.owns.now.patterns.items }
    requires other { other < length known.now.owns.now.patterns.items }
    ensures { IfOk result (λ shares. (p q : Tree) → slice_get known.now.owns.now.patterns.items one ≡ Some p → slice_get known.now.owns.now.patterns.items other ≡ Some q → IsTrue shares ↔ ShareText p q) }
{
    if let Some(same) = same_text(known.texts, one, other) {
        return Ok(same);
    }
    if let Some(matched) = matched_text(known, one, other) {
        return Ok(matched);
    }
    if let Some(flag) = told_flag(known.told, one, other) {
        return Ok(flag);
    }
    let patterns = known.owns.patterns.as_slice();
    have_common_text(alloc, &patterns[one], &patterns[other])
}

// Whether two texts alone are the same.
fn same_text(texts: &[Option<Sequence<u8>>], one: usize, other: usize) -> Option<bool>
    requires one { one < length texts.now }
    requires other { other < length texts.now }
    ensures { IfSome result (λ same. IsOneText texts.now one other same) }
{
    match &texts[one] {
        None => None,
        Some(text) => is_text(text.as_slice(), &texts[other]),
    }
}

fn is_text(text: &[u8], other: &Option<Sequence<u8>>) -> Option<bool>
    ensures { IfSome result (λ same. IsText text.now other.now same) }
{
    match other {
        None => None,
        Some(found) => Some(text == found.as_slice()),
    }
}

// Whether they share a text, where one of them is a text alone and the other isn't.
fn matched_text(known: &Known, one: usize, other: usize) -> Option<bool>
    requires known { IsKnown known.now }
    requires one { one < length known.now.owns.now.patterns.items }
    requires other { other < length known.now.owns.now.patterns.items }
    ensures { IfSome result (λ matched. (p q : Tree) → slice_get known.now.owns.now.patterns.items one ≡ Some p → slice_get known.now.owns.now.patterns.items other ≡ Some q → (matched ≡ true) ↔ ShareText p q) }
{
    match &known.texts[one] {
        Some(text) => matched_by(known, text.as_slice(), other),
        None => match &known.texts[other] {
            Some(text) => matched_by(known, text.as_slice(), one),
            None => None,
        },
    }
}

// Whether an expression that isn't a text alone matches a text.
fn matched_by(known: &Known, text: &[u8], other: usize) -> Option<bool>
    requires known { IsKnown known.now }
    requires other { other < length known.now.owns.now.patterns.items }
    ensures { IfSome result (λ matched. (matched ≡ true) ↔ IsMatch known.now.owns.now.patterns.items other text.now) }
{
    match &known.texts[other] {
        Some(_) => None,
        None => Some(is_match(known.machine, other, text)),
    }
}

// What is told of a pair, if anything is.
fn told_flag(told: &Told, one: usize, other: usize) -> Option<bool>
    ensures { (patterns : List Tree) → AreTold patterns told.now → IfSome result (λ flag. (flag ≡ true) ↔ Share patterns (one, other)) }
{
    let place = likely_place(told, one, other)?;
    if place >= told.pairs.len() || place >= told.flags.len() {
        return None;
    }
    let pair = told.pairs[place];
    if pair.0 != one || pair.1 != other {
        return None;
    }
    Some(told.flags[place])
}

// What is likely the place of a pair.
fn likely_place(told: &Told, one: usize, other: usize) -> Option<usize> {
    told.places.get_index_of(&(one, other))
}

// Whether two expressions match some text.
fn have_common_text(alloc: Global, one: &Regex, other: &Regex) -> Result<bool, AllocError>
    ensures { IfOk result (λ shares. IsTrue shares ↔ ShareText one.now other.now) }
{
    match overlap(alloc, one, other)? {
        Overlap::Both(_) => Ok(true),
        Overlap::Disjoint => Ok(false),
    }
}
