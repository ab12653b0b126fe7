//! Which pairs of terminals have to be compared?
//!
//! Those that are in one set, that no preference orders, and that aren't two different texts. Keywords and signs are one text each, and
//! for two of them it is enough to compare numbers.

ghost use Rattle.std.specs.Prelude.{◌≡◌, ◌<◌, ◌↔◌, [], IfOk, IfSome, IsTrue, OnOk, length};
ghost use Rattle.wb_lexical.specs.Clash.{AreOrdered};
ghost use Rattle.wb_lexical.specs.Inner.Candidates.{AreCandidates, AreNumbered, AreTextNumbers, HaveOtherTexts, IsCandidate, IsSquare, IsTextOf, KeepNames, Lists};
ghost use Rattle.wb_lexical.specs.Inner.Rows.{AreTogether, HaveWidth, IsInRow};

use crate::rows::{rows_ordered, rows_together};
use std::alloc::{AllocError, Global};
use wb_automata::only_text;
use wb_base::{Added, Names, push};
use wb_regex::Regex;
use wb_termset::TermSet;

// The pairs that have to be compared, the lesser terminal first.
pub(crate) fn candidates(
    alloc: Global,
    terminals: &[Regex],
    sets: &[TermSet],
    preferences: &[(usize, usize)],
) -> Result<Vec<(usize, usize)>, AllocError>
    ensures { IfOk result (λ pairs. AreCandidates terminals.now (AreTogether sets.now) (AreOrdered preferences.now) pairs.items) }
{
    let rows = rows_together(alloc, terminals.len(), sets)?;
    let pairs = candidates_in(alloc, terminals, &rows, preferences);
    drop(rows);
    pairs
}

// Like `candidates`, where the rows have what is in one set.
fn candidates_in(
    alloc: Global,
    terminals: &[Regex],
    rows: &[TermSet],
    preferences: &[(usize, usize)],
) -> Result<Vec<(usize, usize)>, AllocError>
    requires len { length rows.now ≡ length terminals.now }
    requires widths { HaveWidth (length rows.now) rows.now }
    ensures { IfOk result (λ pairs. AreCandidates terminals.now (IsInRow rows.now) (AreOrdered preferences.now) pairs.items) }
{
    let ordered = rows_ordered(alloc, terminals.len(), preferences)?;
    let pairs = unordered_pairs(alloc, terminals, rows, &ordered);
    drop(ordered);
    pairs
}

// Like `candidates_in`, where other rows have what a preference orders.
fn unordered_pairs(
    alloc: Global,
    terminals: &[Regex],
    rows: &[TermSet],
    ordered: &[TermSet],
) -> Result<Vec<(usize, usize)>, AllocError>
    requires len { length rows.now ≡ length terminals.now }
    requires widths { HaveWidth (length rows.now) rows.now }
    requires ordered_len { length ordered.now ≡ length rows.now }
    requires ordered_widths { HaveWidth (length rows.now) ordered.now }
    ensures { IfOk result (λ pairs. AreCandidates terminals.now (IsInRow rows.now) (IsInRow ordered.now) pairs.items) }
{
    let texts = text_numbers(alloc, terminals)?;
    let pairs = listed_pairs(
        alloc,
        &Compared {
            rows,
            ordered,
            texts: &texts,
        },
    );
    drop(texts);
    pairs
}

// For each terminal that is one text alone the number of this text. It may be that some such terminals have none.
fn text_numbers(alloc: Global, terminals: &[Regex]) -> Result<Vec<Option<usize>>, AllocError>
    ensures { IfOk result (λ texts. AreTextNumbers terminals.now texts.items) }
{
    let mut names = Names::new(alloc);
    let texts = numbers_by(alloc, terminals, &mut names);
    let _different = names.len();
    drop(names);
    texts
}

// Like `text_numbers`, where the texts go after those that are there.
fn numbers_by(
    alloc: Global,
    terminals: &[Regex],
    names: &mut Names,
) -> Result<Vec<Option<usize>>, AllocError>
    ensures { IfOk result (λ texts. AreNumbered terminals.now (length terminals.now) names.new texts.items) }
{
    let mut texts = Vec::new(alloc);
    'terminals: for terminal in terminals {
        let number = text_number(alloc, terminal, names)?;
        push(&mut texts, number)?;
    }
    Ok(texts)
}

// The number of the one text that a terminal matches. It goes after the others where it is new.
fn text_number(
    alloc: Global,
    terminal: &Regex,
    names: &mut Names,
) -> Result<Option<usize>, AllocError>
    ensures number { IfOk result (λ number. IfSome number (IsTextOf names.new terminal.now)) }
    ensures keeps { KeepNames names.old names.new }
{
    match only_text(alloc, terminal)? {
        Some(text) => {
            let added = names.add(text.as_slice());
            drop(text);
            match added? {
                Added::New(number) => Ok(Some(number)),
                Added::Present(number) => Ok(Some(number)),
            }
        }
        None => Ok(None),
    }
}

// Terminals that are related by rows, and the numbers of those that are one text.
#[derive(Clone, Copy)]
struct Compared<'a> {
    rows: &'a [TermSet],
    ordered: &'a [TermSet],
    texts: &'a [Option<usize>],
}

// The pairs that have to be compared by these.
fn listed_pairs(alloc: Global, compared: &Compared) -> Result<Vec<(usize, usize)>, AllocError>
    requires { IsSquare compared.now }
    ensures { IfOk result (λ pairs. Lists (IsCandidate compared.now) [] pairs.items) }
{
    let mut pairs = Vec::new(alloc);
    'terminals: for left in 0..compared.rows.len() {
        add_pairs(compared, left, &mut pairs)?;
    }
    Ok(pairs)
}

// Adds the pairs with this terminal as the lesser one.
fn add_pairs(
    compared: &Compared,
    left: usize,
    pairs: &mut Vec<(usize, usize)>,
) -> Result<(), AllocError>
    requires square { IsSquare compared.now }
    requires left { left < length compared.now.rows.now }
    ensures { OnOk result (Lists (λ t u. (t ≡ left) × IsCandidate compared.now t u) pairs.old.items pairs.new.items) }
{
    let row = &compared.rows[left];
    let mut from = left + 1;
    'members: while let Some(right) = row.next_member(from) {
        add_pair(compared, left, right, pairs)?;
        from = right + 1;
    }
    Ok(())
}

// Adds the pair, if it has to be compared.
fn add_pair(
    compared: &Compared,
    left: usize,
    right: usize,
    pairs: &mut Vec<(usize, usize)>,
) -> Result<(), AllocError>
    requires square { IsSquare compared.now }
    requires less { left < right }
    requires right { right < length compared.now.rows.now }
    requires together { IsInRow compared.now.rows.now left right }
    ensures { OnOk result (Lists (λ t u. (t ≡ left) × (u ≡ right) × IsCandidate compared.now t u) pairs.old.items pairs.new.items) }
{
    if !is_candidate(compared, left, right) {
        return Ok(());
    }
    push(pairs, (left, right))
}

// Whether no preference orders the two, and they aren't two different texts.
fn is_candidate(compared: &Compared, left: usize, right: usize) -> bool
    requires square { IsSquare compared.now }
    requires left { left < length compared.now.rows.now }
    requires right { right < length compared.now.rows.now }
    ensures { IsTrue result ↔ ((¬ IsInRow compared.now.ordered.now left right) × (¬ HaveOtherTexts compared.now.texts.now left right)) }
{
    if compared.ordered[left].contains(right) {
        return false;
    }
    !have_other_texts(compared.texts, left, right)
}

// Whether both have the number of a text, and these numbers differ.
fn have_other_texts(texts: &[Option<usize>], left: usize, right: usize) -> bool
    requires left { left < length texts.now }
    requires right { right < length texts.now }
    ensures { IsTrue result ↔ HaveOtherTexts texts.now left right }
{
    let Some(one) = texts[left] else {
        return false;
    };
    let Some(other) = texts[right] else {
        return false;
    };
    one != other
}
