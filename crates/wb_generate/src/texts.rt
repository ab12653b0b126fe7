//! How are leaves written? Each as the least text of its expression, with that of the layout between two.

ghost use Rattle.std.specs.Prelude.{◌≡◌, ◌<◌, ◌+◌, ◌++◌, ℕ, Option, IfOk, OnOk, length, take};
ghost use Rattle.std.specs.List.{AllZip};
ghost use Rattle.wb_automata.specs.Overlaps.{IsLeastMatch};
ghost use Rattle.wb_generate.specs.Texts.{IsWritten, between_of, joined_texts, text_at};

use std::alloc::{AllocError, Global};
use wb_automata::least_text;
use wb_base::{Bytes, push};
use wb_regex::Regex;

// The text of leaves of these terminals.
pub(crate) fn write(
    alloc: Global,
    expressions: &[Regex],
    layout: Option<usize>,
    made: &[usize],
) -> Result<Bytes, AllocError>
    ensures { IfOk result (IsWritten expressions.now layout made.now) }
{
    let texts = least_texts(alloc, expressions)?;
    let text = join(alloc, &texts, layout, made)?;
    Bytes::from_vec(text)
}

// The least text of each expression.
#[tactic(auto, using(crate::proofs::TextLemmas::least_more))]
fn least_texts(alloc: Global, expressions: &[Regex]) -> Result<Vec<Bytes>, AllocError>
    ensures { IfOk result (λ texts. AllZip IsLeastMatch expressions.now texts.items) }
{
    let mut texts = Vec::new(alloc);
    'expressions: for place in 0..expressions.len() {
        push(&mut texts, least_text(alloc, &expressions[place])?)?;
    }
    Ok(texts)
}

// The texts of the leaves, with that of the layout between two.
fn join(
    alloc: Global,
    texts: &[Bytes],
    layout: Option<usize>,
    made: &[usize],
) -> Result<Vec<u8>, AllocError>
    ensures { IfOk result (λ text. text.items ≡ joined_texts texts.now (between_of texts.now layout) made.now) }
{
    let mut text = Vec::new(alloc);
    'leaves: for place in 0..made.len() {
        add_leaf(&mut text, texts, layout, made, place)?;
    }
    Ok(text)
}

// Adds the text of the leaf at a place, after one between where it isn't the first.
#[tactic(auto, using(crate::proofs::TextLemmas::place_first, crate::proofs::TextLemmas::place_later))]
fn add_leaf(
    text: &mut Vec<u8>,
    texts: &[Bytes],
    layout: Option<usize>,
    made: &[usize],
    place: usize,
) -> Result<(), AllocError>
    requires place { place < length made.now }
    requires before { text.old.items ≡ joined_texts texts.now (between_of texts.now layout) (take place made.now) }
    ensures { OnOk result (text.new.items ≡ joined_texts texts.now (between_of texts.now layout) (take (place + 1) made.now)) }
{
    let leaf = made[place];
    if place == 0 {
        add(text, texts, leaf)?;
        return Ok(());
    }
    add_between(text, texts, layout)?;
    add(text, texts, leaf)?;
    Ok(())
}

// Adds the text between two leaves.
fn add_between(text: &mut Vec<u8>, texts: &[Bytes], layout: Option<usize>) -> Result<(), AllocError>
    ensures { OnOk result (text.new.items ≡ text.old.items ++ between_of texts.now layout) }
{
    match layout {
        None => Ok(()),
        Some(place) => add(text, texts, place),
    }
}

// Adds the text at a place, if there is one.
fn add(text: &mut Vec<u8>, texts: &[Bytes], place: usize) -> Result<(), AllocError>
    ensures { OnOk result (text.new.items ≡ text.old.items ++ text_at texts.now place) }
{
    if place < texts.len() {
        text.extend_from_slice(texts[place].as_slice())?;
    }
    Ok(())
}
