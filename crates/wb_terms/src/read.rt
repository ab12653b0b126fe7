//! Which tree do some bytes stand for as a term, or where is their first error?
//!
//! What is met in the text comes from `reading`, and trees are made by `builder`; a refusal takes them back.

ghost use Rattle.std.specs.Prelude.{◌≡◌, ◌<◌, ◌++◌, ℕ, List, [], length, reverse, IfErr, IfOk, IfSome, MatchResult, OnErr, OnOk};
ghost use Rattle.wb_values.specs.Fits.{FitsTree};
ghost use Rattle.wb_values.specs.Tree.{Tree};
ghost use Rattle.wb_values.specs.ValuesIn.{tree_in};
ghost use Rattle.wb_terms.specs.Term.{Term};
ghost use Rattle.wb_terms.specs.Inner.Events.{term_onto};
ghost use Rattle.wb_terms.specs.TreeOf.{IsTreeOf};
ghost use Rattle.wb_terms.specs.TermAnswer.{Answer, stands, IsAnswer, answer_of};
ghost use Rattle.wb_terms.specs.Inner.Holding.{IsFaultOf};

use crate::builder::Builder;
use crate::event::Event;
use crate::reading::read_events;
use crate::refusal::TermRefusal;
use std::alloc::Global;
use wb_text_predictive::Outcome;
use wb_values::{Signatures, TreeId, TreeStore};

// The tree of what is met in a term, in the store, after the others; or the first fault of the term.
fn tree_of(
    alloc: Global,
    events: &[Event],
    signatures: &Signatures,
    store: &mut TreeStore,
) -> Result<TreeId, TermRefusal>
    requires { (term : Term) × (term_onto term [] ≡ reverse events.now) }
    ensures grown { (more : List Tree) × (store.new ≡ store.old ++ more) }
    ensures ok { IfOk result (λ id. (term : Term) → term_onto term [] ≡ reverse events.now →
        IsTreeOf signatures.now term (tree_in store.new id.0)) }
    ensures within { IfOk result (λ id. id.0 < length store.new) }
    ensures refused { IfErr result (λ e. (term : Term) → term_onto term [] ≡ reverse events.now →
        IsFaultOf signatures.now term e) }
{
    let mut builder = Builder::new(alloc);
    for event in events {
        builder.handle(signatures, store, event)?;
    }
    builder.into_tree(signatures, store)
}

// The tree of the term that the bytes are, in the store, after the others. After a refusal there may be more trees than before.
fn add_term(
    alloc: Global,
    bytes: &[u8],
    signatures: &Signatures,
    store: &mut TreeStore,
) -> Result<TreeId, TermRefusal>
    ensures grown { (more : List Tree) × (store.new ≡ store.old ++ more) }
    ensures ok { IfOk result (λ id. IsAnswer signatures.now bytes.now (stands (tree_in store.new id.0))) }
    ensures within { IfOk result (λ id. id.0 < length store.new) }
    ensures refused { IfErr result (λ e. IfSome (answer_of e) (IsAnswer signatures.now bytes.now)) }
{
    match read_events(alloc, bytes)? {
        Outcome::Stopped { at } => Err(TermRefusal::Bad(at)),
        Outcome::Whole(events) => tree_of(alloc, events.as_slice(), signatures, store),
    }
}

/// Reads a term into a store, and answers its tree.
///
/// The trees that the store held stay as they were, and after a refusal it holds them alone. A name stands for the first production
/// of that printed name. The answer is a tree exactly where the text is a term that fits the signatures. Otherwise the first cause in
/// the order of `TermRefusal` is reported; places count bytes from the beginning of the text. No clause bounds the work: it is linear in
/// the bytes, and nothing recurses.
pub fn read_term(
    alloc: Global,
    bytes: &[u8],
    signatures: &Signatures,
    store: &mut TreeStore,
) -> Result<TreeId, TermRefusal>
    ensures ok { IfOk result (λ id. IsAnswer signatures.now bytes.now (stands (tree_in store.new id.0))) }
    ensures fits { IfOk result (λ id. (nonterminal : ℕ) × FitsTree signatures.now (tree_in store.new id.0) nonterminal) }
    ensures within { IfOk result (λ id. id.0 < length store.new) }
    ensures begins { OnOk result ((more : List Tree) × (store.new ≡ store.old ++ more)) }
    ensures refused { IfErr result (λ e. IfSome (answer_of e) (IsAnswer signatures.now bytes.now)) }
    ensures only { (answer : Answer) → IsAnswer signatures.now bytes.now answer → MatchResult result
        (λ id. answer ≡ stands (tree_in store.new id.0)) (λ e. IfSome (answer_of e) (λ given. answer ≡ given)) }
    ensures err { OnErr result (store.new ≡ store.old) }
{
    let before = store.len();
    match add_term(alloc, bytes, signatures, store) {
        Ok(tree) => Ok(tree),
        Err(refusal) => {
            store.truncate(before);
            Err(refusal)
        }
    }
}
