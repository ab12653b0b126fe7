//! Parses a text in the language of a host with extensions, and prints its tree.

ghost use Rattle.std.specs.Prelude.{◌≡◌, ◌<◌, ℕ, List, IfOk, length};
ghost use Rattle.wb_compose.specs.Composed.{IsComposed};
ghost use Rattle.wb_scan_theory.specs.Languages.{LanguageView};
ghost use Rattle.wb_session.specs.Parses.{IsParsed, IsTreeOf};
ghost use Rattle.wb_compose_texts.specs.Answers.{IsAnswerIn, IsUnitedTextAnswer};
ghost use Rattle.wb_compose_texts.specs.Names.{name_at, stop_shown, terminals_of};
ghost use Rattle.wb_compose_texts.specs.Signatures.{signatures_of};
ghost use Rattle.wb_compose_texts.specs.Unions.{all_resolved};

use crate::TextAnswer;
use crate::names::{name_of, united_terminals};
use crate::signatures::united_signatures;
use std::alloc::{AllocError, Global};
use wb_base::{Bytes, Sequence};
use wb_compose::{CertifiedExtension, CertifiedHost, Composed};
use wb_report::ShownStop;
use wb_scan_theory::StopKind;
use wb_session::{Parsed, parse};
use wb_terms::{PrintRefusal, print_value};
use wb_values::{Signatures, TreeId, TreeStore, Value};

/// The printed tree of a text in the language that is composed of a host and extensions, or why it has none.
///
/// The time is about linear in the text and the printed tree, besides that for names and signatures; no clause bounds it.
pub fn united_text_answer(
    alloc: Global,
    host: &CertifiedHost,
    extensions: &[CertifiedExtension],
    composed: &Composed,
    text: &[u8],
) -> Result<TextAnswer, AllocError>
    requires { IsComposed host.now extensions.now composed.now.language.language composed.now.withdrawn.items }
    ensures { IfOk result (IsUnitedTextAnswer host.now.resolved host.now.operations (all_resolved extensions.now) text.now) }
{
    let mut store = TreeStore::new(alloc);
    let language = composed.language();
    let _grammar = language.grammar();
    let parsed = parse(alloc, language, text, &mut store)?;
    united_parsed_answer(alloc, host, extensions, &store, parsed)
}

/// Why a text stops, by names.
pub fn united_stop(
    alloc: Global,
    host: &CertifiedHost,
    extensions: &[CertifiedExtension],
    kind: StopKind,
) -> Result<ShownStop, AllocError>
    ensures { IfOk result (λ shown. shown ≡ stop_shown (terminals_of host.now.resolved (all_resolved extensions.now)) kind) }
{
    match kind {
        StopKind::NoToken => Ok(ShownStop::NoToken),
        StopKind::Unexpected(terminal) => {
            let name = united_name(alloc, host, extensions, terminal)?;
            Ok(ShownStop::Unexpected(name))
        }
    }
}

/// The name of a terminal of the union, or of the end of a text.
pub fn united_name(
    alloc: Global,
    host: &CertifiedHost,
    extensions: &[CertifiedExtension],
    terminal: usize,
) -> Result<Bytes, AllocError>
    ensures { IfOk result (λ name. name ≡ name_at (terminals_of host.now.resolved (all_resolved extensions.now)) terminal) }
{
    let names = united_terminals(alloc, host, extensions)?;
    name_of(alloc, names.as_slice(), terminal)
}

/// The answer for what a text was parsed to in a language of the union.
pub fn united_parsed_answer(
    alloc: Global,
    host: &CertifiedHost,
    extensions: &[CertifiedExtension],
    store: &TreeStore,
    parsed: Parsed,
) -> Result<TextAnswer, AllocError>
    requires { (l : LanguageView) × ((text : List ℕ) × IsParsed l text store.now parsed) }
    ensures { (l : LanguageView) (text : List ℕ) → IsParsed l text store.now parsed → IfOk result (IsAnswerIn (terminals_of host.now.resolved (all_resolved extensions.now)) (signatures_of host.now.resolved (all_resolved extensions.now)) l text) }
{
    match parsed {
        Parsed::Tree(tree) => {
            let signatures = united_signatures(alloc, host, extensions)?;
            printed(alloc, &signatures, store, tree)
        }
        Parsed::Stopped { at, kind } => {
            let stop = united_stop(alloc, host, extensions, kind)?;
            Ok(TextAnswer::Stopped { at, stop })
        }
    }
}

// The printed tree, unless it is too long.
fn printed(
    alloc: Global,
    signatures: &Signatures,
    store: &TreeStore,
    tree: TreeId,
) -> Result<TextAnswer, AllocError>
    requires { tree.0 < length store.now }
    ensures { (names : List (List ℕ)) (l : LanguageView) (text : List ℕ) → IsTreeOf l text store.now tree.0 → IfOk result (IsAnswerIn names signatures.now l text) }
{
    match print_value(alloc, &Value::Tree(tree), signatures, store) {
        Ok(text) => Ok(TextAnswer::Tree(Sequence::from_vec(text))),
        Err(PrintRefusal::TooLong) => Ok(TextAnswer::TooLong),
        Err(PrintRefusal::NoMemory(error)) => Err(error),
    }
}
