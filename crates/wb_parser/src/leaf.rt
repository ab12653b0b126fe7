//! How is one leaf taken? It is scanned at the state after the leaf before it, and shifted after the reductions that it asks for.

ghost use Rattle.std.specs.Prelude.{◌≡◌, ◌<◌, ◌≤◌, ◌++◌, ◌∷◌, [], ℕ, List, IfOk, OnOk, length, slice_range};
ghost use Rattle.wb_base.specs.declared.symbol.Symbol.{Symbol};
ghost use Rattle.wb_values.specs.declared.value.TreeId.{TreeId};
ghost use Rattle.wb_values.specs.declared.value.Value.TheVariants.{Text, Tree as Stored};
ghost use Rattle.wb_scan_theory.specs.Tokens.{NextToken, over};
ghost use Rattle.wb_parser.specs.declared.parsed.Parsed.TheVariants.{Tree};
ghost use Rattle.wb_parser.specs.Parses.{Extends, IsParsed};
ghost use Rattle.wb_parser.specs.Inner.Chains.{AreReductions};
ghost use Rattle.wb_parser.specs.Inner.Steps.{IsAt, IsSound, IsRound, IsReady, StaysSound};

use crate::Parsed;
use crate::chains::Reductions;
use crate::stack::Stack;
use crate::step::reduce_all;
use std::alloc::AllocError;
use wb_parser_states::{Outcome, top};
use wb_scan::{Language, Scanned, scan};
use wb_scan_theory::StopKind;
use wb_values::{PackedValues, TreeStore};

// What became of one leaf.
#[derive(Clone, Copy)]
pub(crate) enum Round {
    // It was shifted, and the text goes on at this place.
    Goes(usize),
    // The text was read, or stops.
    Done(Parsed),
}

// Takes the next leaf of the text, from a place on.
pub(crate) fn take_leaf(
    language: &Language,
    reductions: &mut Reductions,
    text: &[u8],
    stack: &mut Stack,
    store: &mut TreeStore,
    at: usize,
) -> Result<Round, AllocError>
    requires reductions { AreReductions language.now.language.grammar language.now.tables reductions.old }
    requires at { at ≤ length text.now }
    requires sound { IsSound language.now stack.old.states.items stack.old.values store.old }
    ensures round { IfOk result (λ round. IsReady language.now text.now stack.old.states.items stack.old.values store.old at → IsRound language.now text.now stack.new.states.items stack.new.values store.new at round) }
    ensures sound { IfOk result (λ round. StaysSound language.now (length text.now) at stack.new.states.items stack.new.values store.new round) }
    ensures extends { Extends store.old store.new }
    ensures reductions { AreReductions language.now.language.grammar language.now.tables reductions.new }
{
    match scan(language, top(&stack.states), text, at) {
        Scanned::NoToken { at: place } => Ok(Round::Done(Parsed::Stopped {
            at: place,
            kind: StopKind::NoToken,
        })),
        Scanned::End { at: place } => Ok(Round::Done(finish(
            language, reductions, stack, store, place,
        )?)),
        Scanned::Token {
            terminal,
            at: place,
            lexeme,
            end,
        } => {
            match reduce_all(language, reductions, stack, store, terminal)? {
                Outcome::Shifts(target) => {
                    push_leaf(stack, target, &text[lexeme..end])?;
                    Ok(Round::Goes(end))
                }
                _ => Ok(Round::Done(Parsed::Stopped {
                    at: place,
                    kind: StopKind::Unexpected(terminal),
                })),
            }
        }
    }
}

// Pushes a leaf: its state and its lexeme.
fn push_leaf(stack: &mut Stack, state: usize, lexeme: &[u8]) -> Result<(), AllocError>
    ensures states { OnOk result (stack.new.states.items ≡ stack.old.states.items ++ state ∷ []) }
    ensures values { OnOk result (stack.new.values ≡ stack.old.values ++ Text lexeme.now ∷ []) }
{
    stack.states.push(state)?;
    stack.values.push_text(lexeme)?;
    Ok(())
}

// What the text is at its end, where this place is: whole, or stopped there.
fn finish(
    language: &Language,
    reductions: &mut Reductions,
    stack: &mut Stack,
    store: &mut TreeStore,
    place: usize,
) -> Result<Parsed, AllocError>
    requires reductions { AreReductions language.now.language.grammar language.now.tables reductions.old }
    requires sound { IsSound language.now stack.old.states.items stack.old.values store.old }
    ensures parsed { IfOk result (λ parsed. (text : List ℕ) (prefix : List Symbol) (at : ℕ) → NextToken language.now.language text prefix at (over place) → IsAt language.now text stack.old.states.items stack.old.values store.old prefix at → IsParsed language.now.language text store.new parsed) }
    ensures extends { Extends store.old store.new }
    ensures reductions { AreReductions language.now.language.grammar language.now.tables reductions.new }
{
    let end = language.grammar().terminals();
    match reduce_all(language, reductions, stack, store, end)? {
        Outcome::Accepts => Ok(parsed_of(&stack.values, place, end)),
        _ => Ok(Parsed::Stopped {
            at: place,
            kind: StopKind::Unexpected(end),
        }),
    }
}

// The tree that is the one value of the stack.
fn parsed_of(values: &PackedValues, place: usize, end: usize) -> Parsed
    ensures { (id : TreeId) → values.now ≡ Stored id ∷ [] → result ≡ Tree id }
{
    match values.last_tree() {
        Some(tree) => Parsed::Tree(tree),
        None => Parsed::Stopped {
            at: place,
            kind: StopKind::Unexpected(end),
        },
    }
}
