//! How is the leaf at a checkpoint taken? As the parser takes it: it is scanned at the state on top, where it isn't known, and shifted after
//! the reductions that it asks for.

ghost use Rattle.std.specs.Prelude.{◌≡◌, ◌<◌, ◌≤◌, ◌-◌, ℕ, List, [], IfOk, IfSome, Some, length, slice_get};
ghost use Rattle.wb_scan_theory.specs.Tokens.{over};
ghost use Rattle.wb_scan_theory.specs.Examined.{Scans};
ghost use Rattle.wb_grammar_theory.specs.Trees.{Forest, leaves, nothing, symbols};
ghost use Rattle.wb_values.specs.declared.value.TreeId.{TreeId};
ghost use Rattle.wb_values.specs.declared.value.Value.TheVariants.{Tree as Stored};
ghost use Rattle.wb_parser.specs.declared.parsed.Parsed.TheVariants.{Tree};
ghost use Rattle.wb_parser.specs.Parses.{IsParsed};
ghost use Rattle.wb_parser_states.specs.Rules.{AreRules};
ghost use Rattle.wb_session_theory.specs.Runs.{Reads};
ghost use Rattle.wb_session.specs.declared.place.LeafPlace.{LeafPlace as Place};
ghost use Rattle.wb_session.specs.Places.{HasPlaces};
ghost use Rattle.wb_session.specs.Stacks.{roots_of, IsSound, IsStack};
ghost use Rattle.wb_session.specs.Kept.{AreScanned, IsKept};
ghost use Rattle.wb_session.specs.Inner.Steps.{Grows};
ghost use Rattle.wb_session.specs.Inner.Rounds.{IsRound, IsTokenAt, IsWithin, GoesFurther};

use crate::LeafPlace;
use crate::checkpoint::Checkpoint;
use crate::older::Ahead;
use crate::stacks::{Entry, Likely, Stacks, push_lexeme, state_at};
use crate::step::reduce_all;
use std::alloc::AllocError;
use wb_parser::{Parsed, StopKind};
use wb_parser_states::{Outcome, Rule};
use wb_scan::{Language, Scanned, scan_examined};

// What became of one leaf.
#[derive(Clone, Copy)]
pub(crate) enum Round {
    // It was shifted, and the text goes on at this checkpoint; and it lies here.
    Goes(Checkpoint, LeafPlace),
    // The text was read, or stops.
    Done(Parsed),
}

// Takes the leaf at a checkpoint, which is this one where it is known.
pub(crate) fn take_beside(
    language: &Language,
    rules: &[Rule],
    text: &[u8],
    stacks: &mut Stacks,
    from: Checkpoint,
    ahead: Option<Ahead>,
    older: &[Entry],
) -> Result<Round, AllocError>
    requires rules { AreRules language.now.language.grammar rules.now }
    requires sound { IsSound language.now (roots_of stacks.old) }
    requires link { from.link ≤ length stacks.old.entries.items }
    requires at { from.at ≤ length text.now }
    requires fits { IfSome ahead (IsWithin language.now.language text.now from.at) }
    ensures round { IfOk result (λ round. (places : List Place) (k : IsKept language.now text.now (roots_of stacks.old) places from) → IfSome ahead (IsTokenAt language.now.language text.now (symbols k.stack) from.at) → IsRound language.now text.now (roots_of stacks.new) places round) }
    ensures grows { Grows language.now (roots_of stacks.old) (roots_of stacks.new) }
    ensures further { IfOk result (GoesFurther from) }
{
    match ahead {
        Some(token) => {
            let likely = Likely {
                entries: older,
                first: token.entry,
            };
            let round = take_token(language, rules, text, stacks, from, token, likely)?;
            Ok(round)
        }
        None => {
            let round = take_leaf(language, rules, text, stacks, from)?;
            Ok(round)
        }
    }
}

// Takes the leaf at a checkpoint.
fn take_leaf(
    language: &Language,
    rules: &[Rule],
    text: &[u8],
    stacks: &mut Stacks,
    from: Checkpoint,
) -> Result<Round, AllocError>
    requires rules { AreRules language.now.language.grammar rules.now }
    requires sound { IsSound language.now (roots_of stacks.old) }
    requires link { from.link ≤ length stacks.old.entries.items }
    requires at { from.at ≤ length text.now }
    ensures round { IfOk result (λ round. (places : List Place) → IsKept language.now text.now (roots_of stacks.old) places from → IsRound language.now text.now (roots_of stacks.new) places round) }
    ensures grows { Grows language.now (roots_of stacks.old) (roots_of stacks.new) }
    ensures further { IfOk result (GoesFurther from) }
{
    let _tables = language.tables();
    let ahead = scan_examined(
        language,
        state_at(&stacks.entries, from.link),
        text,
        from.at,
    );
    match ahead.scanned {
        Scanned::NoToken { at } => Ok(Round::Done(Parsed::Stopped {
            at,
            kind: StopKind::NoToken,
        })),
        Scanned::End { at } => {
            let parsed = finish(language, rules, stacks, from.link, at)?;
            Ok(Round::Done(parsed))
        }
        Scanned::Token {
            terminal,
            at,
            lexeme,
            end,
        } => {
            let token = Ahead {
                place: LeafPlace {
                    terminal,
                    begin: at,
                    lexeme,
                    end,
                },
                reach: ahead.examined,
                entry: 0,
            };
            let likely = Likely {
                entries: &[],
                first: 0,
            };
            let round = take_token(language, rules, text, stacks, from, token, likely)?;
            Ok(round)
        }
    }
}

// Takes a token that is next at a checkpoint.
fn take_token(
    language: &Language,
    rules: &[Rule],
    text: &[u8],
    stacks: &mut Stacks,
    from: Checkpoint,
    token: Ahead,
    likely: Likely,
) -> Result<Round, AllocError>
    requires rules { AreRules language.now.language.grammar rules.now }
    requires sound { IsSound language.now (roots_of stacks.old) }
    requires link { from.link ≤ length stacks.old.entries.items }
    requires fits { IsWithin language.now.language text.now from.at token }
    ensures round { IfOk result (λ round. (places : List Place) (k : IsKept language.now text.now (roots_of stacks.old) places from) → IsTokenAt language.now.language text.now (symbols k.stack) from.at token → IsRound language.now text.now (roots_of stacks.new) places round) }
    ensures grows { Grows language.now (roots_of stacks.old) (roots_of stacks.new) }
    ensures further { IfOk result (GoesFurther from) }
{
    let _tables = language.tables();
    let place = token.place;
    let settled = reduce_all(language, rules, stacks, from.link, place.terminal, likely)?;
    match settled.outcome {
        Outcome::Shifts(state) => {
            let entry = Entry {
                state,
                below: settled.link,
                tree: 0,
            };
            let link = push_lexeme(stacks, entry, &text[place.lexeme..place.end])?;
            let reach = later(from.reach, token.reach);
            let further = later(reach, place.end);
            let next = Checkpoint {
                at: place.end,
                reach: further,
                link,
            };
            Ok(Round::Goes(next, place))
        }
        _ => Ok(Round::Done(Parsed::Stopped {
            at: place.begin,
            kind: StopKind::Unexpected(place.terminal),
        })),
    }
}

// The later of two places.
fn later(one: usize, other: usize) -> usize
    ensures one { one ≤ result }
    ensures other { other ≤ result }
{
    if one < other { other } else { one }
}

// What the text is at its end, where this place is: whole, or stopped there.
fn finish(
    language: &Language,
    rules: &[Rule],
    stacks: &mut Stacks,
    link: usize,
    place: usize,
) -> Result<Parsed, AllocError>
    requires rules { AreRules language.now.language.grammar rules.now }
    requires sound { IsSound language.now (roots_of stacks.old) }
    requires link { link ≤ length stacks.old.entries.items }
    ensures parsed { IfOk result (λ parsed. (text : List ℕ) (e at : ℕ) (stack : Forest) → IsStack language.now (roots_of stacks.old) link stack → Reads language.now.language text e [] nothing 0 stack at → Scans language.now.language text (symbols stack) e at (over place) → IsParsed language.now.language text stacks.new.store parsed) }
    ensures placed { IfOk result (λ parsed. (text : List ℕ) (e at : ℕ) (stack : Forest) (places : List Place) → IsStack language.now (roots_of stacks.old) link stack → Reads language.now.language text e [] nothing 0 stack at → AreScanned language.now.language text e [] 0 (leaves [] stack) places (symbols stack) at → Scans language.now.language text (symbols stack) e at (over place) → HasPlaces language.now.language text places) }
    ensures grows { Grows language.now (roots_of stacks.old) (roots_of stacks.new) }
{
    let end = language.grammar().terminals();
    let likely = Likely {
        entries: &[],
        first: 0,
    };
    let settled = reduce_all(language, rules, stacks, link, end, likely)?;
    let stopped = Parsed::Stopped {
        at: place,
        kind: StopKind::Unexpected(end),
    };
    match settled.outcome {
        Outcome::Accepts => Ok(whole(stacks, settled.link, stopped)),
        _ => Ok(stopped),
    }
}

// The tree on top of a stack, and something else where there is none.
fn whole(stacks: &Stacks, link: usize, other: Parsed) -> Parsed
    requires same { length stacks.now.values ≡ length stacks.now.entries.items }
    requires link { link ≤ length stacks.now.entries.items }
    ensures { (id : TreeId) → 0 < link → slice_get stacks.now.values (link - 1) ≡ Some (Stored id) → result ≡ Tree id }
{
    if link == 0 {
        return other;
    }
    match stacks.values.tree(link - 1) {
        Some(tree) => Parsed::Tree(tree),
        None => other,
    }
}
