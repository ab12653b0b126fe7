//! What is next on a text, at a state of the parser?
//!
//! Layout that wins is skipped at the same state. Which forms are considered there lies in the automaton, so no set is asked here. One walk
//! tells what is next and which bytes that rests on.

ghost use Rattle.std.specs.Prelude.{◌≡◌, ◌<◌, ◌≤◌, ◌+◌, ℕ, List, IfSome, IsNone, Some, length, slice_get};
ghost use Rattle.wb_base.specs.declared.symbol.Symbol.{Symbol};
ghost use Rattle.wb_lookahead.specs.Contents.{size_of};
ghost use Rattle.wb_scan_theory.specs.declared.form.Form.{Form};
ghost use Rattle.wb_scan_theory.specs.Parts.{IsPrefixOf};
ghost use Rattle.wb_scan_theory.specs.Tokens.{NextToken};
ghost use Rattle.wb_scan_theory.specs.Examined.{IsExamined, Scans};
ghost use Rattle.wb_scan.specs.declared.scanned.Scanned.TheVariants.{Token};
ghost use Rattle.wb_scan.specs.Scans.{next_in, IsInside};
ghost use Rattle.wb_scan.specs.Inner.Found.{IsEnough, IsOver, IsSought};

use crate::longest::longest;
use crate::unlisted::{last_match, won_at};
use crate::winner::Ranking;
use crate::won::Won;
use crate::word::won;
use crate::{Language, Scanned};

/// What is next on a text at a state from a place on: a token, the end of the text, or nothing.
///
/// Where several forms match one longest text, the one wins that beats each other; a prefixed form beats every bare one. The bytes that
/// are read are those of layout and of the token, and further ones only while a form that is considered may still match.
pub fn scan(language: &Language, state: usize, text: &[u8], at: usize) -> Scanned
    requires state { state < size_of language.now.tables }
    requires at { at ≤ length text.now }
    ensures next { (prefix : List Symbol) → IsPrefixOf language.now.language.grammar language.now.tables state prefix → NextToken language.now.language text.now prefix at (next_in text.now result) }
    ensures inside { IsInside language.now.language.grammar.terminals (length text.now) at result }
{
    scan_examined(language, state, text, at).scanned
}

/// The same as `scan`, laid into the loop of its caller, so that its answer isn't handed on in memory.
#[inline(always)]
pub fn scan_inline(language: &Language, state: usize, text: &[u8], at: usize) -> Scanned
    requires state { state < size_of language.now.tables }
    requires at { at ≤ length text.now }
    ensures next { (prefix : List Symbol) → IsPrefixOf language.now.language.grammar language.now.tables state prefix → NextToken language.now.language text.now prefix at (next_in text.now result) }
    ensures inside { IsInside language.now.language.grammar.terminals (length text.now) at result }
{
    scan_examined(language, state, text, at).scanned
}

/// What is next on a text, and how far it was looked at.
#[derive(Clone, Copy, Debug, PartialEq, Eq)]
pub struct ExaminedScan {
    /// What is next.
    pub scanned: Scanned,
    /// Only bytes before this place were looked at. It is one more than the text's length where the text was seen to its end.
    pub examined: usize,
}

/// What is next on a text at a state from a place on, as `scan` says it, and before which place the bytes were looked at.
///
/// Each text with the same bytes before that place, and no others where its length is less, has the same next at this state and place.
#[inline(always)]
pub fn scan_examined(language: &Language, state: usize, text: &[u8], at: usize) -> ExaminedScan
    requires state { state < size_of language.now.tables }
    requires at { at ≤ length text.now }
    ensures next { (prefix : List Symbol) → IsPrefixOf language.now.language.grammar language.now.tables state prefix → Scans language.now.language text.now prefix result.examined at (next_in text.now result.scanned) }
    ensures inside { IsInside language.now.language.grammar.terminals (length text.now) at result.scanned }
    ensures on { at < result.examined }
    ensures within { result.examined ≤ length text.now + 1 }
{
    let mut place = at;
    let mut examined = at;
    'layout: loop {
        let sought = sought_at(language, state, text, place);
        examined = later(examined, sought.examined);
        match sought.won {
            Won::Token { terminal, prefix } => {
                let scanned = token_at(terminal, place, prefix, sought.end);
                return ExaminedScan { scanned, examined };
            }
            Won::Layout => place = sought.end,
            Won::Nothing => {
                let scanned = over_at(text, place);
                return ExaminedScan { scanned, examined };
            }
        }
    }
}

/// Before which place a scan at a state and a place looks at bytes: the `examined` of `scan_examined`.
pub fn examined(language: &Language, state: usize, text: &[u8], at: usize) -> usize
    requires state { state < size_of language.now.tables }
    requires at { at ≤ length text.now }
    ensures examined { (prefix : List Symbol) → IsPrefixOf language.now.language.grammar language.now.tables state prefix → IsExamined language.now.language text.now prefix at result }
    ensures on { at < result }
    ensures within { result ≤ length text.now + 1 }
{
    scan_examined(language, state, text, at).examined
}

// The later of two places.
fn later(one: usize, other: usize) -> usize
    ensures one { one ≤ result }
    ensures other { other ≤ result }
    ensures within { (end : ℕ) → one ≤ end → other ≤ end → result ≤ end }
{
    if one < other { other } else { one }
}

// The end of the text where it is reached, and nothing elsewhere.
fn over_at(text: &[u8], at: usize) -> Scanned
    requires { at ≤ length text.now }
    ensures { IsOver (length text.now) at result }
{
    if at == text.len() {
        Scanned::End { at }
    } else {
        Scanned::NoToken { at }
    }
}

// What wins from a place on, with the end of the text that it matches, and the place before which the bytes were looked at for it.
#[derive(Clone, Copy)]
struct Sought {
    won: Won,
    end: usize,
    examined: usize,
}

// Looks for what wins from a place on.
#[inline(always)]
fn sought_at(language: &Language, state: usize, text: &[u8], at: usize) -> Sought
    requires state { state < size_of language.now.tables }
    requires at { at ≤ length text.now }
    ensures won { IsSought language.now state text.now at result.end result.won }
    ensures enough { IsEnough language.now state text.now at result.examined }
{
    let reach = longest(&language.automaton, &language.landings, state, text, at);
    let Some(reach) = reach else {
        return sought_beyond(language, state, text, at);
    };
    let Some(won) = won(reach.landing.word) else {
        return sought_beyond(language, state, text, at);
    };
    Sought {
        won,
        end: reach.end,
        examined: reach.examined,
    }
}

// The same from parts, so that an answer which is found by words isn't laid in memory.
#[inline(always)]
fn sought_beyond(language: &Language, state: usize, text: &[u8], at: usize) -> Sought
    requires state { state < size_of language.now.tables }
    requires at { at ≤ length text.now }
    ensures won { IsSought language.now state text.now at result.end result.won }
    ensures enough { IsEnough language.now state text.now at result.examined }
{
    let sought = sought_unlisted(language, state, text, at);
    Sought {
        won: sought.won,
        end: sought.end,
        examined: sought.examined,
    }
}

// The same, where words don't tell it.
#[inline(never)]
fn sought_unlisted(language: &Language, state: usize, text: &[u8], at: usize) -> Sought
    requires state { state < size_of language.now.tables }
    requires at { at ≤ length text.now }
    ensures won { IsSought language.now state text.now at result.end result.won }
    ensures enough { IsEnough language.now state text.now at result.examined }
{
    let last = last_match(&language.automaton, state, text, at);
    if last.end == at {
        return Sought {
            won: Won::Nothing,
            end: at,
            examined: last.examined,
        };
    }
    let ranking = Ranking {
        forms: &language.forms,
        layout: &language.layout,
        preferences: &language.preferences,
    };
    Sought {
        won: won_at(&language.automaton, &ranking, last.state),
        end: last.end,
        examined: last.examined,
    }
}

// The token from a place on, whose lexeme begins after the prefix.
#[inline(always)]
fn token_at(terminal: usize, at: usize, prefix: usize, end: usize) -> Scanned
    requires { at + prefix ≤ end }
    ensures { result ≡ Token terminal at (at + prefix) end }
{
    Scanned::Token {
        terminal,
        at,
        lexeme: at + prefix,
        end,
    }
}
