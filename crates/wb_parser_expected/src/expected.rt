//! Where does a text stop, and what could come there? Leaf after leaf is read until the text is whole or stops.

ghost use Rattle.std.specs.Prelude.{◌≡◌, [], ℕ, List, IfOk};
ghost use Rattle.wb_parser_states.specs.Rules.{AreRules};
ghost use Rattle.wb_parser_expected.specs.Inner.Trials.{AreBelow, HasTables};
ghost use Rattle.wb_parser_expected.specs.Expected.{IsExpected};
ghost use Rattle.wb_parser_expected.specs.Inner.Walks.{HasStopped};

use crate::each::terminals_after;
use crate::leaf::{Round, take_leaf};
use std::alloc::{AllocError, Global};
use wb_parser_states::{Rule, rules_of};
use wb_scan::Language;
use wb_scan_theory::StopKind;

/// Where a text stops, and what could come there.
pub struct Stop {
    /// The place, counted in bytes from 0 on, after the layout that is skipped there.
    pub at: usize,
    /// Why it stops there.
    pub kind: StopKind,
    /// The terminals that could come there, in rising order. The number after all terminals stands for the end of the text.
    pub terminals: Vec<usize>,
}

impl Drop for Stop {
    fn drop(self) {
        let Stop {
            at: _,
            kind: _,
            terminals,
        } = self;
        drop(terminals);
    }
}

/// Where a text stops and what could come there, or nothing where it has a tree.
///
/// A stack of states, one for each root, and two numbers for each production are all that is kept; no tree is built. Each terminal costs the
/// reductions that it asks for. The only error is out of memory.
pub fn stop_of(alloc: Global, language: &Language, text: &[u8]) -> Result<Option<Stop>, AllocError>
    ensures { IfOk result (IsExpected language.now.language text.now) }
{
    let rules = rules_of(alloc, language.grammar())?;
    let mut states = Vec::new(alloc);
    let found = read_all(alloc, language, &rules, text, &mut states);
    drop(states);
    drop(rules);
    found
}

// The same, on an empty stack.
fn read_all(
    alloc: Global,
    language: &Language,
    rules: &[Rule],
    text: &[u8],
    states: &mut Vec<usize>,
) -> Result<Option<Stop>, AllocError>
    requires rules { AreRules language.now.language.grammar rules.now }
    requires states { states.old.items ≡ [] }
    ensures { IfOk result (IsExpected language.now.language text.now) }
{
    let mut extra = Vec::new(alloc);
    let found = read_with(alloc, language, rules, text, states, &mut extra);
    drop(extra);
    found
}

// The same, with a list for what reductions push.
fn read_with(
    alloc: Global,
    language: &Language,
    rules: &[Rule],
    text: &[u8],
    states: &mut Vec<usize>,
    extra: &mut Vec<usize>,
) -> Result<Option<Stop>, AllocError>
    requires rules { AreRules language.now.language.grammar rules.now }
    requires states { states.old.items ≡ [] }
    ensures { IfOk result (IsExpected language.now.language text.now) }
{
    let _tables = language.tables();
    let mut at = 0;
    'leaves: loop {
        match take_leaf(language, rules, text, states, extra, at)? {
            Round::Goes(after) => at = after,
            Round::Whole => return Ok(None),
            Round::Halts(place, kind) => {
                return halted(alloc, language, rules, states, extra, place, kind);
            }
        }
    }
}

// What could come where a text stopped on these states.
fn halted(
    alloc: Global,
    language: &Language,
    rules: &[Rule],
    states: &[usize],
    extra: &mut Vec<usize>,
    place: usize,
    kind: StopKind,
) -> Result<Option<Stop>, AllocError>
    requires tables { HasTables language.now }
    requires rules { AreRules language.now.language.grammar rules.now }
    requires states { AreBelow language.now states.now }
    ensures { (text : List ℕ) → HasStopped language.now text states.now place kind → IfOk result (IsExpected language.now.language text) }
{
    let terminals = terminals_after(alloc, language, rules, states, extra)?;
    Ok(Some(Stop {
        at: place,
        kind,
        terminals,
    }))
}
