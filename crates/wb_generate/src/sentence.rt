//! What text does a number make?

ghost use Rattle.std.specs.Prelude.{◌≡◌, ◌<◌, ◌≤◌, ℕ, IfOk, IfSome, length, slice_index};
ghost use Rattle.wb_scan_theory.specs.Bounds.{HasNoCycle};
ghost use Rattle.wb_generate.specs.Outcomes.{IsOutcome};
ghost use Rattle.wb_generate.specs.Inner.Choices.{AreChoices};

use crate::choices::{Choices, choices_of};
use crate::generated::Generated;
use crate::make::make;
use crate::texts::write;
use std::alloc::{AllocError, Global};
use wb_base::Grammar;
use wb_regex::Regex;

/// The text that the number makes of at most so many leaves, or that each text has more.
///
/// The expressions are those by which terminals are written: that of a marker has its prefix. The layout is the place of one more
/// expression, whose least text comes between two leaves. Whether the text scans to the same leaves isn't promised.
///
/// Least counts are found in about linear time. Then there is a step for each node of the text's tree, which goes over the productions of
/// its nonterminal. Where many nonterminals derive only the empty text, in more than one way, there may be exponentially many such nodes.
pub fn generate(
    alloc: Global,
    grammar: &Grammar,
    terminals: &[Regex],
    layout: Option<usize>,
    number: u64,
    size: u64,
) -> Result<Generated, AllocError>
    requires grammar { HasNoCycle grammar.now }
    requires expressions { grammar.now.terminals ≤ length terminals.now }
    requires layout { IfSome layout (λ place. place < length terminals.now) }
    requires size { size ≤ 100000 }
    ensures { IfOk result (IsOutcome grammar.now terminals.now layout number size) }
{
    let choices = choices_of(alloc, grammar)?;
    let least = start_count(grammar, &choices);
    if size < least {
        return Ok(Generated::NoSentence(least));
    }
    let made = make(alloc, grammar, &choices, size - least, number)?;
    let text = write(alloc, terminals, layout, &made)?;
    Ok(Generated::Text {
        text,
        leaves: made.len() as u64,
    })
}

// The least count of the start.
fn start_count(grammar: &Grammar, choices: &Choices) -> u64
    requires { AreChoices grammar.now 100001 choices.now }
    ensures { result ≡ slice_index choices.now.counts.items grammar.now.start }
{
    choices.least(grammar.start())
}
