//! Does an action fit into a row of codes? There is one for each terminal, and a second one is a conflict.

ghost use Rattle.std.specs.Prelude.{◌≡◌, ◌≤◌, ◌<◌, ◌↔◌, IsTrue, IfErr, OnOk, length, map};
ghost use Rattle.wb_termset.specs.Sets.{IsMember};
ghost use Rattle.wb_lookahead.specs.Codes.{action_at};
ghost use Rattle.wb_lookahead.specs.Tables.{ComesBefore};
ghost use Rattle.wb_lookahead.specs.Inner.Rows.{IsClash, IsReduction, Puts, ShowsBoth};

use crate::action::{Action, TableRefusal};
use crate::codes::action_from;
use wb_base::Grammar;
use wb_termset::TermSet;

// Puts the action of a code on each member of a set, or refuses where another stands.
pub(crate) fn put_all(
    state: usize,
    set: &TermSet,
    code: u32,
    row: &mut Vec<u32>,
) -> Result<(), TableRefusal>
    requires { length row.old.items ≡ length set.now }
    ensures ok { OnOk result (Puts (map action_at row.old.items) (IsMember set.now) (action_at code) (map action_at row.new.items)) }
    ensures refused { IfErr result (IsClash state (map action_at row.old.items) (IsMember set.now) (action_at code)) }
{
    let mut from = 0;
    'members: while let Some(terminal) = set.next_member(from) {
        put(state, terminal, code, row)?;
        from = terminal + 1;
    }
    Ok(())
}

// Puts the action of a code on a terminal, or refuses where another stands.
pub(crate) fn put(
    state: usize,
    terminal: usize,
    code: u32,
    row: &mut Vec<u32>,
) -> Result<(), TableRefusal>
    requires { terminal < length row.old.items }
    ensures ok { OnOk result (Puts (map action_at row.old.items) (λ t. t ≡ terminal) (action_at code) (map action_at row.new.items)) }
    ensures refused { IfErr result (IsClash state (map action_at row.old.items) (λ t. t ≡ terminal) (action_at code)) }
{
    let action = action_from(code);
    let there = action_from(row[terminal]);
    if there == action {
        return Ok(());
    }
    if there != Action::None {
        return Err(conflict(state, terminal, there, action));
    }
    row[terminal] = code;
    Ok(())
}

// The refusal that shows two actions in order.
fn conflict(state: usize, terminal: usize, one: Action, other: Action) -> TableRefusal
    ensures { ShowsBoth state terminal one other result }
{
    if is_before(one, other) {
        return TableRefusal::Conflict {
            state,
            terminal,
            first: one,
            second: other,
        };
    }
    TableRefusal::Conflict {
        state,
        terminal,
        first: other,
        second: one,
    }
}

// Whether the one action comes before the other.
fn is_before(one: Action, other: Action) -> bool
    ensures { IsTrue result ↔ ComesBefore one other }
{
    match one {
        Action::Shift(_) => match other {
            Action::Reduce(_) => true,
            Action::Accept => true,
            Action::Shift(_) => false,
            Action::None => false,
        },
        Action::Reduce(production) => match other {
            Action::Reduce(second) => production < second,
            Action::Accept => true,
            Action::Shift(_) => false,
            Action::None => false,
        },
        Action::Accept => false,
        Action::None => false,
    }
}

// The reduction by a production.
pub(crate) fn reduction(grammar: &Grammar, production: usize) -> Action
    requires { production ≤ length grammar.now.productions }
    ensures { IsReduction (length grammar.now.productions) production result }
{
    if production < grammar.productions() {
        Action::Reduce(production)
    } else {
        Action::Accept
    }
}
