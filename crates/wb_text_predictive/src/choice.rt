//! Which rule of a nonterminal is chosen at a kind, and how does its right side go onto the stack?
//!
//! Rules are few, so they are tried in their order. What the stack stands for is in `machine`.

ghost use Rattle.std.specs.Prelude.{◌≡◌, ◌++◌, reverse, OnOk, MatchOption, Some, None};
ghost use Rattle.wb_text_predictive.specs.Kinds.{is_member};
ghost use Rattle.wb_text_predictive.specs.Choice.{choose};
ghost use Rattle.wb_text_predictive.specs.Rules.{rights_of, kinds_of};

use crate::symbol::{Rule, Symbol};
use std::alloc::AllocError;

// Whether the kind is among these.
fn has_kind<K: Copy + PartialEq>(kinds: &[K], kind: K) -> bool
    ensures { result ≡ is_member K.eq kind kinds.now }
{
    for other in kinds {
        if *other == kind {
            return true;
        }
    }
    false
}

/// The right side of the first of these rules that is chosen at the kind.
pub fn chosen<'t, K: Copy + PartialEq, N, A>(
    rules: &'t [Rule<'t, K, N, A>],
    kind: K,
) -> Option<&'t [Symbol<K, N, A>]>
    ensures { let found = choose K.eq (rights_of rules.now) (kinds_of rules.now) kind in
        MatchOption result (found ≡ None) (λ right. found ≡ Some right.now) }
{
    for rule in rules {
        if has_kind(rule.kinds, kind) {
            return Some(rule.right);
        }
    }
    None
}

/// Puts the symbols of a row onto the stack, the first on top.
pub fn push_row<S: Copy>(stack: &mut Vec<S>, row: &[S]) -> Result<(), AllocError>
    ensures ok { OnOk result (reverse stack.new.items ≡ row.now ++ reverse stack.old.items) }
{
    let mut left = row.len();
    while left > 0 {
        left -= 1;
        stack.push(row[left])?;
    }
    Ok(())
}
