//! Groups productions by the nonterminal on their left, and by those on their right.
//!
//! A group has the productions of one nonterminal in order, so that neither counts nor choices look at any others.

ghost use Rattle.std.specs.Prelude.{◌≡◌, ◌<◌, ◌++◌, ◌∷◌, [], All, IfOk, OnOk, length, replicate, slice_index_or, slice_set};
ghost use Rattle.wb_base.specs.Grammar.{IsGrammar};
ghost use Rattle.wb_generate.specs.Inner.Groups.{AddsUses, AreByLeft, AreUses, IsBelow};

use std::alloc::{AllocError, Global};
use std::marker::Model;
use wb_base::{Grammar, Symbol, push};

/// Numbers of productions, in order.
#[derive(Drop)]
pub(crate) struct Group {
    list: Vec<usize>,
}

impl Model for Group {
    ghost use Rattle.std.specs.Prelude.{List, ℕ};

    ghost Value = { List ℕ };

    ghost view = { λ g. g.list.items };
}

impl Group {
    // No production.
    fn new(alloc: Global) -> Group
        ensures { result ≡ [] }
    {
        Group {
            list: Vec::new(alloc),
        }
    }

    // One production more.
    fn push(&mut self, production: usize) -> Result<(), AllocError>
        ensures { OnOk result (self.new ≡ self.old ++ production ∷ []) }
    {
        push(&mut self.list, production)
    }

    // The productions.
    fn as_slice(&self) -> &[usize]
        ensures { result.now ≡ self.now }
    {
        &self.list
    }
}

// The productions of the group at a place.
pub(crate) fn productions_of(groups: &[Group], place: usize) -> &[usize]
    requires { place < length groups.now }
    ensures { result.now ≡ slice_index_or groups.now place [] }
{
    groups[place].as_slice()
}

// The productions with each nonterminal on the left.
pub(crate) fn by_left(alloc: Global, grammar: &Grammar) -> Result<Vec<Group>, AllocError>
    ensures groups { IfOk result (λ groups. AreByLeft grammar.now groups.items) }
    ensures grammar { IfOk result (λ _. IsGrammar grammar.now) }
{
    let mut groups = empty_groups(alloc, grammar.nonterminals())?;
    'productions: for production in 0..grammar.productions() {
        add(&mut groups, grammar.left(production), production)?;
    }
    Ok(groups)
}

// The productions with each nonterminal on the right.
pub(crate) fn uses(alloc: Global, grammar: &Grammar) -> Result<Vec<Group>, AllocError>
    ensures { IfOk result (λ groups. AreUses grammar.now groups.items) }
{
    let mut groups = empty_groups(alloc, grammar.nonterminals())?;
    'productions: for production in 0..grammar.productions() {
        add_uses(&mut groups, grammar.right(production), production)?;
    }
    Ok(groups)
}

// So many groups without productions.
fn empty_groups(alloc: Global, count: usize) -> Result<Vec<Group>, AllocError>
    ensures { IfOk result (λ groups. groups.items ≡ replicate count []) }
{
    let mut groups = Vec::new(alloc);
    'groups: for _group in 0..count {
        push(&mut groups, Group::new(alloc))?;
    }
    Ok(groups)
}

// Adds a production to the group of each nonterminal of its right side.
fn add_uses(groups: &mut Vec<Group>, right: &[Symbol], production: usize) -> Result<(), AllocError>
    requires { All (IsBelow (length groups.old.items)) right.now }
    ensures { OnOk result (AddsUses right.now production groups.old.items groups.new.items) }
{
    'symbols: for &symbol in right {
        add_use(groups, symbol, production)?;
    }
    Ok(())
}

// Adds a production to the group of a symbol of its right side.
fn add_use(groups: &mut Vec<Group>, symbol: Symbol, production: usize) -> Result<(), AllocError>
    requires { IsBelow (length groups.old.items) symbol }
    ensures { OnOk result (AddsUses (symbol ∷ []) production groups.old.items groups.new.items) }
{
    match symbol {
        Symbol::Terminal(_) => Ok(()),
        Symbol::Nonterminal(a) => add(groups, a, production),
    }
}

// Adds a production to the group at a place.
fn add(groups: &mut Vec<Group>, place: usize, production: usize) -> Result<(), AllocError>
    requires { place < length groups.old.items }
    ensures { OnOk result (groups.new.items ≡ slice_set groups.old.items place (slice_index_or groups.old.items place [] ++ production ∷ [])) }
{
    groups[place].push(production)?;
    Ok(())
}
