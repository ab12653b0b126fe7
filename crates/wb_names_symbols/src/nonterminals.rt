//! Builds the rows of the nonterminals of a base and of a file.
//!
//! Those of the grammar are kept apart, since they are numbered first. A base's rows stay, as its attributes keep their numbers.

ghost use Rattle.std.specs.Prelude.{◌≡◌, ◌↔◌, ◌⊎◌, ◌<◌, true, Contains, IfOk, OnOk, length};
ghost use Rattle.wb_syntax.specs.Names.{FormHasNames};
ghost use Rattle.wb_names_theory.specs.Declarations.{closeds, nonterminals};
ghost use Rattle.wb_names_numbers_theory.specs.Files.{IsInGrammar, grammar_names};
ghost use Rattle.wb_names_rows.specs.Marks.{IsMarked};
ghost use Rattle.wb_names_symbols.specs.Lent.{lent_file};
ghost use Rattle.wb_names_symbols.specs.Right.{IsRight};
ghost use Rattle.wb_names_symbols.specs.Inner.Nonterminals as spec;

use crate::forwards::needs_of;
use crate::joined::join;
use crate::lent::Lent;
use crate::said::said_of;
use std::alloc::{AllocError, Global};
use wb_base::{Bytes, Sequence, push};
use wb_names_rows::grammar_names::grammar_names_of;
use wb_names_rows::in_grammar::base_flags;
use wb_names_rows::index::Index;
use wb_names_rows::scope::Scope;
use wb_syntax::{Item, ItemForm, Pattern, PlainForm};
use wb_syntax_resolved::Nonterminal;

/// Those of the grammar, and the others.
pub struct Nonterminals {
    pub of_grammar: Vec<Nonterminal>,
    pub others: Vec<Nonterminal>,
}

impl Drop for Nonterminals {
    fn drop(self) {
        let Nonterminals { of_grammar, others } = self;
        drop(of_grammar);
        drop(others);
    }
}

// What rows of declared nonterminals read: names of the grammar, by which names the items are found that say what forwards may need, and
// those of the closed ones.
#[derive(Clone, Copy)]
pub(crate) struct Known<'a> {
    pub(crate) scope: &'a Scope,
    pub(crate) items: &'a [Item<Pattern>],
    pub(crate) grammar: &'a Index,
    pub(crate) forwarders: &'a Index,
    pub(crate) closed: &'a Index,
}

// Adds those of the base, and then those that items declare, in one list, and answers how many are of the grammar.
pub(crate) fn add_nonterminals(
    alloc: Global,
    file: &Lent,
    scope: &Scope,
    made: &mut Nonterminals,
) -> Result<usize, AllocError>
    requires right { IsRight (lent_file file.now) }
    requires owner { scope.now.owner ≡ file.now.owner }
    requires attributes { scope.now.attributes ≡ spec.attribute_names (lent_file file.now) }
    ensures { IfOk result (λ count. spec.AddsJoined (lent_file file.now) scope.now.attributes count made.old made.new) }
{
    let grammar = grammar_names_of(alloc, file.items)?;
    let added = add_both(alloc, file, scope, &grammar, made);
    drop(grammar);
    added
}

// Adds both, where these are the names of the grammar.
fn add_both(
    alloc: Global,
    file: &Lent,
    scope: &Scope,
    grammar: &Index,
    made: &mut Nonterminals,
) -> Result<usize, AllocError>
    requires right { IsRight (lent_file file.now) }
    requires owner { scope.now.owner ≡ file.now.owner }
    requires attributes { scope.now.attributes ≡ spec.attribute_names (lent_file file.now) }
    requires grammar { grammar.now ≡ grammar_names file.now.items.now }
    ensures { IfOk result (λ count. spec.AddsJoined (lent_file file.now) scope.now.attributes count made.old made.new) }
{
    add_base(alloc, file, grammar, made)?;
    add_own(alloc, file, scope, grammar, made)?;
    join(&mut made.of_grammar, &mut made.others)
}

// Adds those of the base.
fn add_base(
    alloc: Global,
    file: &Lent,
    grammar: &Index,
    made: &mut Nonterminals,
) -> Result<(), AllocError>
    requires right { IsRight (lent_file file.now) }
    requires grammar { grammar.now ≡ grammar_names file.now.items.now }
    ensures { OnOk result (spec.AddsApart (λ x. IsInGrammar (lent_file file.now) x.name) spec.IsSame file.now.base.now.attributes.nonterminals made.old made.new) }
{
    let flags = base_flags(alloc, file.base)?;
    let added = add_rows(alloc, file, &flags, grammar, made);
    drop(flags);
    added
}

// Adds those of the base, which these flags tell apart.
fn add_rows(
    alloc: Global,
    file: &Lent,
    flags: &[bool],
    grammar: &Index,
    made: &mut Nonterminals,
) -> Result<(), AllocError>
    requires flags { spec.AreFlags file.now.base.now flags.now }
    requires count { length flags.now ≡ length file.now.base.now.attributes.nonterminals }
    requires grammar { grammar.now ≡ grammar_names file.now.items.now }
    ensures { OnOk result (spec.AddsApart (λ x. IsInGrammar (lent_file file.now) x.name) spec.IsSame file.now.base.now.attributes.nonterminals made.old made.new) }
{
    let rows = file.base.attributes.parts().nonterminals.as_slice();
    for number in 0..rows.len() {
        let row = &rows[number];
        let leads = is_marked_or_there(flags, number, grammar, row.name.as_slice());
        add_copy(alloc, leads, row, made)?;
    }
    Ok(())
}

// Whether a number has a flag, or a name is there.
fn is_marked_or_there(flags: &[bool], number: usize, names: &Index, name: &[u8]) -> bool
    requires { number < length flags.now }
    ensures { (result ≡ true) ↔ (IsMarked flags.now number ⊎ Contains names.now name.now) }
{
    flags[number] || is_there(names, name)
}

// Whether a name is there.
fn is_there(names: &Index, name: &[u8]) -> bool
    ensures { (result ≡ true) ↔ Contains names.now name.now }
{
    match names.find(name) {
        Some(_) => true,
        None => false,
    }
}

// Adds a row.
fn add(leads: bool, row: Nonterminal, made: &mut Nonterminals) -> Result<(), AllocError>
    ensures { OnOk result (spec.AddsRow leads row made.old made.new) }
{
    if leads {
        push(&mut made.of_grammar, row)
    } else {
        push(&mut made.others, row)
    }
}

// Adds an equal row.
fn add_copy(
    alloc: Global,
    leads: bool,
    row: &Nonterminal,
    made: &mut Nonterminals,
) -> Result<(), AllocError>
    ensures { OnOk result (spec.AddsRow leads row.now made.old made.new) }
{
    let name = row.name.copy()?;
    match Vec::from_slice(alloc, row.forward_needs.as_slice()) {
        Ok(needs) => add(
            leads,
            Nonterminal {
                name,
                owner: row.owner,
                closed: row.closed,
                forward_needs: Sequence::from_vec(needs),
            },
            made,
        ),
        Err(error) => {
            drop(name);
            Err(error)
        }
    }
}

// Adds those that items declare. None of them is of the base's grammar, since none has a name of the base's.
fn add_own(
    alloc: Global,
    file: &Lent,
    scope: &Scope,
    grammar: &Index,
    made: &mut Nonterminals,
) -> Result<(), AllocError>
    requires right { IsRight (lent_file file.now) }
    requires attributes { scope.now.attributes ≡ spec.attribute_names (lent_file file.now) }
    requires grammar { grammar.now ≡ grammar_names file.now.items.now }
    ensures { OnOk result (spec.AddsApart (Contains (grammar_names file.now.items.now)) (spec.IsDeclaredRow scope.now.owner file.now.items.now scope.now.attributes) (nonterminals file.now.items.now) made.old made.new) }
{
    let said = said_of(alloc, file.items)?;
    let known = Known {
        scope,
        items: file.items,
        grammar,
        forwarders: &said.forwarders,
        closed: &said.closed,
    };
    let added = add_declared(alloc, &known, made);
    drop(said);
    added
}

// Adds those that items declare, item by item.
fn add_declared(alloc: Global, known: &Known, made: &mut Nonterminals) -> Result<(), AllocError>
    requires known { spec.HasForwards known.now.scope.now known.now.items.now known.now.forwarders.now }
    requires closed { known.now.closed.now ≡ closeds known.now.items.now }
    ensures { OnOk result (spec.AddsApart (Contains known.now.grammar.now) (spec.IsDeclaredRow known.now.scope.now.owner known.now.items.now known.now.scope.now.attributes) (nonterminals known.now.items.now) made.old made.new) }
{
    for item in known.items {
        add_form(alloc, known, &item.form, made)?;
    }
    Ok(())
}

// Adds the one that an item declares, where it declares one.
fn add_form(
    alloc: Global,
    known: &Known,
    form: &ItemForm<Pattern>,
    made: &mut Nonterminals,
) -> Result<(), AllocError>
    requires known { spec.HasForwards known.now.scope.now known.now.items.now known.now.forwarders.now }
    requires closed { known.now.closed.now ≡ closeds known.now.items.now }
    requires names { FormHasNames form.now }
    ensures { OnOk result (spec.AddsApart (Contains known.now.grammar.now) (spec.IsDeclaredRow known.now.scope.now.owner known.now.items.now known.now.scope.now.attributes) (spec.form_nonterminals form.now) made.old made.new) }
{
    match form {
        ItemForm::Plain(plain) => match plain {
            PlainForm::Nonterminal(name) => {
                let row = declared_row(alloc, known, name)?;
                add(is_there(known.grammar, name.as_slice()), row, made)
            }
            _ => Ok(()),
        },
        _ => Ok(()),
    }
}

// The row of a nonterminal that is declared.
fn declared_row(alloc: Global, known: &Known, name: &Bytes) -> Result<Nonterminal, AllocError>
    requires known { spec.HasForwards known.now.scope.now known.now.items.now known.now.forwarders.now }
    requires closed { known.now.closed.now ≡ closeds known.now.items.now }
    requires name { spec.HasBytes name.now }
    ensures { IfOk result (spec.IsDeclaredRow known.now.scope.now.owner known.now.items.now known.now.scope.now.attributes name.now) }
{
    let name_copy = name.copy()?;
    match needs_of(alloc, known, name.as_slice()) {
        Ok(forward_needs) => Ok(Nonterminal {
            name: name_copy,
            owner: known.scope.owner,
            closed: is_there(known.closed, name.as_slice()),
            forward_needs,
        }),
        Err(error) => {
            drop(name_copy);
            Err(error)
        }
    }
}
