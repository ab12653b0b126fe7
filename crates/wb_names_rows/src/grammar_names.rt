//! Which names do the items of a file say are of the grammar?
//!
//! Starts, extensible nonterminals, and what occurs in concrete productions. What a base has in its grammar is known by its numbers.

ghost use Rattle.std.specs.Prelude.{◌≡◌, ◌++◌, IfOk, OnOk, flat_map};
ghost use Rattle.wb_syntax.specs.declared.item.Item.{Item as Written};
ghost use Rattle.wb_syntax.specs.declared.pattern.Pattern.{Pattern as Read};
ghost use Rattle.wb_syntax.specs.declared.production.Child.{Child as Part};
ghost use Rattle.wb_syntax.specs.Names.{kind_names};
ghost use Rattle.wb_names_numbers_theory.specs.Files.{grammar_names, names_in_concrete};
ghost use Rattle.wb_names_rows.specs.GrammarNames as spec;
ghost use Rattle.wb_names_rows.specs.Inner.GrammarNames.{form_concretes};

use crate::index::Index;
use std::alloc::{AllocError, Global};
use wb_syntax::{Child, Item, ItemForm, NamedKind, Pattern, PlainForm, Production, ProductionRole};

/// The names, by which one is found.
pub fn grammar_names_of(alloc: Global, items: &[Item<Pattern>]) -> Result<Index, AllocError>
    ensures { IfOk result (λ names. names ≡ grammar_names items.now) }
{
    let mut names = Index::new(alloc);
    add_names(items, &mut names)?;
    Ok(names)
}

// Adds the names.
fn add_names(items: &[Item<Pattern>], names: &mut Index) -> Result<(), AllocError>
    ensures { OnOk result (names.new ≡ names.old ++ grammar_names items.now) }
{
    add_starts(items, names)?;
    add_extensibles(items, names)?;
    add_concretes(items, names)
}

// Adds the starts.
fn add_starts(items: &[Item<Pattern>], names: &mut Index) -> Result<(), AllocError>
    ensures { OnOk result (names.new ≡ names.old ++ flat_map (λ (item : Written Read). spec.form_starts item.form) items.now) }
{
    'items: for item in items {
        add_start(&item.form, names)?;
    }
    Ok(())
}

// Adds the start that a form declares.
fn add_start(form: &ItemForm<Pattern>, names: &mut Index) -> Result<(), AllocError>
    ensures { OnOk result (names.new ≡ names.old ++ spec.form_starts form.now) }
{
    match form {
        ItemForm::Plain(plain) => match plain {
            PlainForm::Start(name) => names.add(name.copy()?),
            _ => Ok(()),
        },
        _ => Ok(()),
    }
}

// Adds the extensible nonterminals.
fn add_extensibles(items: &[Item<Pattern>], names: &mut Index) -> Result<(), AllocError>
    ensures { OnOk result (names.new ≡ names.old ++ flat_map (λ (item : Written Read). spec.form_extensibles item.form) items.now) }
{
    'items: for item in items {
        add_extensible(&item.form, names)?;
    }
    Ok(())
}

// Adds the nonterminal that a form makes extensible.
fn add_extensible(form: &ItemForm<Pattern>, names: &mut Index) -> Result<(), AllocError>
    ensures { OnOk result (names.new ≡ names.old ++ spec.form_extensibles form.now) }
{
    match form {
        ItemForm::Plain(plain) => match plain {
            PlainForm::Extensible(name) => names.add(name.copy()?),
            _ => Ok(()),
        },
        _ => Ok(()),
    }
}

// Adds the names in concrete productions.
fn add_concretes(items: &[Item<Pattern>], names: &mut Index) -> Result<(), AllocError>
    ensures { OnOk result (names.new ≡ names.old ++ flat_map (λ (item : Written Read). form_concretes item.form) items.now) }
{
    'items: for item in items {
        add_form(&item.form, names)?;
    }
    Ok(())
}

// Adds the names in the concrete production that a form declares.
fn add_form(form: &ItemForm<Pattern>, names: &mut Index) -> Result<(), AllocError>
    ensures { OnOk result (names.new ≡ names.old ++ form_concretes form.now) }
{
    match form {
        ItemForm::Production { role, production } => add_production(*role, production, names),
        _ => Ok(()),
    }
}

// Adds the names in a production, where it is concrete.
fn add_production(
    role: ProductionRole,
    production: &Production,
    names: &mut Index,
) -> Result<(), AllocError>
    ensures { OnOk result (names.new ≡ names.old ++ names_in_concrete role production.now) }
{
    match role {
        ProductionRole::Abstract => Ok(()),
        ProductionRole::Concrete => {
            names.add(production.left.copy()?)?;
            add_children(production.children.as_slice(), names)
        }
    }
}

// Adds the names of the kinds of children.
fn add_children(children: &[Child], names: &mut Index) -> Result<(), AllocError>
    ensures { OnOk result (names.new ≡ names.old ++ flat_map (λ (c : Part). kind_names c.kind) children.now) }
{
    'children: for child in children {
        add_kind(&child.kind, names)?;
    }
    Ok(())
}

// Adds the name of a kind, where it has one.
fn add_kind(kind: &NamedKind, names: &mut Index) -> Result<(), AllocError>
    ensures { OnOk result (names.new ≡ names.old ++ kind_names kind.now) }
{
    match kind {
        NamedKind::Name(name) => names.add(name.copy()?),
        _ => Ok(()),
    }
}
