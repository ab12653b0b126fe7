//! Builds the rows of a file's attributes, occurrences and preferences.
//!
//! Each goes after those that are there. Terminals and nonterminals have rows by group, and are elsewhere.

ghost use Rattle.std.specs.Prelude.{◌∷◌, [], All, Contains, IfOk, OnOk, option_to_list};
ghost use Rattle.std.specs.List.{AllZip};
ghost use Rattle.wb_syntax.specs.Names.{kind_names, needs_names};
ghost use Rattle.wb_names_theory.specs.Declarations.{plain_of, plain_items};
ghost use Rattle.wb_names_rows.specs.Nodes.{IsAt};
ghost use Rattle.wb_names_rows.specs.Plains.{AddsPlains, FormIsThere, IsFoundAttribute, IsFoundOccurrence, PlainIsThere};

use crate::child::written_kind;
use crate::scope::{Scope, number_of};
use std::alloc::{AllocError, Global};
use wb_base::{Bytes, Sequence, push};
use wb_syntax::{Item, ItemForm, NamedKind, Pattern, PlainForm};
use wb_syntax_resolved::{Attribute, Direction, Occurrence, Preference};

/// The rows.
#[derive(Drop)]
pub struct Plains {
    pub attributes: Vec<Attribute>,
    pub occurrences: Vec<Occurrence>,
    pub preferences: Vec<Preference>,
}

/// Adds the rows of what these items declare.
pub fn add_plains(
    alloc: Global,
    scope: &Scope,
    items: &[Item<Pattern>],
    made: &mut Plains,
) -> Result<(), AllocError>
    requires { All (λ item. FormIsThere scope.now item.form) items.now }
    ensures { OnOk result (AddsPlains scope.now (plain_items items.now) made.old made.new) }
{
    for item in items {
        add_form(alloc, scope, &item.form, made)?;
    }
    Ok(())
}

// Adds the row of what an item declares.
fn add_form(
    alloc: Global,
    scope: &Scope,
    form: &ItemForm<Pattern>,
    made: &mut Plains,
) -> Result<(), AllocError>
    requires { FormIsThere scope.now form.now }
    ensures { OnOk result (AddsPlains scope.now (option_to_list (plain_of form.now)) made.old made.new) }
{
    match form {
        ItemForm::Plain(plain) => add_plain(alloc, scope, plain, made),
        _ => Ok(()),
    }
}

// Adds the row of what an item of names alone declares.
fn add_plain(
    alloc: Global,
    scope: &Scope,
    plain: &PlainForm,
    made: &mut Plains,
) -> Result<(), AllocError>
    requires { PlainIsThere scope.now plain.now }
    ensures { OnOk result (AddsPlains scope.now (plain.now ∷ []) made.old made.new) }
{
    match plain {
        PlainForm::Synthesized { name, kind } => push(
            &mut made.attributes,
            attribute(scope, name, Direction::Synthesized, kind)?,
        ),
        PlainForm::Inherited { name, kind } => push(
            &mut made.attributes,
            attribute(scope, name, Direction::Inherited, kind)?,
        ),
        PlainForm::Occurs {
            attribute,
            nonterminal,
            needs,
        } => push(
            &mut made.occurrences,
            occurrence(alloc, scope, attribute, nonterminal, needs)?,
        ),
        PlainForm::Prefer { first, second } => push(
            &mut made.preferences,
            Preference {
                first: number_of(&scope.terminals, first.as_slice()),
                second: number_of(&scope.terminals, second.as_slice()),
            },
        ),
        _ => Ok(()),
    }
}

// The row of an attribute.
fn attribute(
    scope: &Scope,
    name: &Bytes,
    direction: Direction,
    kind: &NamedKind,
) -> Result<Attribute, AllocError>
    requires { All (Contains scope.now.nonterminals) (kind_names kind.now) }
    ensures { IfOk result (IsFoundAttribute scope.now (record { name = name.now; direction = direction; kind = kind.now })) }
{
    Ok(Attribute {
        name: name.copy()?,
        owner: scope.owner,
        direction,
        kind: written_kind(scope, kind),
    })
}

// The row of an occurrence.
fn occurrence(
    alloc: Global,
    scope: &Scope,
    attribute: &Bytes,
    nonterminal: &Bytes,
    needs: &Option<Sequence<Bytes>>,
) -> Result<Occurrence, AllocError>
    requires attribute_there { Contains scope.now.attributes attribute.now }
    requires nonterminal_there { Contains scope.now.nonterminals nonterminal.now }
    requires needs_there { All (Contains scope.now.attributes) (needs_names needs.now) }
    ensures { IfOk result (IsFoundOccurrence scope.now (record { attribute = attribute.now; nonterminal = nonterminal.now; needs = needs.now })) }
{
    Ok(Occurrence {
        owner: scope.owner,
        attribute: number_of(&scope.attributes, attribute.as_slice()),
        nonterminal: number_of(&scope.nonterminals, nonterminal.as_slice()),
        needs: needs_of(alloc, scope, needs)?,
    })
}

// The numbers of attributes in the flow type of an occurrence, none where it has no flow type.
fn needs_of(
    alloc: Global,
    scope: &Scope,
    needs: &Option<Sequence<Bytes>>,
) -> Result<Sequence<usize>, AllocError>
    requires { All (Contains scope.now.attributes) (needs_names needs.now) }
    ensures { IfOk result (λ made. AllZip (IsAt scope.now.attributes) (needs_names needs.now) made) }
{
    match needs {
        Some(names) => written_needs(alloc, scope, names.as_slice()),
        None => Ok(Sequence::from_vec(Vec::new(alloc))),
    }
}

/// The numbers of attributes in a flow type.
pub fn written_needs(
    alloc: Global,
    scope: &Scope,
    names: &[Bytes],
) -> Result<Sequence<usize>, AllocError>
    requires { All (Contains scope.now.attributes) names.now }
    ensures { IfOk result (λ made. AllZip (IsAt scope.now.attributes) names.now made) }
{
    let mut made = Vec::new(alloc);
    for name in names {
        push(&mut made, number_of(&scope.attributes, name.as_slice()))?;
    }
    Ok(Sequence::from_vec(made))
}
