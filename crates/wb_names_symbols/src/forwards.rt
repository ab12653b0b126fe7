//! What may the trees to which productions of a nonterminal forward need?
//!
//! At most one item says it of each nonterminal. It is found by one look-up among the names that items say it of.

ghost use Rattle.std.specs.Prelude.{◌≡◌, ◌++◌, ◌∷◌, [], All, Contains, IfOk, OnOk, map};
ghost use Rattle.std.specs.List.{AllZip};
ghost use Rattle.wb_syntax.specs.declared.item.Item.{Item as Written};
ghost use Rattle.wb_syntax.specs.declared.pattern.Pattern.{Pattern as Read};
ghost use Rattle.wb_names_numbers_theory.specs.Files.{forward_needs_of};
ghost use Rattle.wb_names_rows.specs.Nodes.{IsAt};
ghost use Rattle.wb_names_symbols.specs.Inner.Names.{form_forwarder, form_needs};
ghost use Rattle.wb_names_symbols.specs.Inner.Nonterminals.{HasForwards, HasBytes};

use crate::names::add_name;
use crate::nonterminals::Known;
use std::alloc::{AllocError, Global};
use wb_base::{Bytes, Sequence};
use wb_names_rows::index::Index;
use wb_names_rows::plains::written_needs;
use wb_names_rows::scope::Scope;
use wb_syntax::{Item, ItemForm, Pattern, PlainForm};

// Adds for each item the nonterminal of which it says so, or no bytes.
pub(crate) fn add_forwarders(items: &[Item<Pattern>], names: &mut Index) -> Result<(), AllocError>
    ensures { OnOk result (names.new ≡ names.old ++ map (λ (item : Written Read). form_forwarder item.form) items.now) }
{
    'items: for item in items {
        add_forwarder(&item.form, names)?;
    }
    Ok(())
}

// Adds the nonterminal of which an item says so, or no bytes.
fn add_forwarder(form: &ItemForm<Pattern>, names: &mut Index) -> Result<(), AllocError>
    ensures { OnOk result (names.new ≡ names.old ++ form_forwarder form.now ∷ []) }
{
    match form {
        ItemForm::Plain(plain) => match plain {
            PlainForm::ForwardOn { nonterminal, .. } => add_name(nonterminal, names),
            _ => names.add(Bytes::empty()),
        },
        _ => names.add(Bytes::empty()),
    }
}

// The numbers of the attributes that an item allows for the nonterminal of this name; none where no item says so.
pub(crate) fn needs_of(
    alloc: Global,
    known: &Known,
    name: &[u8],
) -> Result<Sequence<usize>, AllocError>
    requires known { HasForwards known.now.scope.now known.now.items.now known.now.forwarders.now }
    requires name { HasBytes name.now }
    ensures { IfOk result (λ made. AllZip (IsAt known.now.scope.now.attributes) (forward_needs_of name.now known.now.items.now) made) }
{
    match known.forwarders.find(name) {
        Some(place) => item_needs(alloc, known.scope, &known.items[place].form),
        None => Ok(Sequence::from_vec(Vec::new(alloc))),
    }
}

// The numbers of the attributes that an item allows.
fn item_needs(
    alloc: Global,
    scope: &Scope,
    form: &ItemForm<Pattern>,
) -> Result<Sequence<usize>, AllocError>
    requires { All (Contains scope.now.attributes) (form_needs form.now) }
    ensures { IfOk result (λ made. AllZip (IsAt scope.now.attributes) (form_needs form.now) made) }
{
    match form {
        ItemForm::Plain(plain) => match plain {
            PlainForm::ForwardOn { needs, .. } => written_needs(alloc, scope, needs.as_slice()),
            _ => Ok(Sequence::from_vec(Vec::new(alloc))),
        },
        _ => Ok(Sequence::from_vec(Vec::new(alloc))),
    }
}
