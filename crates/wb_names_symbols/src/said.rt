//! What do the items of a file say of nonterminals, beside declaring them?
//!
//! What their forwards may need, and that they are closed. Each is found by one look-up.

ghost use Rattle.std.specs.Prelude.{◌≡◌, ◌++◌, [], IfOk, OnOk, flat_map, map};
ghost use Rattle.wb_syntax.specs.declared.item.Item.{Item as Written};
ghost use Rattle.wb_syntax.specs.declared.pattern.Pattern.{Pattern as Read};
ghost use Rattle.wb_names_theory.specs.Declarations.{closeds};
ghost use Rattle.wb_names_symbols.specs.Inner.Names.{form_closeds, form_forwarder};

use crate::forwards::add_forwarders;
use crate::names::add_name;
use std::alloc::{AllocError, Global};
use wb_names_rows::index::Index;
use wb_syntax::{Item, ItemForm, Pattern, PlainForm};

// By which names the items are found that say what forwards may need, and the names of the closed nonterminals.
pub(crate) struct Said {
    pub(crate) forwarders: Index,
    pub(crate) closed: Index,
}

impl Drop for Said {
    fn drop(self) {
        let Said { forwarders, closed } = self;
        drop(forwarders);
        drop(closed);
    }
}

// What items say.
pub(crate) fn said_of(alloc: Global, items: &[Item<Pattern>]) -> Result<Said, AllocError>
    ensures forwarders { IfOk result (λ said. said.forwarders ≡ map (λ (item : Written Read). form_forwarder item.form) items.now) }
    ensures closed { IfOk result (λ said. said.closed ≡ closeds items.now) }
{
    let mut said = Said {
        forwarders: Index::new(alloc),
        closed: Index::new(alloc),
    };
    match add_said(items, &mut said) {
        Ok(()) => Ok(said),
        Err(error) => {
            drop(said);
            Err(error)
        }
    }
}

// Adds what items say.
fn add_said(items: &[Item<Pattern>], said: &mut Said) -> Result<(), AllocError>
    requires forwarders { said.old.forwarders ≡ [] }
    requires closed { said.old.closed ≡ [] }
    ensures forwarders { OnOk result (said.new.forwarders ≡ map (λ (item : Written Read). form_forwarder item.form) items.now) }
    ensures closed { OnOk result (said.new.closed ≡ closeds items.now) }
{
    add_forwarders(items, &mut said.forwarders)?;
    add_closed_names(items, &mut said.closed)
}

// Adds the names of the nonterminals that items close.
fn add_closed_names(items: &[Item<Pattern>], names: &mut Index) -> Result<(), AllocError>
    ensures { OnOk result (names.new ≡ names.old ++ flat_map (λ (item : Written Read). form_closeds item.form) items.now) }
{
    'items: for item in items {
        add_closed_name(&item.form, names)?;
    }
    Ok(())
}

// Adds the name of the nonterminal that an item closes, where it closes one.
fn add_closed_name(form: &ItemForm<Pattern>, names: &mut Index) -> Result<(), AllocError>
    ensures { OnOk result (names.new ≡ names.old ++ form_closeds form.now) }
{
    match form {
        ItemForm::Plain(plain) => match plain {
            PlainForm::Closed(name) => add_name(name, names),
            _ => Ok(()),
        },
        _ => Ok(()),
    }
}
