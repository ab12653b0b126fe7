//! How is what was met in a term kept?
//!
//! In one flat list, whose last entries the actions of the table change. What entries there are is in `event`.

ghost use Rattle.std.specs.Prelude.{◌≡◌, ◌∷◌, [], OnOk, IfOk, MatchOption, reverse};
ghost use Rattle.wb_terms.specs.Inner.Events.{with_owner, qualified, qualified_name};

use crate::event::Event;
use std::alloc::{AllocError, Global};
use std::marker::Model;
use wb_base::{Bytes, push};

// What was met in a term, seen from the last to the first.
#[derive(Debug, Drop)]
pub(crate) struct Events {
    items: Vec<Event>,
}

impl Model for Events {
    ghost use Rattle.std.specs.Prelude.{List, reverse};
    ghost use Rattle.wb_terms.specs.declared.event.Event.{Event};

    ghost Value = { List Event };

    ghost view = { λ e. reverse e.items.items };
}

// The name of an owner's production.
fn qualified_name(alloc: Global, owner: &[u8], name: &[u8]) -> Result<Bytes, AllocError>
    ensures ok { IfOk result (λ made. made ≡ qualified_name owner.now name.now) }
{
    let mut text = Vec::new(alloc);
    text.extend_from_slice(owner)?;
    text.push(b':')?;
    text.extend_from_slice(name)?;
    Bytes::from_slice(alloc, &text)
}

impl Events {
    // Nothing yet.
    pub(crate) fn new(alloc: Global) -> Events
        ensures { result ≡ [] }
    {
        Events {
            items: Vec::new(alloc),
        }
    }

    // One event more, which is the last.
    pub(crate) fn push(&mut self, event: Event) -> Result<(), AllocError>
        ensures ok { OnOk result (self.new ≡ event ∷ self.old) }
    {
        push(&mut self.items, event)
    }

    // The last event, taken away.
    fn pop(&mut self) -> Option<Event>
        ensures { MatchOption result
            ((self.old ≡ []) × (self.new ≡ []))
            (λ top. self.old ≡ top ∷ self.new) }
    {
        self.items.pop()
    }

    // The name that was met last is that of an owner, before this name.
    fn with_owner(&mut self, alloc: Global, name: Bytes) -> Result<(), AllocError>
        ensures ok { OnOk result (self.new ≡ with_owner name self.old) }
    {
        match self.pop() {
            None => Ok(()),
            Some(event) => match event {
                Event::Begin { name: owner, at } => {
                    let whole = qualified_name(alloc, owner.as_slice(), name.as_slice())?;
                    self.push(Event::Begin { name: whole, at })
                }
                Event::Int { value: _, at: _ } => Ok(()),
                Event::Bool { value: _, at: _ } => Ok(()),
                Event::Text { value: _, at: _ } => Ok(()),
                Event::End => Ok(()),
            },
        }
    }

    // Of the last two names the first is that of an owner, and the two are one name.
    pub(crate) fn qualify(&mut self, alloc: Global) -> Result<(), AllocError>
        ensures ok { OnOk result (self.new ≡ qualified self.old) }
    {
        match self.pop() {
            None => Ok(()),
            Some(event) => match event {
                Event::Begin { name, at: _ } => self.with_owner(alloc, name),
                Event::Int { value: _, at: _ } => Ok(()),
                Event::Bool { value: _, at: _ } => Ok(()),
                Event::Text { value: _, at: _ } => Ok(()),
                Event::End => Ok(()),
            },
        }
    }

    // The events from the first to the last.
    pub(crate) fn as_slice(&self) -> &[Event]
        ensures { reverse result.now ≡ self.now }
    {
        self.items.as_slice()
    }
}
