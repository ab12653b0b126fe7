//! Which values are specifications?
//!
//! Those that some text has as its reading, so that callers know of names and expressions what the grammar says of them.

ghost use Rattle.std.specs.Prelude.{◌≡◌, All, IfOk};
ghost use Rattle.wb_syntax.specs.SpecText.{HasText};
ghost use Rattle.wb_syntax.specs.Names.{HasNames};
ghost use Rattle.wb_syntax.specs.Equations.{HasWholeEquations};

use crate::{Header, Item, Pattern};
use std::alloc::AllocError;
use std::marker::Model;
use std::rc::RcSlice;
use wb_base::{Bytes, Sequence};

/// A specification: a host or an extension, with its items in the order of its text.
///
/// Some text has it as its reading: its names are names, its expressions are whole, and its regular expressions say what their
/// bytes say. What its names stand for, and whether they are declared, is open.
pub struct Spec {
    format: u32,
    name: Bytes,
    header: Header,
    items: RcSlice<Item<Pattern>>,
}

impl Model for Spec {
    ghost use Rattle.wb_syntax.specs.SpecText.{SpecView, HasText};
    ghost use Rattle.std.specs.Coded.{codes};
    ghost use Rattle.std.specs.Rc.{rc_slice_items};
    ghost use Rattle.wb_regex.specs.contracts.regex.Regex as regex;

    ghost Value = { SpecView };

    ghost coded = { Prim.hlevel (codes, regex.the_row.coded) };

    ghost view = { λ s. record { format = s.format; name = s.name; header = s.header; items = rc_slice_items s.items } };

    ghost invariant = { λ s. HasText (record { format = s.format; name = s.name; header = s.header; items = rc_slice_items s.items }) };
}

impl Spec {
    /// A specification of these parts, which some text has as its reading.
    pub fn new(
        format: u32,
        name: Bytes,
        header: Header,
        items: Sequence<Item<Pattern>>,
    ) -> Result<Spec, AllocError>
        requires { HasText (record { format = format; name = name; header = header; items = items }) }
        ensures { IfOk result (λ made. made ≡ record { format = format; name = name; header = header; items = items }) }
    {
        Ok(Spec {
            format,
            name,
            header,
            items: RcSlice::from_vec(items.into_vec())?,
        })
    }

    /// The number of its format.
    pub fn format(&self) -> u32
        ensures { result ≡ self.now.format }
    {
        self.format
    }

    /// Its name.
    pub fn name(&self) -> &[u8]
        ensures { result.now ≡ self.now.name }
    {
        self.name.as_slice()
    }

    /// Whether it is a host, or an extension of which.
    pub fn header(&self) -> &Header
        ensures { result.now ≡ self.now.header }
    {
        &self.header
    }

    /// Its items, in the order of the text.
    ///
    /// Some text has the specification, so each name in it is a name, and the nodes of each equation are one whole expression.
    pub fn items(&self) -> &[Item<Pattern>]
        ensures items { result.now ≡ self.now.items }
        ensures text { HasText self.now }
        ensures names { HasNames self.now }
        ensures whole { All HasWholeEquations result.now }
    {
        self.items.as_slice()
    }

    /// An equal specification, which shares the items. The only error is that something has too many copies to be counted.
    pub fn copy(&self) -> Result<Spec, AllocError>
        ensures { IfOk result (λ made. made ≡ self.now) }
    {
        let name = self.name.copy()?;
        let header = self.header.clone()?;
        Ok(Spec {
            format: self.format,
            name,
            header,
            items: self.items.clone()?,
        })
    }

    /// Lets go of the specification. A crate that calls this proves no drop of what it holds.
    pub fn release(self) {}
}

impl Drop for Spec {
    fn drop(self) {
        let Spec {
            format: _,
            name,
            header,
            items,
        } = self;
        drop(name);
        drop(header);
        drop(items);
    }
}
