//! Keeps the attributes of a host with extensions.
//!
//! They are lists in which each name is seen where it is written and is of the right kind, and extensions keep to what they may, so that no
//! reader has to test it. Which nonterminals come first is in `specs/Grammar`.

ghost use Rattle.std.specs.Prelude.{◌≡◌, IfOk};
ghost use Rattle.wb_syntax_resolved.specs.Attribution.{IsAttribution};

use crate::{Attribute, Nonterminal, Occurrence, Production};
use std::alloc::{AllocError, Global};
use std::marker::Model;
use std::rc::Rc;
use wb_base::{Bytes, Sequence};
use wb_values::Signatures;

/// The lists of which an attribution is made.
pub struct AttributionParts {
    /// The names of the extensions: that of owner k is at position k - 1.
    pub extensions: Sequence<Bytes>,
    /// The nonterminals, by number.
    pub nonterminals: Sequence<Nonterminal>,
    /// The attributes, by number.
    pub attributes: Sequence<Attribute>,
    /// Where attributes occur, in any order.
    pub occurrences: Sequence<Occurrence>,
    /// The productions, by number.
    pub productions: Sequence<Production>,
    /// The signatures of the productions, by number, with their names as reports write them.
    pub signatures: Signatures,
}

impl Drop for AttributionParts {
    fn drop(self) {
        let AttributionParts {
            extensions,
            nonterminals,
            attributes,
            occurrences,
            productions,
            signatures,
        } = self;
        drop(extensions);
        drop(nonterminals);
        drop(attributes);
        drop(occurrences);
        drop(productions);
        drop(signatures);
    }
}

/// The attributes of a host, of a host with one extension, or of a host with many, on all its productions.
///
/// Nonterminals, attributes and productions are numbered from 0 on. Concrete productions come before abstract ones, each by owner, and
/// attributes go by owner; a resolved specification keeps the order of nonterminals. Each name is declared where its writer sees it, and
/// is of the right kind, operations and numbers of terminals aside; extensions declare and write only what they may; no attribute
/// occurs twice on a nonterminal, and no two equations of a production are for the same.
pub struct Attribution {
    parts: Rc<AttributionParts>,
}

impl Model for Attribution {
    ghost use Rattle.std.specs.Rc.{rc_value};
    ghost use Rattle.wb_syntax_resolved.specs.declared.attribution.AttributionParts.{AttributionParts};
    ghost use Rattle.wb_syntax_resolved.specs.Attribution.{IsAttribution};

    ghost Value = { AttributionParts };

    ghost view = { λ a. rc_value a.parts };

    ghost invariant = { λ a. IsAttribution (rc_value a.parts) };
}

impl Attribution {
    /// The attribution of these lists.
    pub fn new(alloc: Global, parts: AttributionParts) -> Result<Attribution, AllocError>
        requires { IsAttribution parts }
        ensures { IfOk result (λ made. made ≡ parts) }
    {
        Ok(Attribution {
            parts: Rc::new(alloc, parts)?,
        })
    }

    /// Its lists.
    pub fn parts(&self) -> &AttributionParts
        ensures parts { result.now ≡ self.now }
        ensures whole { IsAttribution self.now }
    {
        &self.parts
    }

    /// An equal attribution, which shares the lists. The only error is that something has too many copies to be counted.
    pub fn copy(&self) -> Result<Attribution, AllocError>
        ensures { IfOk result (λ made. made ≡ self.now) }
    {
        Ok(Attribution {
            parts: self.parts.clone()?,
        })
    }

    /// Lets go of the attribution. A crate that calls this proves no drop of what it holds.
    pub fn release(self) {}
}

impl Drop for Attribution {
    fn drop(self) {
        let Attribution { parts } = self;
        drop(parts);
    }
}
