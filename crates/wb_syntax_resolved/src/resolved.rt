//! Keeps a resolved specification.
//!
//! It is lists whose attributes are an attribution and whose grammar and terminals fit it.

ghost use Rattle.std.specs.Prelude.{◌≡◌, IfOk};
ghost use Rattle.wb_syntax_resolved.specs.Resolved.{IsResolved};

use crate::{Attribution, Preference, Terminal};
use std::alloc::{AllocError, Global};
use std::marker::Model;
use std::rc::Rc;
use wb_base::{Bytes, Grammar, Sequence};

/// What a resolved specification is made of.
pub struct ResolvedParts {
    /// The name of the host.
    pub host: Bytes,
    /// The concrete grammar, where a start is declared.
    pub grammar: Option<Grammar>,
    /// The terminals, by number: those of the grammar, then layout.
    pub terminals: Sequence<Terminal>,
    /// The preferences, each once, in any order.
    pub preferences: Sequence<Preference>,
    /// The numbers of the host's nonterminals to which extensions may add productions, each once.
    pub extensible: Sequence<usize>,
    /// Its attributes.
    pub attributes: Attribution,
}

impl Drop for ResolvedParts {
    fn drop(self) {
        let ResolvedParts {
            host,
            grammar,
            terminals,
            preferences,
            extensible,
            attributes,
        } = self;
        drop(host);
        drop(grammar);
        drop(terminals);
        drop(preferences);
        drop(extensible);
        drop(attributes);
    }
}

/// A host, a host with one extension, or a host with many, whose names are numbers.
///
/// Terminals and nonterminals of the grammar come first, with the numbers that they have there; layout, and nonterminals that are
/// abstract alone, follow; each of these groups goes by owner. Each name is declared and of the kind that its position asks for, operations
/// aside, and nothing is declared twice by owners of whom one sees the other.
pub struct Resolved {
    parts: Rc<ResolvedParts>,
}

impl Model for Resolved {
    ghost use Rattle.std.specs.Coded.{codes};
    ghost use Rattle.std.specs.Rc.{rc_value};
    ghost use Rattle.wb_regex.specs.contracts.regex.Regex as regex;
    ghost use Rattle.wb_syntax_resolved.specs.declared.resolved.ResolvedParts.{ResolvedParts};
    ghost use Rattle.wb_syntax_resolved.specs.Resolved.{IsResolved};

    ghost Value = { ResolvedParts };

    ghost coded = { Prim.hlevel (codes, regex.the_row.coded) };

    ghost view = { λ r. rc_value r.parts };

    ghost invariant = { λ r. IsResolved (rc_value r.parts) };
}

impl Resolved {
    /// The resolved specification of these parts.
    pub fn new(alloc: Global, parts: ResolvedParts) -> Result<Resolved, AllocError>
        requires { IsResolved parts }
        ensures { IfOk result (λ made. made ≡ parts) }
    {
        Ok(Resolved {
            parts: Rc::new(alloc, parts)?,
        })
    }

    /// Its parts.
    pub fn parts(&self) -> &ResolvedParts
        ensures parts { result.now ≡ self.now }
        ensures whole { IsResolved self.now }
    {
        &self.parts
    }

    /// An equal one, which shares the parts. The only error is that something has too many copies to be counted.
    pub fn copy(&self) -> Result<Resolved, AllocError>
        ensures { IfOk result (λ made. made ≡ self.now) }
    {
        Ok(Resolved {
            parts: self.parts.clone()?,
        })
    }

    /// Lets go of the specification. A crate that calls this proves no drop of what it holds.
    pub fn release(self) {}
}

impl Drop for Resolved {
    fn drop(self) {
        let Resolved { parts } = self;
        drop(parts);
    }
}
