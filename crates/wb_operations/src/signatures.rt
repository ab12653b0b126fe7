//! What is known of operations without running them?
//!
//! Names, kinds taken and kinds given, without closures: kinds of expressions are checked by these alone. Closures are in `table`.

ghost use Rattle.std.specs.Prelude.{◌≡◌, ◌↔◌, ◌<◌, ◌++◌, ◌∷◌, [], IsTrue, All, length, IfOk, OnErr, OnOk, IfSome, IfNone, slice_get};
ghost use Rattle.wb_base.specs.Different.{Differ};
ghost use Rattle.wb_operations.specs.Given.{IsPlainKind};
ghost use Rattle.wb_operations.specs.Operations.{OperationSignature, HasOperation, IsOperation, IsPlainSignature, names_of};

use std::alloc::{AllocError, Global};
use std::marker::Model;
use wb_base::{Kind, Names};

#[derive(Drop)]
struct Entry {
    takes: Vec<Kind>,
    gives: Kind,
}

/// The signatures of operations with different names, numbered from 0 in the order in which they were added.
pub struct OperationSignatures {
    alloc: Global,
    names: Names,
    entries: Vec<Entry>,
}

impl Model for OperationSignatures {
    ghost use Rattle.std.specs.Prelude.{List};
    ghost use Rattle.wb_operations.specs.Operations.{OperationSignature};
    ghost use Rattle.wb_operations.specs.Entries.{signatures_of, AreEntries};

    ghost Value = { List OperationSignature };

    ghost view = { λ s. signatures_of s.names s.entries.items };

    ghost invariant = { λ s. AreEntries s.names s.entries.items };
}

impl OperationSignatures {
    /// No operations.
    pub fn new(alloc: Global) -> OperationSignatures
        ensures { result ≡ [] }
    {
        OperationSignatures {
            alloc,
            names: Names::new(alloc),
            entries: Vec::new(alloc),
        }
    }

    /// Adds the signature of an operation after the others, and answers its number.
    pub fn add(&mut self, name: &[u8], takes: &[Kind], gives: Kind) -> Result<usize, AllocError>
        requires new { ¬ HasOperation self.old name.now }
        requires takes { All IsPlainKind takes.now }
        requires gives { IsPlainKind gives }
        ensures number { IfOk result (λ number. number ≡ length self.old) }
        ensures ok { OnOk result (self.new ≡ self.old ++ record { name = name.now; takes = takes.now; gives = gives } ∷ []) }
        ensures err { OnErr result (self.new ≡ self.old) }
    {
        let number = self.entries.len();
        let takes = Vec::from_slice(self.alloc, takes)?;
        self.entries.reserve(1)?;
        self.names.add(name)?;
        self.entries.push_reserved(Entry { takes, gives });
        Ok(number)
    }

    /// How many operations there are.
    pub fn len(&self) -> usize
        ensures count { result ≡ length self.now }
        ensures different { Differ (names_of self.now) }
        ensures plain { All IsPlainSignature self.now }
    {
        self.names.len()
    }

    /// Whether there is no operation.
    pub fn is_empty(&self) -> bool
        ensures { IsTrue result ↔ (self.now ≡ []) }
    {
        self.len() == 0
    }

    /// The operation of a name. Takes about constant time.
    pub fn find(&self, name: &[u8]) -> Option<usize>
        ensures found { IfSome result (IsOperation self.now name.now) }
        ensures none { IfNone result (¬ HasOperation self.now name.now) }
        ensures different { Differ (names_of self.now) }
    {
        self.names.find(name)
    }

    /// The name of an operation.
    pub fn name(&self, operation: usize) -> &[u8]
        requires { operation < length self.now }
        ensures { IfSome (slice_get self.now operation) (λ s. result.now ≡ s.name) }
    {
        self.names.name(operation)
    }

    /// The kinds that an operation takes.
    pub fn takes(&self, operation: usize) -> &[Kind]
        requires { operation < length self.now }
        ensures { IfSome (slice_get self.now operation) (λ s. result.now ≡ s.takes) }
    {
        self.entries[operation].takes.as_slice()
    }

    /// The kind that an operation gives.
    pub fn gives(&self, operation: usize) -> Kind
        requires { operation < length self.now }
        ensures { IfSome (slice_get self.now operation) (λ s. result ≡ s.gives) }
    {
        self.entries[operation].gives
    }

    /// Equal signatures.
    pub fn copy(&self) -> Result<OperationSignatures, AllocError>
        ensures { IfOk result (λ made. made ≡ self.now) }
    {
        let mut made = OperationSignatures::new(self.alloc);
        for operation in 0..self.len() {
            made.add(
                self.name(operation),
                self.takes(operation),
                self.gives(operation),
            )?;
        }
        Ok(made)
    }

    /// Lets go of the signatures. A crate that calls this proves no drop of what it holds.
    pub fn release(self) {}
}

impl Drop for OperationSignatures {
    fn drop(self) {
        let OperationSignatures {
            alloc: _,
            names,
            entries,
        } = self;
        drop(names);
        drop(entries);
    }
}
