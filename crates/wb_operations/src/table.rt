//! How are operations looked up and called, whatever they mean?
//!
//! That all answer what M means is the clause `kept` of each call, since no type keeps it beside a boxed closure. Names: `signatures`.

ghost use Rattle.std.specs.Prelude.{◌≡◌, ◌+◌, ◌<◌, List, [], ◌∷◌, ◌++◌, All, length, IfOk, OnErr, OnOk, IfSome, IfNone, Some, slice_get};
ghost use Rattle.wb_values.specs.Kinds.{AreOfKinds};
ghost use Rattle.wb_operations.specs.Given.{FitKinds, IsPlainKind, IsGiven, GivesKind, plains_of};
ghost use Rattle.wb_operations.specs.Operations.{HasOperation, IsOperation};
ghost use Rattle.wb_operations.specs.Standard.{standard, standard_signatures};
ghost use Rattle.wb_operations.specs.Kept.{IsKept};

use crate::operation::call_run;
use crate::standard::{run_standard, signatures};
use crate::{Meaning, OperationRefusal, OperationSignatures, Run, Standard};
use std::alloc::{AllocError, Global};
use std::marker::PhantomData;
use wb_base::Kind;
use wb_values::Value;

/// A table of operations with different names, numbered from 0. The first are the standard ones, where it has them, and the others
/// are numbered in the order in which they were added.
pub struct OperationTable<M: Meaning> {
    pub alloc: Global,
    pub signatures: OperationSignatures,
    pub built_in: usize,
    pub runs: Vec<Run>,
    pub of: PhantomData<M>,
}

/// A table of the sixteen standard operations.
pub fn standard_table(alloc: Global) -> Result<OperationTable<Standard>, AllocError>
    ensures signatures { IfOk result (λ table. table.signatures ≡ standard_signatures) }
    ensures kept { IfOk result (λ table. IsKept table.signatures table.built_in table.runs.items standard (λ run vs. Run.pre run vs) (λ run vs r. Run.post run vs r)) }
{
    let signatures = signatures(alloc)?;
    Ok(OperationTable {
        alloc,
        signatures,
        built_in: 16,
        runs: Vec::new(alloc),
        of: PhantomData,
    })
}

impl<M: Meaning> OperationTable<M> {
    /// A table without operations.
    pub fn new(alloc: Global) -> OperationTable<M>
        ensures signatures { result.signatures ≡ [] }
        ensures kept { IsKept result.signatures result.built_in result.runs.items M.meaning (λ run vs. Run.pre run vs) (λ run vs r. Run.post run vs r) }
    {
        OperationTable {
            alloc,
            signatures: OperationSignatures::new(alloc),
            built_in: 0,
            runs: Vec::new(alloc),
            of: PhantomData,
        }
    }

    /// Adds an operation after the others, and answers its number. If memory runs out, the closure is dropped. What it answers has to be
    /// known of every list, so a closure that is handed over has its clauses written at it.
    pub fn add(
        &mut self,
        name: &[u8],
        takes: &[Kind],
        gives: Kind,
        run: Run,
    ) -> Result<usize, AllocError>
        requires new { ¬ HasOperation self.old.signatures name.now }
        requires takes { All IsPlainKind takes.now }
        requires gives { IsPlainKind gives }
        requires callable { (vs : _) → FitKinds takes.now vs.now → Run.pre run vs }
        requires answers { (vs : _) (r : _) → FitKinds takes.now vs.now → Run.post run vs r → IsGiven (M.meaning (length self.old.signatures) (plains_of vs.now)) r }
        requires kind { (values : _) → AreOfKinds takes.now values → GivesKind gives (M.meaning (length self.old.signatures) values) }
        requires kept { IsKept self.old.signatures self.old.built_in self.old.runs.items M.meaning (λ run vs. Run.pre run vs) (λ run vs r. Run.post run vs r) }
        ensures number { IfOk result (λ number. number ≡ length self.old.signatures) }
        ensures ok { OnOk result (self.new.signatures ≡ self.old.signatures ++ record { name = name.now; takes = takes.now; gives = gives } ∷ []) }
        ensures err { OnErr result (self.new.signatures ≡ self.old.signatures) }
        ensures kept { IsKept self.new.signatures self.new.built_in self.new.runs.items M.meaning (λ run vs. Run.pre run vs) (λ run vs r. Run.post run vs r) }
    {
        self.runs.reserve(1)?;
        let number = self.signatures.add(name, takes, gives)?;
        self.runs.push_reserved(run);
        Ok(number)
    }

    /// The names and the kinds of the operations.
    pub fn signatures(&self) -> &OperationSignatures
        ensures { result.now ≡ self.now.signatures }
    {
        &self.signatures
    }

    /// How many operations there are.
    pub fn len(&self) -> usize
        ensures { result ≡ length self.now.signatures }
    {
        self.signatures.len()
    }

    /// The operation of a name. Takes about constant time.
    pub fn find(&self, name: &[u8]) -> Option<usize>
        ensures found { IfSome result (IsOperation self.now.signatures name.now) }
        ensures none { IfNone result (¬ HasOperation self.now.signatures name.now) }
    {
        self.signatures.find(name)
    }

    /// The name of an operation.
    pub fn name(&self, operation: usize) -> &[u8]
        requires { operation < length self.now.signatures }
        ensures { IfSome (slice_get self.now.signatures operation) (λ s. result.now ≡ s.name) }
    {
        self.signatures.name(operation)
    }

    /// The kinds that an operation takes.
    pub fn takes(&self, operation: usize) -> &[Kind]
        requires { operation < length self.now.signatures }
        ensures { IfSome (slice_get self.now.signatures operation) (λ s. result.now ≡ s.takes) }
    {
        self.signatures.takes(operation)
    }

    /// The kind that an operation gives.
    pub fn gives(&self, operation: usize) -> Kind
        requires { operation < length self.now.signatures }
        ensures { IfSome (slice_get self.now.signatures operation) (λ s. result ≡ s.gives) }
    {
        self.signatures.gives(operation)
    }

    /// What an operation answers: the value or the fault that is meant, or out of memory.
    pub fn call(&self, operation: usize, arguments: &[Value]) -> Result<Value, OperationRefusal>
        requires there { operation < length self.now.signatures }
        requires fits { (s : _) → slice_get self.now.signatures operation ≡ Some s → FitKinds s.takes arguments.now }
        requires kept { IsKept self.now.signatures self.now.built_in self.now.runs.items M.meaning (λ run vs. Run.pre run vs) (λ run vs r. Run.post run vs r) }
        ensures { IsGiven (M.meaning operation (plains_of arguments.now)) result }
    {
        if operation < self.built_in {
            return run_standard(self.alloc, operation, arguments);
        }
        call_run(&self.runs[operation - self.built_in], arguments)
    }
}

impl<M: Meaning> Drop for OperationTable<M> {
    fn drop(self) {
        let OperationTable {
            alloc: _,
            signatures,
            built_in: _,
            runs,
            of: _,
        } = self;
        drop(signatures);
        drop(runs);
    }
}
