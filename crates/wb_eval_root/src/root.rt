//! Evaluates an attribute at the root of a written term, and prints its value.
//!
//! The term is read, and the attribute looked up by its printed name; what comes of it is in `tree`.

ghost use Rattle.std.specs.Prelude.{◌≡◌, ◌<◌, ℕ, List, length, IfOk};
ghost use Rattle.wb_flow_theory.specs.Modular.{EachProduction};
ghost use Rattle.wb_flow_theory.specs.WellDefined.{IsWellDefinedProduction};
ghost use Rattle.wb_operations.specs.Kept.{IsKept};
ghost use Rattle.wb_eval_root.specs.Answers.{Asks, IsRootAnswer};
ghost use Rattle.wb_eval_root.specs.Inner.Printed.{answer_for};
ghost use Rattle.wb_terms.specs.TermAnswer.{IsTermOf};
ghost use Rattle.wb_types.specs.Rules.{KindsOk};
ghost use Rattle.wb_values.specs.Fits.{FitsTree};
ghost use Rattle.wb_values.specs.ValuesIn.{tree_in};

use crate::asked::asked_at;
use crate::tree::tree_value;
use crate::{RootAnswer, TreeValue};
use std::alloc::{AllocError, Global};
use wb_operations::{Meaning, OperationRefusal, OperationTable};
use wb_report::TermReason;
use wb_syntax_resolved::Attribution;
use wb_terms::{TermRefusal, read_term};
use wb_values::{TreeId, TreeStore, Value};

/// What comes of asking for the attribute of a printed name at the root of a written term, within so many steps.
///
/// The term is refused first, then the attribute, then the evaluation, and then the length of the printed value. A step is an instance that
/// is needed, counted once. No clause bounds the time.
pub fn root_value<M: Meaning>(
    alloc: Global,
    attributes: &Attribution,
    term: &[u8],
    name: &[u8],
    steps: u64,
    operations: &OperationTable<M>,
) -> Result<RootAnswer, AllocError>
    // The attributes of each production are well defined, and kinds hold over the operations of the table.
    requires productions { EachProduction attributes.now (IsWellDefinedProduction attributes.now) }
    requires kinds { KindsOk attributes.now operations.now.signatures }

    // The table answers what M means.
    requires kept { IsKept operations.now.signatures operations.now.built_in operations.now.runs.items M.meaning
        (λ run vs. ⟦<Box<dyn Fn(&[Value]) -> Result<Value, OperationRefusal>> as Fn(&[Value]) -> Result<Value, OperationRefusal>>⟧.pre run vs)
        (λ run vs r. ⟦<Box<dyn Fn(&[Value]) -> Result<Value, OperationRefusal>> as Fn(&[Value]) -> Result<Value, OperationRefusal>>⟧.post run vs r) }
    ensures { IfOk result (IsRootAnswer attributes.now (record { signatures = operations.now.signatures; meaning = M.meaning }) term.now name.now steps) }
{
    let mut store = TreeStore::new(alloc);
    match read_term(alloc, term, &attributes.parts().signatures, &mut store) {
        Ok(root) => tree_answer(alloc, attributes, &mut store, root, name, steps, operations),
        Err(TermRefusal::Bad(at)) => Ok(RootAnswer::Refused(TermReason::Syntax(at))),
        Err(TermRefusal::Unknown(at)) => Ok(RootAnswer::Refused(TermReason::Unknown(at))),
        Err(TermRefusal::WrongChild(at)) => Ok(RootAnswer::Refused(TermReason::WrongChild(at))),
        Err(TermRefusal::NoMemory(error)) => Err(error),
    }
}

// Like `root_value`, for the tree of a term.
fn tree_answer<M: Meaning>(
    alloc: Global,
    attributes: &Attribution,
    store: &mut TreeStore,
    root: TreeId,
    name: &[u8],
    steps: u64,
    operations: &OperationTable<M>,
) -> Result<RootAnswer, AllocError>
    requires productions { EachProduction attributes.now (IsWellDefinedProduction attributes.now) }
    requires kinds { KindsOk attributes.now operations.now.signatures }
    requires there { root.0 < length store.old }
    requires fits { (nonterminal : ℕ) × FitsTree attributes.now.signatures (tree_in store.old root.0) nonterminal }
    requires kept { IsKept operations.now.signatures operations.now.built_in operations.now.runs.items M.meaning
        (λ run vs. ⟦<Box<dyn Fn(&[Value]) -> Result<Value, OperationRefusal>> as Fn(&[Value]) -> Result<Value, OperationRefusal>>⟧.pre run vs)
        (λ run vs r. ⟦<Box<dyn Fn(&[Value]) -> Result<Value, OperationRefusal>> as Fn(&[Value]) -> Result<Value, OperationRefusal>>⟧.post run vs r) }
    ensures { (term : List ℕ) → IsTermOf attributes.now.signatures term (tree_in store.old root.0)
        → IfOk result (IsRootAnswer attributes.now (record { signatures = operations.now.signatures; meaning = M.meaning }) term name.now steps) }
{
    match asked_at(alloc, attributes, store, root, name)? {
        Some(attribute) => {
            let value = tree_value(alloc, attributes, store, root, attribute, steps, operations)?;
            Ok(answered(value))
        }
        None => Ok(RootAnswer::UnknownAttribute),
    }
}

// The answer for a term of whose tree this comes.
fn answered(value: TreeValue) -> RootAnswer
    ensures { result ≡ answer_for value }
{
    match value {
        TreeValue::Value(printed) => RootAnswer::Value(printed),
        TreeValue::TooLong => RootAnswer::TooLong,
        TreeValue::Fault { operation, code } => RootAnswer::Fault { operation, code },
        TreeValue::MoreSteps => RootAnswer::MoreSteps,
    }
}
