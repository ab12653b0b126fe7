//! Evaluates an attribute at the root of a tree, and prints its value.
//!
//! The attribute is evaluated, and what comes of it is printed.

ghost use Rattle.std.specs.Prelude.{◌≡◌, ◌<◌, length, slice_get, IfOk};
ghost use Rattle.wb_flow_theory.specs.Modular.{EachProduction};
ghost use Rattle.wb_flow_theory.specs.WellDefined.{IsWellDefinedProduction};
ghost use Rattle.wb_eval_theory.specs.Evaluable.{IsAsked};
ghost use Rattle.wb_operations.specs.Kept.{IsKept};
ghost use Rattle.wb_eval_root.specs.Inner.Printed.{IsPrinted};
ghost use Rattle.wb_eval_root.specs.Values.{IsTreeValue, operation_shown};
ghost use Rattle.wb_terms.specs.Printed.{printed_value};
ghost use Rattle.wb_types.specs.Rules.{KindsOk};
ghost use Rattle.wb_values.specs.ValuesIn.{tree_in, value_in, IsIn};

use crate::TreeValue;
use std::alloc::{AllocError, Global};
use wb_base::Bytes;
use wb_eval::{Evaluated, evaluate};
use wb_operations::{Meaning, OperationRefusal, OperationSignatures, OperationTable};
use wb_syntax_resolved::Attribution;
use wb_terms::{PrintRefusal, print_value};
use wb_values::{Signatures, TreeId, TreeStore, Value};

/// What comes of an attribute at the root of a tree, within so many steps.
///
/// The evaluation comes first, and then the length of the printed value. A step is an instance that is needed, counted once. No clause
/// bounds the time.
pub fn tree_value<M: Meaning>(
    alloc: Global,
    attributes: &Attribution,
    store: &mut TreeStore,
    root: TreeId,
    attribute: usize,
    steps: u64,
    operations: &OperationTable<M>,
) -> Result<TreeValue, AllocError>
    // The attributes of each production are well defined, and kinds hold over the operations of the table.
    requires productions { EachProduction attributes.now (IsWellDefinedProduction attributes.now) }
    requires kinds { KindsOk attributes.now operations.now.signatures }

    // The tree is in the store; the attribute occurs on it, and needs nothing there.
    requires there { root.0 < length store.old }
    requires asked { IsAsked attributes.now (tree_in store.old root.0) attribute }

    // The table answers what M means.
    requires kept { IsKept operations.now.signatures operations.now.built_in operations.now.runs.items M.meaning
        (λ run vs. ⟦<Box<dyn Fn(&[Value]) -> Result<Value, OperationRefusal>> as Fn(&[Value]) -> Result<Value, OperationRefusal>>⟧.pre run vs)
        (λ run vs r. ⟦<Box<dyn Fn(&[Value]) -> Result<Value, OperationRefusal>> as Fn(&[Value]) -> Result<Value, OperationRefusal>>⟧.post run vs r) }
    ensures { IfOk result (IsTreeValue attributes.now (record { signatures = operations.now.signatures; meaning = M.meaning }) (tree_in store.old root.0) attribute steps) }
{
    match evaluate(alloc, attributes, store, root, attribute, steps, operations)? {
        Evaluated::Value(value) => { printed(alloc, &attributes.parts().signatures, store, &value) }
        Evaluated::Fault { operation, code } => {
            let operation = operation_name(alloc, operations.signatures(), operation)?;
            Ok(TreeValue::Fault { operation, code })
        }
        Evaluated::MoreSteps => Ok(TreeValue::MoreSteps),
    }
}

// The printed value, unless it is too long.
fn printed(
    alloc: Global,
    signatures: &Signatures,
    store: &TreeStore,
    value: &Value,
) -> Result<TreeValue, AllocError>
    requires { IsIn (length store.now) value.now }
    ensures { IfOk result (IsPrinted (printed_value signatures.now (value_in store.now value.now))) }
{
    match print_value(alloc, value, signatures, store) {
        Ok(text) => Ok(TreeValue::Value(Bytes::from_vec(text)?)),
        Err(PrintRefusal::TooLong) => Ok(TreeValue::TooLong),
        Err(PrintRefusal::NoMemory(error)) => Err(error),
    }
}

// The name of an operation, or the empty one.
fn operation_name(
    alloc: Global,
    operations: &OperationSignatures,
    number: usize,
) -> Result<Bytes, AllocError>
    ensures { IfOk result (λ name. name ≡ operation_shown (slice_get operations.now number)) }
{
    if number < operations.len() {
        return Bytes::from_slice(alloc, operations.name(number));
    }
    Ok(Bytes::empty())
}
