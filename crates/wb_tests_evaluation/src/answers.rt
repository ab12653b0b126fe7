//! Is the answer of an evaluation the expected one?
//!
//! A row has a term, an attribute of its root, the limit of steps, and the expected answer. Each host is certified first.

ghost use Rattle.std.specs.Prelude.{◌≡◌, ◌<◌, ◌↔◌, ℕ, [], length, IfSome, IsTrue};
ghost use Rattle.wb_flow_theory.specs.Modular.{EachProduction};
ghost use Rattle.wb_flow_theory.specs.Occurrences.{Goes, HasFlowType};
ghost use Rattle.wb_flow_theory.specs.WellDefined.{IsWellDefinedProduction};
ghost use Rattle.wb_eval_theory.specs.Evaluable.{IsAsked};
ghost use Rattle.wb_operations.specs.Kept.{IsKept};
ghost use Rattle.wb_syntax_resolved.specs.declared.attributes.Direction.TheVariants.{Synthesized};
ghost use Rattle.wb_types.specs.Rules.{KindsOk};
ghost use Rattle.wb_values.specs.Fits.{FitsTree};
ghost use Rattle.wb_values.specs.ValuesIn.{tree_in};

use std::alloc::Global;
use wb_certify_host::{CertifiedHost, certify_host};
use wb_eval::{Evaluated, evaluate};
use wb_operations::{
    Meaning, OperationRefusal, OperationSignatures, OperationTable, standard_table,
};
use wb_reader::read_spec;
use wb_syntax::Spec;
use wb_syntax_resolved::{Attribution, AttributionParts, Direction, Occurrence};
use wb_terms::read_term;
use wb_values::{TreeId, TreeStore, Value};

// The expected answer of an evaluation.
#[derive(Clone, Copy)]
pub(crate) enum Answer {
    // This number.
    Int(i64),
    // This text.
    Text(&'static str),
    // A fault of the operation of this name, with this code.
    Fault(&'static str, u32),
    // More steps are needed than the limit.
    MoreSteps,
}

// A term, the name of an attribute, the limit of steps, and the expected answer.
pub(crate) type Row = (&'static str, &'static str, u64, Answer);

// Whether each row gets its expected answer in the host of this text, by the standard operations.
pub(crate) fn rows_answer(alloc: Global, text: &str, rows: &[Row]) -> bool {
    match standard_table(alloc) {
        Ok(operations) => table_answers(alloc, text, &operations, rows),
        Err(_) => false,
    }
}

// The same by the operations of a table.
fn table_answers<M: Meaning>(
    alloc: Global,
    text: &str,
    operations: &OperationTable<M>,
    rows: &[Row],
) -> bool
    requires kept { IsKept operations.now.signatures operations.now.built_in operations.now.runs.items M.meaning
        (λ run vs. ⟦<Box<dyn Fn(&[Value]) -> Result<Value, OperationRefusal>> as Fn(&[Value]) -> Result<Value, OperationRefusal>>⟧.pre run vs)
        (λ run vs r. ⟦<Box<dyn Fn(&[Value]) -> Result<Value, OperationRefusal>> as Fn(&[Value]) -> Result<Value, OperationRefusal>>⟧.post run vs r) }
{
    match read_spec(alloc, text.as_bytes()) {
        Ok(spec) => {
            let answer = spec_answers(alloc, &spec, operations, rows);
            spec.release();
            answer
        }
        Err(refusal) => {
            refusal.release();
            false
        }
    }
}

// The same for the host of this specification.
fn spec_answers<M: Meaning>(
    alloc: Global,
    spec: &Spec,
    operations: &OperationTable<M>,
    rows: &[Row],
) -> bool
    requires kept { IsKept operations.now.signatures operations.now.built_in operations.now.runs.items M.meaning
        (λ run vs. ⟦<Box<dyn Fn(&[Value]) -> Result<Value, OperationRefusal>> as Fn(&[Value]) -> Result<Value, OperationRefusal>>⟧.pre run vs)
        (λ run vs r. ⟦<Box<dyn Fn(&[Value]) -> Result<Value, OperationRefusal>> as Fn(&[Value]) -> Result<Value, OperationRefusal>>⟧.post run vs r) }
{
    match certify_host(alloc, spec, operations) {
        Ok(host) => {
            let answer = host_answers(alloc, &host, operations, rows);
            host.release();
            answer
        }
        Err(refusal) => {
            refusal.release();
            false
        }
    }
}

// The same for a certified host.
fn host_answers<M: Meaning>(
    alloc: Global,
    host: &CertifiedHost,
    operations: &OperationTable<M>,
    rows: &[Row],
) -> bool
    requires over { host.now.operations ≡ operations.now.signatures }
    requires kept { IsKept operations.now.signatures operations.now.built_in operations.now.runs.items M.meaning
        (λ run vs. ⟦<Box<dyn Fn(&[Value]) -> Result<Value, OperationRefusal>> as Fn(&[Value]) -> Result<Value, OperationRefusal>>⟧.pre run vs)
        (λ run vs r. ⟦<Box<dyn Fn(&[Value]) -> Result<Value, OperationRefusal>> as Fn(&[Value]) -> Result<Value, OperationRefusal>>⟧.post run vs r) }
{
    all_answer(alloc, &host.resolved().parts().attributes, operations, rows)
}

// The same for attributes that are well defined and of their kinds.
fn all_answer<M: Meaning>(
    alloc: Global,
    attributes: &Attribution,
    operations: &OperationTable<M>,
    rows: &[Row],
) -> bool
    requires productions { EachProduction attributes.now (IsWellDefinedProduction attributes.now) }
    requires kinds { KindsOk attributes.now operations.now.signatures }
    requires kept { IsKept operations.now.signatures operations.now.built_in operations.now.runs.items M.meaning
        (λ run vs. ⟦<Box<dyn Fn(&[Value]) -> Result<Value, OperationRefusal>> as Fn(&[Value]) -> Result<Value, OperationRefusal>>⟧.pre run vs)
        (λ run vs r. ⟦<Box<dyn Fn(&[Value]) -> Result<Value, OperationRefusal>> as Fn(&[Value]) -> Result<Value, OperationRefusal>>⟧.post run vs r) }
{
    'rows: for row in rows {
        if !row_answers(alloc, attributes, operations, *row) {
            return false;
        }
    }
    true
}

// Whether a row gets its expected answer.
fn row_answers<M: Meaning>(
    alloc: Global,
    attributes: &Attribution,
    operations: &OperationTable<M>,
    row: Row,
) -> bool
    requires productions { EachProduction attributes.now (IsWellDefinedProduction attributes.now) }
    requires kinds { KindsOk attributes.now operations.now.signatures }
    requires kept { IsKept operations.now.signatures operations.now.built_in operations.now.runs.items M.meaning
        (λ run vs. ⟦<Box<dyn Fn(&[Value]) -> Result<Value, OperationRefusal>> as Fn(&[Value]) -> Result<Value, OperationRefusal>>⟧.pre run vs)
        (λ run vs r. ⟦<Box<dyn Fn(&[Value]) -> Result<Value, OperationRefusal>> as Fn(&[Value]) -> Result<Value, OperationRefusal>>⟧.post run vs r) }
{
    let mut store = TreeStore::new(alloc);
    match read_term(
        alloc,
        row.0.as_bytes(),
        &attributes.parts().signatures,
        &mut store,
    ) {
        Ok(root) => tree_answers(alloc, attributes, &mut store, root, operations, row),
        Err(_) => false,
    }
}

// The same, after the term is read as a tree.
fn tree_answers<M: Meaning>(
    alloc: Global,
    attributes: &Attribution,
    store: &mut TreeStore,
    root: TreeId,
    operations: &OperationTable<M>,
    row: Row,
) -> bool
    requires productions { EachProduction attributes.now (IsWellDefinedProduction attributes.now) }
    requires kinds { KindsOk attributes.now operations.now.signatures }
    requires there { root.0 < length store.old }
    requires fits { (nonterminal : ℕ) × FitsTree attributes.now.signatures (tree_in store.old root.0) nonterminal }
    requires kept { IsKept operations.now.signatures operations.now.built_in operations.now.runs.items M.meaning
        (λ run vs. ⟦<Box<dyn Fn(&[Value]) -> Result<Value, OperationRefusal>> as Fn(&[Value]) -> Result<Value, OperationRefusal>>⟧.pre run vs)
        (λ run vs r. ⟦<Box<dyn Fn(&[Value]) -> Result<Value, OperationRefusal>> as Fn(&[Value]) -> Result<Value, OperationRefusal>>⟧.post run vs r) }
{
    match asked_at(attributes, store, root, row.1.as_bytes()) {
        Some(attribute) => match evaluate(
            alloc, attributes, store, root, attribute, row.2, operations,
        ) {
            Ok(given) => shows(&given, operations.signatures(), row.3),
            Err(_) => false,
        },
        None => false,
    }
}

// Whether the result is the expected one.
fn shows(given: &Evaluated, operations: &OperationSignatures, answer: Answer) -> bool {
    match given {
        Evaluated::Value(value) => shows_value(value, answer),
        Evaluated::Fault { operation, code } => match answer {
            Answer::Fault(name, wanted) => {
                *code == wanted && is_operation(operations, *operation, name)
            }
            _ => false,
        },
        Evaluated::MoreSteps => matches!(answer, Answer::MoreSteps),
    }
}

// Whether a value is the expected one.
fn shows_value(value: &Value, answer: Answer) -> bool {
    match answer {
        Answer::Int(wanted) => match value {
            Value::Int(number) => *number == wanted,
            _ => false,
        },
        Answer::Text(wanted) => match value {
            Value::Text(text) => text.as_slice() == wanted.as_bytes(),
            _ => false,
        },
        _ => false,
    }
}

// Whether the operation of this number has the name.
fn is_operation(operations: &OperationSignatures, number: usize, name: &str) -> bool {
    number < operations.len() && operations.name(number) == name.as_bytes()
}

// The synthesized attribute of this name that may be asked at the root.
fn asked_at(attributes: &Attribution, store: &TreeStore, root: TreeId, name: &[u8]) -> Option<usize>
    requires there { root.0 < length store.now }
    requires fits { (nonterminal : ℕ) × FitsTree attributes.now.signatures (tree_in store.now root.0) nonterminal }
    ensures { IfSome result (IsAsked attributes.now (tree_in store.now root.0)) }
{
    let production = store.production(root);
    let signatures = &attributes.parts().signatures;
    if production < signatures.len() {
        asked_of(attributes.parts(), signatures.left(production), name)
    } else {
        None
    }
}

// The synthesized attribute of this name on a nonterminal, where it needs nothing.
fn asked_of(attributes: &AttributionParts, nonterminal: usize, name: &[u8]) -> Option<usize>
    ensures goes { IfSome result (Goes attributes.now Synthesized) }
    ensures flow_type { IfSome result (λ x. HasFlowType attributes.now x nonterminal []) }
{
    for occurrence in attributes.occurrences.as_slice() {
        if is_free(occurrence, nonterminal) && is_named(attributes, occurrence.attribute, name) {
            return Some(occurrence.attribute);
        }
    }
    None
}

// Whether an occurrence is on this nonterminal and needs nothing.
fn is_free(occurrence: &Occurrence, nonterminal: usize) -> bool
    ensures { IsTrue result → (occurrence.now.nonterminal ≡ nonterminal) × (occurrence.now.needs ≡ []) }
{
    occurrence.nonterminal == nonterminal && occurrence.needs.is_empty()
}

// Whether the attribute of this number is synthesized and has the name.
fn is_named(attributes: &AttributionParts, number: usize, name: &[u8]) -> bool
    ensures { IsTrue result → Goes attributes.now Synthesized number }
{
    let list = attributes.attributes.as_slice();
    number < list.len()
        && is_synthesized(list[number].direction)
        && list[number].name.as_slice() == name
}

// Whether the direction is that of synthesized attributes.
fn is_synthesized(direction: Direction) -> bool
    ensures { IsTrue result ↔ (direction ≡ Synthesized) }
{
    matches!(direction, Direction::Synthesized)
}
