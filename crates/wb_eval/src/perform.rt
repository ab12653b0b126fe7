//! How does code go on, instruction by instruction?
//!
//! It visits an expression without parts, builds a tree or calls an operation, until all is done, an operation fails, or an instance is
//! read that wasn't entered.

ghost use Rattle.std.specs.Prelude.{◌≡◌, ◌≤◌, ◌<◌, ◌+◌, ◌^◌, ◌∷◌, List, All, Some, drop, length, slice_get, IfOk, OnOk};
ghost use Rattle.wb_operations.specs.Given.{FitKinds, plains_of};
ghost use Rattle.wb_operations.specs.Kept.{IsKept};
ghost use Rattle.wb_eval_rules.specs.Code.{Instruction, does, job_of, way_of, instructions};
ghost use Rattle.wb_eval.specs.Inner.Works.{IsEvaluating, IsExtended, IsVisit, IsStopped, HasRun, HasDone, IsBuilt, IsCalled, HasTruth, HasTruthFor, IsFollowed};
ghost use Rattle.wb_operations.specs.Operations.{Operations};
ghost use Rattle.wb_syntax_resolved.specs.declared.attribution.AttributionParts.{AttributionParts};
ghost use Rattle.wb_values.specs.ValuesIn.{IsIn, last};
ghost use Rattle.wb_values.specs.declared.value.Value.TheVariants.{Bool};

use crate::context::{Context, Expression};
use crate::evaluation::Evaluation;
use crate::frame::Frame;
use crate::ran::{Ran, Stop};
use crate::visit::visit;
use std::alloc::AllocError;
use wb_eval_rules::{After, Op, Task};
use wb_operations::{Meaning, OperationRefusal, OperationTable};
use wb_values::{TreeStore, Value};

// Evaluates code from a place on.
#[inline(always)]
pub(crate) fn evaluate_code<'a, M: Meaning>(
    context: &Context<'a, '_, M>,
    expression: &Expression<'a>,
    start: usize,
    evaluation: &mut Evaluation<'a>,
    store: &mut TreeStore,
) -> Result<Ran<'a>, AllocError>
    requires evaluating { IsEvaluating context.now.definitions.attributes.now (record { signatures = context.now.operations.now.signatures; meaning = M.meaning }) store.old evaluation.old.machine expression.now.site (drop start (instructions expression.now.code.now)) evaluation.old.values.items }
    requires kept { IsKept context.now.operations.now.signatures context.now.operations.now.built_in context.now.operations.now.runs.items M.meaning
        (λ run vs. ⟦<Box<dyn Fn(&[Value]) -> Result<Value, OperationRefusal>> as Fn(&[Value]) -> Result<Value, OperationRefusal>>⟧.pre run vs)
        (λ run vs r. ⟦<Box<dyn Fn(&[Value]) -> Result<Value, OperationRefusal>> as Fn(&[Value]) -> Result<Value, OperationRefusal>>⟧.post run vs r) }
    ensures ran { IfOk result (HasRun context.now.definitions.attributes.now (record { signatures = context.now.operations.now.signatures; meaning = M.meaning }) store.new evaluation.old.machine evaluation.new.machine evaluation.new.values.items) }
    ensures store { IsExtended store.old store.new }
{
    let code = expression.code;
    let site = expression.site;
    let mut at = start;
    'ops: while at < code.len() {
        let op = &code[at];
        if let Some(stop) = perform(context.operations, evaluation, store, site, op)? {
            return Ok(stopped(expression, at, stop));
        }
        at = follow(&mut evaluation.values, op.after, at);
    }
    Ok(Ran::Top)
}

// What the work comes to that stops at a place.
#[inline(always)]
fn stopped<'a>(expression: &Expression<'a>, at: usize, stop: Stop) -> Ran<'a>
    ensures { IsStopped expression.now at stop result }
{
    match stop {
        Stop::Fault { operation, code } => Ran::Fault { operation, code },
        Stop::Needs(key) => Ran::Needs {
            key,
            frame: Some(Frame {
                site: expression.site,
                code: expression.code,
                at,
            }),
        },
    }
}

// The place where code goes on, with the value of the instruction at a place.
#[inline(always)]
pub(crate) fn follow(values: &mut Vec<Value>, after: After, at: usize) -> usize
    requires room { at + 1 < 2 ^ 64 }
    requires truth { HasTruthFor after values.old.items }
    ensures { IsFollowed after values.old.items values.new.items at result }
{
    match after {
        After::Next => at + 1,
        After::Skip(count) => (at + 1).saturating_add(count),
        After::Unless(count) => {
            let last = values.len() - 1;
            let truth = truth_at(values.as_slice(), last);
            values.truncate(last);
            if truth {
                at + 1
            } else {
                (at + 1).saturating_add(count)
            }
        }
    }
}

// The truth value at a place.
#[inline(always)]
fn truth_at(values: &[Value], at: usize) -> bool
    requires { HasTruth values.now at }
    ensures { slice_get values.now at ≡ Some (Bool result) }
{
    match &values[at] {
        Value::Bool(truth) => *truth,
        _ => unreachable!(),
    }
}

// Does an instruction: why code stops there, where it does.
#[inline(always)]
fn perform<M: Meaning>(
    operations: &OperationTable<M>,
    evaluation: &mut Evaluation,
    store: &mut TreeStore,
    site: usize,
    op: &Op,
) -> Result<Option<Stop>, AllocError>
    requires evaluating { (a : AttributionParts) × (rest : List Instruction) × IsEvaluating a (record { signatures = operations.now.signatures; meaning = M.meaning }) store.old evaluation.old.machine site (does (job_of op.now.task) (way_of op.now.after) ∷ rest) evaluation.old.values.items }
    requires kept { IsKept operations.now.signatures operations.now.built_in operations.now.runs.items M.meaning
        (λ run vs. ⟦<Box<dyn Fn(&[Value]) -> Result<Value, OperationRefusal>> as Fn(&[Value]) -> Result<Value, OperationRefusal>>⟧.pre run vs)
        (λ run vs r. ⟦<Box<dyn Fn(&[Value]) -> Result<Value, OperationRefusal>> as Fn(&[Value]) -> Result<Value, OperationRefusal>>⟧.post run vs r) }
    ensures done { (a : AttributionParts) (rest : List Instruction) → IsEvaluating a (record { signatures = operations.now.signatures; meaning = M.meaning }) store.old evaluation.old.machine site (does (job_of op.now.task) (way_of op.now.after) ∷ rest) evaluation.old.values.items → IfOk result (HasDone a (record { signatures = operations.now.signatures; meaning = M.meaning }) store.new evaluation.old.machine evaluation.new.machine site (does (job_of op.now.task) (way_of op.now.after)) (way_of op.now.after) rest evaluation.new.values.items) }
    ensures store { IsExtended store.old store.new }
{
    match &op.task {
        Task::Build { production, count } => {
            build_tree(store, &mut evaluation.values, *production, *count)?;
            Ok(None)
        }
        Task::Call { operation, count } => {
            call(operations, &mut evaluation.values, *operation, *count)
        }
        Task::Stay => Ok(None),
        _ => visit_or_wait(evaluation, store, site, op),
    }
}

// Visits an expression without parts.
#[inline(always)]
fn visit_or_wait(
    evaluation: &mut Evaluation,
    store: &TreeStore,
    site: usize,
    op: &Op,
) -> Result<Option<Stop>, AllocError>
    requires visit { IsVisit op.now.task }
    requires evaluating { (a : AttributionParts) × (operations : Operations) × (rest : List Instruction) × IsEvaluating a operations store.now evaluation.old.machine site (does (job_of op.now.task) (way_of op.now.after) ∷ rest) evaluation.old.values.items }
    ensures { (a : AttributionParts) (operations : Operations) (rest : List Instruction) → IsEvaluating a operations store.now evaluation.old.machine site (does (job_of op.now.task) (way_of op.now.after) ∷ rest) evaluation.old.values.items → IfOk result (HasDone a operations store.now evaluation.old.machine evaluation.new.machine site (does (job_of op.now.task) (way_of op.now.after)) (way_of op.now.after) rest evaluation.new.values.items) }
{
    match visit(evaluation, store, site, op) {
        Ok(Some(key)) => Ok(Some(Stop::Needs(key))),
        Ok(None) => Ok(None),
        Err(error) => Err(error),
    }
}

// Builds a tree of the last values.
#[inline(never)]
fn build_tree(
    store: &mut TreeStore,
    values: &mut Vec<Value>,
    production: usize,
    count: usize,
) -> Result<(), AllocError>
    requires enough { count ≤ length values.old.items }
    requires inside { All (IsIn (length store.old)) (last count values.old.items) }
    ensures built { OnOk result (IsBuilt store.old store.new values.old.items values.new.items production count) }
    ensures store { IsExtended store.old store.new }
{
    let tree = store.build_from(production, values, count)?;
    values.reserve(1)?;
    values.push_reserved(Value::Tree(tree));
    Ok(())
}

// Calls an operation on the last values: its fault, where it fails.
#[inline(always)]
fn call<M: Meaning>(
    operations: &OperationTable<M>,
    values: &mut Vec<Value>,
    operation: usize,
    count: usize,
) -> Result<Option<Stop>, AllocError>
    requires enough { count ≤ length values.old.items }
    requires there { operation < length operations.now.signatures }
    requires fits { (s : _) → slice_get operations.now.signatures operation ≡ Some s → FitKinds s.takes (last count values.old.items) }
    requires kept { IsKept operations.now.signatures operations.now.built_in operations.now.runs.items M.meaning
        (λ run vs. ⟦<Box<dyn Fn(&[Value]) -> Result<Value, OperationRefusal>> as Fn(&[Value]) -> Result<Value, OperationRefusal>>⟧.pre run vs)
        (λ run vs r. ⟦<Box<dyn Fn(&[Value]) -> Result<Value, OperationRefusal>> as Fn(&[Value]) -> Result<Value, OperationRefusal>>⟧.post run vs r) }
    ensures { IfOk result (IsCalled (M.meaning operation (plains_of (last count values.old.items))) values.old.items values.new.items operation count) }
{
    values.reserve(1)?;
    let start = values.len() - count;
    let answer = operations.call(operation, &values.as_slice()[start..]);
    match answer {
        Ok(value) => {
            values.truncate(start);
            values.push_reserved(value);
            Ok(None)
        }
        Err(OperationRefusal::Fault(code)) => Ok(Some(Stop::Fault { operation, code })),
        Err(OperationRefusal::NoMemory(error)) => Err(error),
    }
}
