//! What does an instruction of an expression without parts do?
//!
//! It pushes a value or reads an instance. Those on values are in `perform`.

ghost use Rattle.std.specs.Prelude.{◌≤◌, ◌∷◌, List, IfOk};
ghost use Rattle.wb_eval.specs.Inner.Works.{IsEvaluating, IsVisit, IsOtherVisit, HasVisited, HasLabel, IsLabelVisited, IsPushed};
ghost use Rattle.wb_eval_memo.specs.Memos.{count, IsWhole};
ghost use Rattle.wb_eval_rules.specs.Code.{Instruction, does, job_of, way_of};
ghost use Rattle.wb_operations.specs.Operations.{Operations};
ghost use Rattle.wb_syntax_resolved.specs.declared.attribution.AttributionParts.{AttributionParts};
ghost use Rattle.wb_values.specs.declared.value.Value.TheVariants.{Text};

use crate::evaluation::Evaluation;
use crate::expression::{low, read, read_below, read_local, step_to, visit_child, visit_value};
use crate::machine::Key;
use std::alloc::AllocError;
use wb_base::Bytes;
use wb_eval_memo::Step;
use wb_eval_rules::{Op, Task};
use wb_syntax_resolved::Place;
use wb_values::{TreeStore, Value};

// Does an instruction of an expression without parts: the instance that it reads, where that wasn't entered. Attributes of children and
// of the top are read here, since most that is done is that.
#[inline(always)]
pub(crate) fn visit(
    evaluation: &mut Evaluation,
    store: &TreeStore,
    site: usize,
    op: &Op,
) -> Result<Option<Key>, AllocError>
    requires visit { IsVisit op.now.task }
    requires evaluating { (a : AttributionParts) × (operations : Operations) × (rest : List Instruction) × IsEvaluating a operations store.now evaluation.old.machine site (does (job_of op.now.task) (way_of op.now.after) ∷ rest) evaluation.old.values.items }
    ensures { (a : AttributionParts) (operations : Operations) (rest : List Instruction) → IsEvaluating a operations store.now evaluation.old.machine site (does (job_of op.now.task) (way_of op.now.after) ∷ rest) evaluation.old.values.items → IfOk result (HasVisited a operations store.now evaluation.old.machine evaluation.new.machine site (does (job_of op.now.task) (way_of op.now.after)) (way_of op.now.after) rest evaluation.new.values.items) }
{
    match &op.task {
        Task::Read { label, attribute } => {
            let step = step_to(*label)?;
            read_below(evaluation, store, site, step, *attribute)
        }
        Task::Top(attribute) => {
            let key = Key::Inherited {
                site,
                attribute: *attribute,
            };
            read(&evaluation.machine, &mut evaluation.values, key)
        }
        _ => visit_other(evaluation, store, site, op),
    }
}

// The same where no attribute of a child or of the top is read.
#[inline(never)]
fn visit_other(
    evaluation: &mut Evaluation,
    store: &TreeStore,
    site: usize,
    op: &Op,
) -> Result<Option<Key>, AllocError>
    requires visit { IsOtherVisit op.now.task }
    requires evaluating { (a : AttributionParts) × (operations : Operations) × (rest : List Instruction) × IsEvaluating a operations store.now evaluation.old.machine site (does (job_of op.now.task) (way_of op.now.after) ∷ rest) evaluation.old.values.items }
    ensures { (a : AttributionParts) (operations : Operations) (rest : List Instruction) → IsEvaluating a operations store.now evaluation.old.machine site (does (job_of op.now.task) (way_of op.now.after) ∷ rest) evaluation.old.values.items → IfOk result (HasVisited a operations store.now evaluation.old.machine evaluation.new.machine site (does (job_of op.now.task) (way_of op.now.after)) (way_of op.now.after) rest evaluation.new.values.items) }
{
    match &op.task {
        Task::Int(number) => visit_value(&mut evaluation.values, Value::Int(*number)),
        Task::Text(text) => visit_text(&mut evaluation.values, text),
        Task::Bool(truth) => visit_value(&mut evaluation.values, Value::Bool(*truth)),
        Task::Label(place) | Task::Lexeme(place) => visit_label(evaluation, store, site, *place),
        Task::Forward(attribute) => {
            read_below(evaluation, store, site, Step::Forward, *attribute)
        }
        _ => unreachable!(),
    }
}

// Pushes a text.
#[inline(never)]
fn visit_text(values: &mut Vec<Value>, text: &Bytes) -> Result<Option<Key>, AllocError>
    ensures { IfOk result (IsPushed values.old.items values.new.items (Text text.now)) }
{
    let text = text.copy()?;
    visit_value(values, Value::Text(text))
}

// Pushes the value of a child, or reads the tree of a local.
#[inline(always)]
fn visit_label(
    evaluation: &mut Evaluation,
    store: &TreeStore,
    site: usize,
    place: Place,
) -> Result<Option<Key>, AllocError>
    requires whole { IsWhole evaluation.old.machine.memo }
    requires there { site ≤ count evaluation.old.machine.memo }
    requires label { HasLabel store.now evaluation.old.machine site place }
    ensures { IfOk result (IsLabelVisited store.now evaluation.old.machine evaluation.new.machine site place evaluation.old.values.items evaluation.new.values.items) }
{
    match place {
        Place::Child(k) => visit_child(&evaluation.machine, store, &mut evaluation.values, site, k),
        Place::Local(x) => {
            let local = low(x)?;
            read_local(evaluation, store, site, local)
        }
    }
}
