//! How is an attribute of a root evaluated?
//!
//! Instances are entered as they are read, and each goes on where it waited once what it reads is known. What is done at one is in `run`.

ghost use Rattle.std.specs.Prelude.{◌≡◌, ◌<◌, [], length, IfOk};
ghost use Rattle.wb_flow_theory.specs.Modular.{EachProduction};
ghost use Rattle.wb_flow_theory.specs.WellDefined.{IsWellDefinedProduction};
ghost use Rattle.wb_eval_theory.specs.Evaluable.{IsEvaluable, IsAsked};
ghost use Rattle.wb_eval.specs.Evaluates.{HoldsMore, IsValue, IsFault, AsksMore};
ghost use Rattle.wb_eval.specs.Inner.Machines.{IsFresh};
ghost use Rattle.wb_eval.specs.Inner.Answering.{IsAnswered};
ghost use Rattle.wb_eval.specs.Inner.Works.{IsExtended};
ghost use Rattle.wb_operations.specs.Kept.{IsKept};
ghost use Rattle.wb_eval_rules.specs.Codes.{AreCoded};
ghost use Rattle.wb_eval_rules.specs.Indexes.{AreIndexes};
ghost use Rattle.wb_types.specs.Rules.{KindsOk};
ghost use Rattle.wb_values.specs.ValuesIn.{tree_in};

use crate::context::{Context, Definitions};
use crate::evaluated::Evaluated;
use crate::evaluation::Evaluation;
use crate::machine::{Key, Machine};
use crate::run::run;
use crate::steps::{Turn, proceed};
use std::alloc::{AllocError, Global};
use wb_eval_rules::RuleIndex;
use wb_operations::{Meaning, OperationRefusal, OperationTable};
use wb_syntax_resolved::Attribution;
use wb_values::{TreeId, TreeStore, Value};

/// The value or the fault of a synthesized attribute of a tree, or that more instances are needed than there are steps.
///
/// Each instance's code is gone through once: where it reads one whose value isn't known, it waits with its values where they are, and goes on
/// behind the read. Memory may run out at any step.
pub fn evaluate<M: Meaning>(
    alloc: Global,
    attributes: &Attribution,
    store: &mut TreeStore,
    root: TreeId,
    attribute: usize,
    steps: u64,
    operations: &OperationTable<M>,
) -> Result<Evaluated, AllocError>
    // The attributes of each production are well defined, and kinds hold over the operations of the table.
    requires productions { EachProduction attributes.now (IsWellDefinedProduction attributes.now) }
    requires kinds { KindsOk attributes.now operations.now.signatures }

    // The tree is in the store; the attribute occurs on it, and needs nothing there.
    requires there { root.0 < length store.old }
    requires asked { IsAsked attributes.now (tree_in store.old root.0) attribute }

    // The table answers what M means.
    requires kept { IsKept operations.now.signatures operations.now.built_in operations.now.runs.items M.meaning
        (λ run vs. ⟦<Box<dyn Fn(&[Value]) -> Result<Value, OperationRefusal>> as Fn(&[Value]) -> Result<Value, OperationRefusal>>⟧.pre run vs)
        (λ run vs r. ⟦<Box<dyn Fn(&[Value]) -> Result<Value, OperationRefusal>> as Fn(&[Value]) -> Result<Value, OperationRefusal>>⟧.post run vs r) }

    // Each answer comes exactly where it is so.
    ensures value { IfOk result (IsValue attributes.now (record { signatures = operations.now.signatures; meaning = M.meaning }) (tree_in store.old root.0) attribute steps store.new) }
    ensures fault { IfOk result (IsFault attributes.now (record { signatures = operations.now.signatures; meaning = M.meaning }) (tree_in store.old root.0) attribute steps) }
    ensures more { IfOk result (AsksMore attributes.now (record { signatures = operations.now.signatures; meaning = M.meaning }) (tree_in store.old root.0) attribute steps) }

    // The store holds what it held, and maybe more.
    ensures store { HoldsMore store.old store.new }
{
    if steps == 0 {
        return Ok(Evaluated::MoreSteps);
    }
    let _ = operations.signatures().len();
    let lists = attributes.parts();
    let signatures = &operations.signatures;
    let rules = RuleIndex::new(alloc, signatures, lists.productions.as_slice())?;
    let context = Context {
        definitions: Definitions {
            attributes: lists,
            rules: &rules,
        },
        operations,
        steps,
    };
    let answer = evaluate_root(alloc, &context, store, root, attribute);
    drop(context);
    drop(rules);
    answer
}

// Evaluates an attribute of a root, by rules that were found before.
fn evaluate_root<M: Meaning>(
    alloc: Global,
    context: &Context<M>,
    store: &mut TreeStore,
    root: TreeId,
    attribute: usize,
) -> Result<Evaluated, AllocError>
    requires evaluable { IsEvaluable context.now.definitions.attributes.now (record { signatures = context.now.operations.now.signatures; meaning = M.meaning }) }
    requires there { root.0 < length store.old }
    requires asked { IsAsked context.now.definitions.attributes.now (tree_in store.old root.0) attribute }
    requires steps { 0 < context.now.steps }
    requires rules { AreIndexes context.now.definitions.attributes.now.productions context.now.definitions.rules.now.rows.items }
    requires coded { AreCoded context.now.operations.now.signatures context.now.definitions.attributes.now.productions context.now.definitions.rules.now.codes.items }
    requires kept { IsKept context.now.operations.now.signatures context.now.operations.now.built_in context.now.operations.now.runs.items M.meaning
        (λ run vs. ⟦<Box<dyn Fn(&[Value]) -> Result<Value, OperationRefusal>> as Fn(&[Value]) -> Result<Value, OperationRefusal>>⟧.pre run vs)
        (λ run vs r. ⟦<Box<dyn Fn(&[Value]) -> Result<Value, OperationRefusal>> as Fn(&[Value]) -> Result<Value, OperationRefusal>>⟧.post run vs r) }
    ensures answered { IfOk result (IsAnswered context.now.definitions.attributes.now (record { signatures = context.now.operations.now.signatures; meaning = M.meaning }) store.new root attribute context.now.steps) }
    ensures store { IsExtended store.old store.new }
{
    // A site has room for the values of all attributes at once, where there are few.
    let attributes = context.definitions.attributes.attributes.as_slice();
    let machine = Machine::new(alloc, root, attribute, attributes.len().min(16))?;
    let mut evaluation = Evaluation {
        machine,
        values: Vec::new(alloc),
    };
    let answer = take_turns(context, &mut evaluation, store);
    drop(evaluation);
    answer
}

// Enters the attribute that is asked, and works on instances until the answer is known.
fn take_turns<'a, M: Meaning>(
    context: &Context<'a, '_, M>,
    evaluation: &mut Evaluation<'a>,
    store: &mut TreeStore,
) -> Result<Evaluated, AllocError>
    requires values { evaluation.old.values.items ≡ [] }
    requires fresh { IsFresh context.now.definitions.attributes.now (record { signatures = context.now.operations.now.signatures; meaning = M.meaning }) store.old evaluation.old.machine }
    requires steps { 0 < context.now.steps }
    requires rules { AreIndexes context.now.definitions.attributes.now.productions context.now.definitions.rules.now.rows.items }
    requires coded { AreCoded context.now.operations.now.signatures context.now.definitions.attributes.now.productions context.now.definitions.rules.now.codes.items }
    requires kept { IsKept context.now.operations.now.signatures context.now.operations.now.built_in context.now.operations.now.runs.items M.meaning
        (λ run vs. ⟦<Box<dyn Fn(&[Value]) -> Result<Value, OperationRefusal>> as Fn(&[Value]) -> Result<Value, OperationRefusal>>⟧.pre run vs)
        (λ run vs r. ⟦<Box<dyn Fn(&[Value]) -> Result<Value, OperationRefusal>> as Fn(&[Value]) -> Result<Value, OperationRefusal>>⟧.post run vs r) }
    ensures answered { IfOk result (IsAnswered context.now.definitions.attributes.now (record { signatures = context.now.operations.now.signatures; meaning = M.meaning }) store.new evaluation.old.machine.root evaluation.old.machine.attribute context.now.steps) }
    ensures store { IsExtended store.old store.new }
{
    let attribute = evaluation.machine.attribute;
    evaluation
        .machine
        .start(Key::Synthesized { site: 0, attribute })?;
    let mut frame = None;
    'turns: loop {
        let ran = run(context, evaluation, store, frame)?;
        match proceed(evaluation, ran, context.steps)? {
            Turn::Over(answer) => return Ok(answer),
            Turn::Goes(next) => frame = next,
        }
    }
}
