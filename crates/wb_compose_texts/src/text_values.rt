//! Evaluates an attribute at the root of a text's tree.

ghost use Rattle.std.specs.Prelude.{ℕ, List, IfOk};
ghost use Rattle.wb_flow_theory.specs.Modular.{EachProduction};
ghost use Rattle.wb_flow_theory.specs.WellDefined.{IsWellDefinedProduction};
ghost use Rattle.wb_operations.specs.Kept.{IsKept};
ghost use Rattle.wb_types.specs.Rules.{KindsOk};
ghost use Rattle.wb_compose_texts.specs.Names.{terminals_of};
ghost use Rattle.wb_compose_texts.specs.Unions.{all_resolved};
ghost use Rattle.wb_compose_texts.specs.Inner.Parsed.{ComesOf, MayBeAsked};
ghost use Rattle.wb_compose_texts.specs.Questions.{IsQuestion};
ghost use Rattle.wb_compose_texts.specs.Roots.{IsRootAttribute};
ghost use Rattle.wb_compose_texts.specs.Values.{IsTextValue};

use crate::{Question, TextValue, united_stop};
use std::alloc::{AllocError, Global};
use wb_eval_root::tree_value;
use wb_operations::{Meaning, OperationRefusal, OperationTable};
use wb_session::{Parsed, parse};
use wb_values::{TreeStore, Value};

/// What comes of a text and an attribute that may be asked at the start, within so many steps, in the language that is composed of a host
/// and extensions.
///
/// The parse comes first, then the evaluation, and then the length of the printed value. No clause bounds the time.
pub fn text_value<M: Meaning>(
    alloc: Global,
    question: &Question<'_>,
    text: &[u8],
    operations: &OperationTable<M>,
) -> Result<TextValue, AllocError>
    requires question { IsQuestion operations.now.signatures question.now }

    // The table answers what M means.
    requires kept { IsKept operations.now.signatures operations.now.built_in operations.now.runs.items M.meaning
        (λ run vs. ⟦<Box<dyn Fn(&[Value]) -> Result<Value, OperationRefusal>> as Fn(&[Value]) -> Result<Value, OperationRefusal>>⟧.pre run vs)
        (λ run vs r. ⟦<Box<dyn Fn(&[Value]) -> Result<Value, OperationRefusal>> as Fn(&[Value]) -> Result<Value, OperationRefusal>>⟧.post run vs r) }
    ensures { (name : List ℕ) → IsRootAttribute question.now.host.now.resolved question.now.host.now.operations (all_resolved question.now.extensions.now) name question.now.attribute
        → IfOk result (IsTextValue question.now.host.now.resolved (record { signatures = operations.now.signatures; meaning = M.meaning }) (all_resolved question.now.extensions.now) text.now name question.now.steps) }
{
    let mut store = TreeStore::new(alloc);
    let language = question.composed.language();
    let _grammar = language.grammar();
    let parsed = parse(alloc, language, text, &mut store)?;
    value_of(alloc, question, &mut store, parsed, operations)
}

// What comes of what a text was parsed to.
fn value_of<M: Meaning>(
    alloc: Global,
    question: &Question<'_>,
    store: &mut TreeStore,
    parsed: Parsed,
    operations: &OperationTable<M>,
) -> Result<TextValue, AllocError>
    requires productions { EachProduction question.now.attributes.now (IsWellDefinedProduction question.now.attributes.now) }
    requires kinds { KindsOk question.now.attributes.now operations.now.signatures }
    requires asked { MayBeAsked question.now.attributes.now store.old question.now.attribute parsed }
    requires kept { IsKept operations.now.signatures operations.now.built_in operations.now.runs.items M.meaning
        (λ run vs. ⟦<Box<dyn Fn(&[Value]) -> Result<Value, OperationRefusal>> as Fn(&[Value]) -> Result<Value, OperationRefusal>>⟧.pre run vs)
        (λ run vs r. ⟦<Box<dyn Fn(&[Value]) -> Result<Value, OperationRefusal>> as Fn(&[Value]) -> Result<Value, OperationRefusal>>⟧.post run vs r) }
    ensures { IfOk result (ComesOf question.now.attributes.now (record { signatures = operations.now.signatures; meaning = M.meaning }) (terminals_of question.now.host.now.resolved (all_resolved question.now.extensions.now)) store.old question.now.attribute question.now.steps parsed) }
{
    match parsed {
        Parsed::Tree(tree) => {
            let value = tree_value(
                alloc,
                question.attributes,
                store,
                tree,
                question.attribute,
                question.steps,
                operations,
            )?;
            Ok(TextValue::Tree(value))
        }
        Parsed::Stopped { at, kind } => {
            let stop = united_stop(alloc, question.host, question.extensions, kind)?;
            Ok(TextValue::Stopped { at, stop })
        }
    }
}
