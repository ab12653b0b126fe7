//! What is said of an attribute of a text that has no value?

ghost use Rattle.std.specs.Prelude.{◌≡◌, IfOk, IfSome, MatchOption, OnOk};
ghost use Rattle.wb_compose_files.specs.Composed.{IsOfUnion};
ghost use Rattle.wb_compose_files.specs.ParsedTexts.{MayBeAsked};
ghost use Rattle.wb_compose_files.specs.Questions.{IsQuestion};
ghost use Rattle.wb_compose_files.specs.Roots.{HasNoRootAttribute, IsRootAttribute};
ghost use Rattle.wb_compose_files.specs.Unions.{all_resolved};
ghost use Rattle.wb_eval_memo.specs.Memos.{IsWhole};
ghost use Rattle.wb_explain_instances.specs.Ends.{SaysEnd};
ghost use Rattle.wb_explain_values.specs.Inner.Found.{SaysFound, SaysOfParsed};
ghost use Rattle.wb_explain_values.specs.Said.{SaysOfText};
ghost use Rattle.wb_flow_theory.specs.Modular.{EachProduction};
ghost use Rattle.wb_flow_theory.specs.WellDefined.{IsWellDefinedProduction};
ghost use Rattle.wb_operations.specs.Kept.{IsKept};
ghost use Rattle.wb_types.specs.Rules.{KindsOk};

use crate::AskedValue;
use crate::certified::certified_of;
use crate::places::places_of;
use std::alloc::{AllocError, Global};
use wb_compose_files::{Certified, Question, compose, composed_attributes, root_attribute};
use wb_eval::{Waiting, waiting_instances};
use wb_explain_instances::{Leaves, Shown, leaf_counts, push_instances};
use wb_operations::{Meaning, OperationRefusal, OperationTable};
use wb_session::{Parsed, parse};
use wb_syntax_resolved::Attribution;
use wb_values::{TreeStore, Value};

/// Appends what is said of the value that is asked of a text where an operation fails, or the steps end: the equation in which it ended, and
/// what waited. Nothing where a file isn't certified, the text has no tree, no such attribute may be asked, or it has a value.
///
/// All is read, composed and evaluated once more. The only error is out of memory.
pub fn push_waiting<M: Meaning>(
    alloc: Global,
    out: &mut Vec<u8>,
    asked: &AskedValue<'_>,
    operations: &OperationTable<M>,
) -> Result<(), AllocError>
    // The table answers what M means.
    requires kept { IsKept operations.now.signatures operations.now.built_in operations.now.runs.items M.meaning
        (λ run vs. ⟦<Box<dyn Fn(&[Value]) -> Result<Value, OperationRefusal>> as Fn(&[Value]) -> Result<Value, OperationRefusal>>⟧.pre run vs)
        (λ run vs r. ⟦<Box<dyn Fn(&[Value]) -> Result<Value, OperationRefusal>> as Fn(&[Value]) -> Result<Value, OperationRefusal>>⟧.post run vs r) }
    ensures { OnOk result (SaysOfText asked.now.files.now (record { signatures = operations.now.signatures; meaning = M.meaning }) asked.now.text.now asked.now.name.now asked.now.steps out.old.items out.new.items) }
{
    match certified_of(alloc, asked.files, operations) {
        Some(certified) => {
            let answer = push_certified(alloc, out, &certified, asked, operations);
            certified.release();
            answer
        }
        None => Ok(()),
    }
}

// Appends that, in the language of a host with extensions.
fn push_certified<M: Meaning>(
    alloc: Global,
    out: &mut Vec<u8>,
    certified: &Certified,
    asked: &AskedValue<'_>,
    operations: &OperationTable<M>,
) -> Result<(), AllocError>
    requires same { certified.now.host.operations ≡ operations.now.signatures }
    requires kept { IsKept operations.now.signatures operations.now.built_in operations.now.runs.items M.meaning
        (λ run vs. ⟦<Box<dyn Fn(&[Value]) -> Result<Value, OperationRefusal>> as Fn(&[Value]) -> Result<Value, OperationRefusal>>⟧.pre run vs)
        (λ run vs r. ⟦<Box<dyn Fn(&[Value]) -> Result<Value, OperationRefusal>> as Fn(&[Value]) -> Result<Value, OperationRefusal>>⟧.post run vs r) }
    ensures { OnOk result (SaysOfText asked.now.files.now (record { signatures = operations.now.signatures; meaning = M.meaning }) asked.now.text.now asked.now.name.now asked.now.steps out.old.items out.new.items) }
{
    let attributes = composed_attributes(
        alloc,
        certified.certified_host(),
        certified.extensions(),
    )?;
    let answer = push_with(alloc, out, certified, &attributes, asked, operations);
    attributes.release();
    answer
}

// Appends that, by the attributes of all together.
fn push_with<M: Meaning>(
    alloc: Global,
    out: &mut Vec<u8>,
    certified: &Certified,
    attributes: &Attribution,
    asked: &AskedValue<'_>,
    operations: &OperationTable<M>,
) -> Result<(), AllocError>
    requires same { certified.now.host.operations ≡ operations.now.signatures }
    requires attributes { IsOfUnion certified.now.host.resolved certified.now.host.operations (all_resolved certified.now.extensions) attributes.now }
    requires kept { IsKept operations.now.signatures operations.now.built_in operations.now.runs.items M.meaning
        (λ run vs. ⟦<Box<dyn Fn(&[Value]) -> Result<Value, OperationRefusal>> as Fn(&[Value]) -> Result<Value, OperationRefusal>>⟧.pre run vs)
        (λ run vs r. ⟦<Box<dyn Fn(&[Value]) -> Result<Value, OperationRefusal>> as Fn(&[Value]) -> Result<Value, OperationRefusal>>⟧.post run vs r) }
    ensures { OnOk result (SaysOfText asked.now.files.now (record { signatures = operations.now.signatures; meaning = M.meaning }) asked.now.text.now asked.now.name.now asked.now.steps out.old.items out.new.items) }
{
    match attribute_of(alloc, certified, attributes, asked.name)? {
        Some(attribute) => push_asked(
            alloc, out, certified, attributes, attribute, asked, operations,
        ),
        None => Ok(()),
    }
}

// The attribute of a printed name that may be asked at the start, among these attributes.
fn attribute_of(
    alloc: Global,
    certified: &Certified,
    attributes: &Attribution,
    name: &[u8],
) -> Result<Option<usize>, AllocError>
    requires { IsOfUnion certified.now.host.resolved certified.now.host.operations (all_resolved certified.now.extensions) attributes.now }
    ensures { IfOk result (λ found. MatchOption found
        (HasNoRootAttribute certified.now.host.resolved certified.now.host.operations (all_resolved certified.now.extensions) name.now)
        (IsRootAttribute certified.now.host.resolved certified.now.host.operations (all_resolved certified.now.extensions) name.now)) }
{
    root_attribute(alloc, certified.certified_host(), attributes, name)
}

// Appends that of an attribute that may be asked.
fn push_asked<M: Meaning>(
    alloc: Global,
    out: &mut Vec<u8>,
    certified: &Certified,
    attributes: &Attribution,
    attribute: usize,
    asked: &AskedValue<'_>,
    operations: &OperationTable<M>,
) -> Result<(), AllocError>
    requires same { certified.now.host.operations ≡ operations.now.signatures }
    requires attributes { IsOfUnion certified.now.host.resolved certified.now.host.operations (all_resolved certified.now.extensions) attributes.now }
    requires attribute { IsRootAttribute certified.now.host.resolved certified.now.host.operations (all_resolved certified.now.extensions) asked.now.name.now attribute }
    requires kept { IsKept operations.now.signatures operations.now.built_in operations.now.runs.items M.meaning
        (λ run vs. ⟦<Box<dyn Fn(&[Value]) -> Result<Value, OperationRefusal>> as Fn(&[Value]) -> Result<Value, OperationRefusal>>⟧.pre run vs)
        (λ run vs r. ⟦<Box<dyn Fn(&[Value]) -> Result<Value, OperationRefusal>> as Fn(&[Value]) -> Result<Value, OperationRefusal>>⟧.post run vs r) }
    ensures { OnOk result (SaysOfText asked.now.files.now (record { signatures = operations.now.signatures; meaning = M.meaning }) asked.now.text.now asked.now.name.now asked.now.steps out.old.items out.new.items) }
{
    let composed = compose(alloc, certified.certified_host(), certified.extensions())?;
    let question = Question {
        host: certified.certified_host(),
        extensions: certified.extensions(),
        composed: &composed,
        attributes,
        attribute,
        steps: asked.steps,
    };
    let answer = push_question(alloc, out, &question, asked, operations);
    composed.release();
    answer
}

// Appends that of a question.
fn push_question<M: Meaning>(
    alloc: Global,
    out: &mut Vec<u8>,
    question: &Question<'_>,
    asked: &AskedValue<'_>,
    operations: &OperationTable<M>,
) -> Result<(), AllocError>
    requires question { IsQuestion operations.now.signatures question.now }
    requires asked { IsRootAttribute question.now.host.now.resolved question.now.host.now.operations (all_resolved question.now.extensions.now) asked.now.name.now question.now.attribute }
    requires kept { IsKept operations.now.signatures operations.now.built_in operations.now.runs.items M.meaning
        (λ run vs. ⟦<Box<dyn Fn(&[Value]) -> Result<Value, OperationRefusal>> as Fn(&[Value]) -> Result<Value, OperationRefusal>>⟧.pre run vs)
        (λ run vs r. ⟦<Box<dyn Fn(&[Value]) -> Result<Value, OperationRefusal>> as Fn(&[Value]) -> Result<Value, OperationRefusal>>⟧.post run vs r) }
    ensures { OnOk result (SaysOfText asked.now.files.now (record { signatures = operations.now.signatures; meaning = M.meaning }) asked.now.text.now asked.now.name.now question.now.steps out.old.items out.new.items) }
{
    let mut store = TreeStore::new(alloc);
    let language = question.composed.language();
    let _grammar = language.grammar();
    let parsed = parse(alloc, language, asked.text, &mut store)?;
    let answer = push_parsed(alloc, out, question, &mut store, parsed, asked, operations);
    drop(store);
    answer
}

// Appends that of what the text was parsed to.
fn push_parsed<M: Meaning>(
    alloc: Global,
    out: &mut Vec<u8>,
    question: &Question<'_>,
    store: &mut TreeStore,
    parsed: Parsed,
    asked: &AskedValue<'_>,
    operations: &OperationTable<M>,
) -> Result<(), AllocError>
    requires productions { EachProduction question.now.attributes.now (IsWellDefinedProduction question.now.attributes.now) }
    requires kinds { KindsOk question.now.attributes.now operations.now.signatures }
    requires asked { MayBeAsked question.now.attributes.now store.old question.now.attribute parsed }
    requires kept { IsKept operations.now.signatures operations.now.built_in operations.now.runs.items M.meaning
        (λ run vs. ⟦<Box<dyn Fn(&[Value]) -> Result<Value, OperationRefusal>> as Fn(&[Value]) -> Result<Value, OperationRefusal>>⟧.pre run vs)
        (λ run vs r. ⟦<Box<dyn Fn(&[Value]) -> Result<Value, OperationRefusal>> as Fn(&[Value]) -> Result<Value, OperationRefusal>>⟧.post run vs r) }
    ensures { OnOk result (SaysOfParsed asked.now.files.now question.now.attributes.now (record { signatures = operations.now.signatures; meaning = M.meaning }) store.old question.now.attribute question.now.steps parsed out.old.items out.new.items) }
{
    match parsed {
        Parsed::Tree(root) => {
            let waiting = waiting_instances(
                alloc,
                question.attributes,
                store,
                root,
                question.attribute,
                question.steps,
                operations,
            )?;
            push_found(alloc, out, question, store, waiting, asked)
        }
        Parsed::Stopped { at: _, kind: _ } => Ok(()),
    }
}

// Appends what waits, where something does.
fn push_found(
    alloc: Global,
    out: &mut Vec<u8>,
    question: &Question<'_>,
    store: &TreeStore,
    waiting: Option<Waiting>,
    asked: &AskedValue<'_>,
) -> Result<(), AllocError>
    requires { IfSome waiting (λ w. IsWhole w.memo) }
    ensures { OnOk result (SaysFound asked.now.files.now question.now.attributes.now store.now waiting out.old.items out.new.items) }
{
    match waiting {
        Some(waiting) => {
            let answer = push_shown(alloc, out, question, store, &waiting, asked);
            drop(waiting);
            answer
        }
        None => Ok(()),
    }
}

// Appends what waits, with its places in the text.
fn push_shown(
    alloc: Global,
    out: &mut Vec<u8>,
    question: &Question<'_>,
    store: &TreeStore,
    waiting: &Waiting,
    asked: &AskedValue<'_>,
) -> Result<(), AllocError>
    requires { IsWhole waiting.now.memo }
    ensures { OnOk result (SaysEnd question.now.attributes.now store.now waiting.now asked.now.files.now out.old.items out.new.items) }
{
    let places = places_of(alloc, question.composed.language(), asked.text)?;
    let answer = push_placed(alloc, out, question, store, waiting, asked, &places);
    drop(places);
    answer
}

// Appends what waits, where these are the places of the leaves of the text.
fn push_placed<'a>(
    alloc: Global,
    out: &mut Vec<u8>,
    question: &'a Question<'a>,
    store: &'a TreeStore,
    waiting: &'a Waiting,
    asked: &'a AskedValue<'a>,
    places: &'a [usize],
) -> Result<(), AllocError>
    requires { IsWhole waiting.now.memo }
    ensures { OnOk result (SaysEnd question.now.attributes.now store.now waiting.now asked.now.files.now out.old.items out.new.items) }
{
    let counts = leaf_counts(alloc, store)?;
    let shown = Shown {
        attributes: question.attributes.parts(),
        store,
        waiting,
        files: asked.files,
        leaves: Some(Leaves {
            text: asked.text,
            counts: &counts,
            places,
        }),
    };
    let answer = push_instances(alloc, out, &shown);
    drop(counts);
    answer
}
