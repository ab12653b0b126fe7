//! What is the value of an attribute at the root of a text, in the language of a host and extensions?
//!
//! The attributes of all together are made at each call.

ghost use Rattle.std.specs.Prelude.{◌≡◌, IfOk, MatchOption};
ghost use Rattle.wb_compose_texts.specs.Composed.{IsOfUnion};
ghost use Rattle.wb_compose_texts.specs.Roots.{HasNoRootAttribute, IsRootAttribute};
ghost use Rattle.wb_compose_texts.specs.Unions.{all_resolved};
ghost use Rattle.wb_compose_texts.specs.Values.{IsTextValue};
ghost use Rattle.wb_operations.specs.Kept.{IsKept};

use crate::TextLanguage;
use std::alloc::{AllocError, Global};
use wb_compose_texts::{Question, TextValue, composed_attributes, root_attribute, text_value};
use wb_operations::{Meaning, OperationRefusal, OperationTable};
use wb_syntax_resolved::Attribution;
use wb_values::Value;

// A text, the printed name of an attribute, and the most steps.
#[derive(Clone, Copy)]
struct Asked<'a> {
    text: &'a [u8],
    name: &'a [u8],
    steps: u64,
}

impl TextLanguage {
    /// What comes of a text and the attribute of a printed name at its root, within so many steps, or None where no such attribute may be
    /// asked there. The only error is out of memory.
    ///
    /// The table of operations is one with which the host was certified. A step is an instance that is needed, counted once. No clause
    /// bounds the time.
    pub fn value<M: Meaning>(
        &self,
        alloc: Global,
        text: &[u8],
        name: &[u8],
        steps: u64,
        operations: &OperationTable<M>,
    ) -> Result<Option<TextValue>, AllocError>
        requires operations { self.now.certified.host.operations ≡ operations.now.signatures }

        // The table answers what M means.
        requires kept { IsKept operations.now.signatures operations.now.built_in operations.now.runs.items M.meaning
            (λ run vs. ⟦<Box<dyn Fn(&[Value]) -> Result<Value, OperationRefusal>> as Fn(&[Value]) -> Result<Value, OperationRefusal>>⟧.pre run vs)
            (λ run vs r. ⟦<Box<dyn Fn(&[Value]) -> Result<Value, OperationRefusal>> as Fn(&[Value]) -> Result<Value, OperationRefusal>>⟧.post run vs r) }
        ensures { IfOk result (λ found. MatchOption found
            (HasNoRootAttribute self.now.certified.host.resolved operations.now.signatures (all_resolved self.now.certified.extensions) name.now)
            (IsTextValue self.now.certified.host.resolved (record { signatures = operations.now.signatures; meaning = M.meaning }) (all_resolved self.now.certified.extensions) text.now name.now steps)) }
    {
        let _extensions = self.certified().extensions();
        let attributes = attributes_of(alloc, self)?;
        let asked = Asked { text, name, steps };
        let answer = value_with(alloc, self, &attributes, &asked, operations);
        attributes.release();
        answer
    }
}

// The attributes of the host with the extensions.
fn attributes_of(alloc: Global, language: &TextLanguage) -> Result<Attribution, AllocError>
    ensures { IfOk result (IsOfUnion language.now.certified.host.resolved language.now.certified.host.operations (all_resolved language.now.certified.extensions)) }
{
    let certified = language.certified();
    composed_attributes(alloc, certified.certified_host(), certified.extensions())
}

// What comes of what is asked, among these attributes.
fn value_with<M: Meaning>(
    alloc: Global,
    language: &TextLanguage,
    attributes: &Attribution,
    asked: &Asked<'_>,
    operations: &OperationTable<M>,
) -> Result<Option<TextValue>, AllocError>
    requires operations { language.now.certified.host.operations ≡ operations.now.signatures }
    requires attributes { IsOfUnion language.now.certified.host.resolved language.now.certified.host.operations (all_resolved language.now.certified.extensions) attributes.now }
    requires kept { IsKept operations.now.signatures operations.now.built_in operations.now.runs.items M.meaning
        (λ run vs. ⟦<Box<dyn Fn(&[Value]) -> Result<Value, OperationRefusal>> as Fn(&[Value]) -> Result<Value, OperationRefusal>>⟧.pre run vs)
        (λ run vs r. ⟦<Box<dyn Fn(&[Value]) -> Result<Value, OperationRefusal>> as Fn(&[Value]) -> Result<Value, OperationRefusal>>⟧.post run vs r) }
    ensures { IfOk result (λ found. MatchOption found
        (HasNoRootAttribute language.now.certified.host.resolved operations.now.signatures (all_resolved language.now.certified.extensions) asked.now.name.now)
        (IsTextValue language.now.certified.host.resolved (record { signatures = operations.now.signatures; meaning = M.meaning }) (all_resolved language.now.certified.extensions) asked.now.text.now asked.now.name.now asked.now.steps)) }
{
    match attribute_of(alloc, language, attributes, asked.name)? {
        Some(attribute) => {
            let value = asked_value(alloc, language, attributes, attribute, asked, operations)?;
            Ok(Some(value))
        }
        None => Ok(None),
    }
}

// The attribute of a printed name that may be asked at the start, among these attributes.
fn attribute_of(
    alloc: Global,
    language: &TextLanguage,
    attributes: &Attribution,
    name: &[u8],
) -> Result<Option<usize>, AllocError>
    requires { IsOfUnion language.now.certified.host.resolved language.now.certified.host.operations (all_resolved language.now.certified.extensions) attributes.now }
    ensures { IfOk result (λ found. MatchOption found
        (HasNoRootAttribute language.now.certified.host.resolved language.now.certified.host.operations (all_resolved language.now.certified.extensions) name.now)
        (IsRootAttribute language.now.certified.host.resolved language.now.certified.host.operations (all_resolved language.now.certified.extensions) name.now)) }
{
    root_attribute(
        alloc,
        language.certified().certified_host(),
        attributes,
        name,
    )
}

// What comes of a text and an attribute that may be asked by the name.
fn asked_value<M: Meaning>(
    alloc: Global,
    language: &TextLanguage,
    attributes: &Attribution,
    attribute: usize,
    asked: &Asked<'_>,
    operations: &OperationTable<M>,
) -> Result<TextValue, AllocError>
    requires operations { language.now.certified.host.operations ≡ operations.now.signatures }
    requires attributes { IsOfUnion language.now.certified.host.resolved language.now.certified.host.operations (all_resolved language.now.certified.extensions) attributes.now }
    requires attribute { IsRootAttribute language.now.certified.host.resolved language.now.certified.host.operations (all_resolved language.now.certified.extensions) asked.now.name.now attribute }
    requires kept { IsKept operations.now.signatures operations.now.built_in operations.now.runs.items M.meaning
        (λ run vs. ⟦<Box<dyn Fn(&[Value]) -> Result<Value, OperationRefusal>> as Fn(&[Value]) -> Result<Value, OperationRefusal>>⟧.pre run vs)
        (λ run vs r. ⟦<Box<dyn Fn(&[Value]) -> Result<Value, OperationRefusal>> as Fn(&[Value]) -> Result<Value, OperationRefusal>>⟧.post run vs r) }
    ensures { IfOk result (IsTextValue language.now.certified.host.resolved (record { signatures = operations.now.signatures; meaning = M.meaning }) (all_resolved language.now.certified.extensions) asked.now.text.now asked.now.name.now asked.now.steps) }
{
    let certified = language.certified();
    let question = Question {
        host: certified.certified_host(),
        extensions: certified.extensions(),
        composed: language.composed(),
        attributes,
        attribute,
        steps: asked.steps,
    };
    text_value(alloc, &question, asked.text, operations)
}
