//! What is said of a text that stops, or of an attribute at the root of a text or a term?

ghost use Rattle.wb_operations.specs.Kept.{IsKept};

use crate::wanted::Wanted;
use std::alloc::{AllocError, Global};
use wb_base::Bytes;
use wb_explain_language::{push_attributes_in, push_stop_in};
use wb_explain_places::Source;
use wb_explain_values::{AskedValue, push_waiting, push_waiting_term};
use wb_operations::{Meaning, OperationRefusal, OperationTable};
use wb_values::Value;

// Appends what is said of a text or a term, by the status. The files are those of the host and of the extensions.
pub(crate) fn push_run<M: Meaning>(
    alloc: Global,
    out: &mut Vec<u8>,
    wanted: &Wanted<'_>,
    files: &[Bytes],
    text: &[u8],
    operations: &OperationTable<M>,
) -> Result<(), AllocError>
    requires kept { IsKept operations.now.signatures operations.now.built_in operations.now.runs.items M.meaning
        (λ run vs. ⟦<Box<dyn Fn(&[Value]) -> Result<Value, OperationRefusal>> as Fn(&[Value]) -> Result<Value, OperationRefusal>>⟧.pre run vs)
        (λ run vs r. ⟦<Box<dyn Fn(&[Value]) -> Result<Value, OperationRefusal>> as Fn(&[Value]) -> Result<Value, OperationRefusal>>⟧.post run vs r) }
{
    match wanted.status {
        5 => push_stop_in(alloc, out, operations, files, text),
        17 => push_asked(alloc, out, wanted, files, operations),
        _ => push_value(alloc, out, wanted, files, text, operations),
    }
}

// Appends which attributes can be asked at the root of a text; nothing of a term.
fn push_asked<M: Meaning>(
    alloc: Global,
    out: &mut Vec<u8>,
    wanted: &Wanted<'_>,
    files: &[Bytes],
    operations: &OperationTable<M>,
) -> Result<(), AllocError> {
    if wanted.named.is_term {
        return Ok(());
    }
    push_attributes_in(alloc, out, operations, files)
}

// Appends what is said of a value that a text or a term doesn't have.
fn push_value<M: Meaning>(
    alloc: Global,
    out: &mut Vec<u8>,
    wanted: &Wanted<'_>,
    files: &[Bytes],
    text: &[u8],
    operations: &OperationTable<M>,
) -> Result<(), AllocError>
    requires kept { IsKept operations.now.signatures operations.now.built_in operations.now.runs.items M.meaning
        (λ run vs. ⟦<Box<dyn Fn(&[Value]) -> Result<Value, OperationRefusal>> as Fn(&[Value]) -> Result<Value, OperationRefusal>>⟧.pre run vs)
        (λ run vs r. ⟦<Box<dyn Fn(&[Value]) -> Result<Value, OperationRefusal>> as Fn(&[Value]) -> Result<Value, OperationRefusal>>⟧.post run vs r) }
{
    let mut sources = Vec::new(alloc);
    let answer = match add_sources(wanted, files, &mut sources) {
        Ok(()) => push_with(alloc, out, wanted, &sources, text, operations),
        Err(error) => Err(error),
    };
    drop(sources);
    answer
}

// Adds the specifications that these files are: the host first, and then its extensions.
fn add_sources<'a>(
    wanted: &Wanted<'a>,
    files: &'a [Bytes],
    sources: &mut Vec<Source<'a>>,
) -> Result<(), AllocError> {
    let [first, others @ ..] = files else {
        return Ok(());
    };
    let host = first.as_slice();
    sources.reserve(1)?;
    sources.push_reserved(source_of(wanted.named.host, host, None));
    'files: for place in 0..others.len() {
        let Some(name) = wanted.extensions.get(place) else {
            return Ok(());
        };
        let contents = others[place].as_slice();
        sources.reserve(1)?;
        sources.push_reserved(source_of(name.as_str(), contents, Some(host)));
    }
    Ok(())
}

// A specification with its parts.
fn source_of<'a>(file: &'a str, contents: &'a [u8], host: Option<&'a [u8]>) -> Source<'a> {
    Source {
        file,
        contents,
        host,
    }
}

// Appends what is said of a value in the language of these specifications.
fn push_with<M: Meaning>(
    alloc: Global,
    out: &mut Vec<u8>,
    wanted: &Wanted<'_>,
    sources: &[Source<'_>],
    text: &[u8],
    operations: &OperationTable<M>,
) -> Result<(), AllocError>
    requires kept { IsKept operations.now.signatures operations.now.built_in operations.now.runs.items M.meaning
        (λ run vs. ⟦<Box<dyn Fn(&[Value]) -> Result<Value, OperationRefusal>> as Fn(&[Value]) -> Result<Value, OperationRefusal>>⟧.pre run vs)
        (λ run vs r. ⟦<Box<dyn Fn(&[Value]) -> Result<Value, OperationRefusal>> as Fn(&[Value]) -> Result<Value, OperationRefusal>>⟧.post run vs r) }
{
    let asked = AskedValue {
        files: sources,
        text,
        name: wanted.named.attribute.as_bytes(),
        steps: wanted.named.steps,
    };
    if wanted.named.is_term {
        return push_waiting_term(alloc, out, &asked, operations);
    }
    push_waiting(alloc, out, &asked, operations)
}
