//! What is said of an attribute of a term that has no value?

ghost use Rattle.std.specs.Prelude.{◌<◌, ℕ, length, IfSome, OnOk};
ghost use Rattle.wb_eval_memo.specs.Memos.{IsWhole};
ghost use Rattle.wb_eval_root.specs.Asked.{IsAskedAs};
ghost use Rattle.wb_explain_instances.specs.Ends.{SaysEnd};
ghost use Rattle.wb_explain_values.specs.Inner.Found.{SaysFound};
ghost use Rattle.wb_explain_values.specs.Said.{SaysOfHostTerm, SaysOfNamed, SaysOfTerm};
ghost use Rattle.wb_flow_theory.specs.Modular.{EachProduction};
ghost use Rattle.wb_flow_theory.specs.WellDefined.{IsWellDefinedProduction};
ghost use Rattle.wb_operations.specs.Kept.{IsKept};
ghost use Rattle.wb_types.specs.Rules.{KindsOk};
ghost use Rattle.wb_values.specs.Fits.{FitsTree};
ghost use Rattle.wb_values.specs.ValuesIn.{tree_in};

use crate::AskedValue;
use std::alloc::{AllocError, Global};
use wb_compose_files::well_defined_host_of;
use wb_eval::{Waiting, waiting_instances};
use wb_eval_root::asked_on;
use wb_explain_instances::{Shown, push_instances};
use wb_operations::{Meaning, OperationRefusal, OperationTable};
use wb_syntax_resolved::Attribution;
use wb_terms::read_term;
use wb_values::{Signatures, TreeId, TreeStore, Value};

/// Appends what is said of the value that is asked of a term where an operation fails, or the steps end: the equation in which it ended, and
/// what waited. The first file is that of the host, and there is no other. Nothing where the attributes of the host aren't well defined, the
/// bytes are no term, no such attribute may be asked, or it has a value.
///
/// All is read and evaluated once more. The only error is out of memory.
pub fn push_waiting_term<M: Meaning>(
    alloc: Global,
    out: &mut Vec<u8>,
    asked: &AskedValue<'_>,
    operations: &OperationTable<M>,
) -> Result<(), AllocError>
    // The table answers what M means.
    requires kept { IsKept operations.now.signatures operations.now.built_in operations.now.runs.items M.meaning
        (λ run vs. ⟦<Box<dyn Fn(&[Value]) -> Result<Value, OperationRefusal>> as Fn(&[Value]) -> Result<Value, OperationRefusal>>⟧.pre run vs)
        (λ run vs r. ⟦<Box<dyn Fn(&[Value]) -> Result<Value, OperationRefusal>> as Fn(&[Value]) -> Result<Value, OperationRefusal>>⟧.post run vs r) }
    ensures { OnOk result (SaysOfHostTerm asked.now.files.now (record { signatures = operations.now.signatures; meaning = M.meaning }) asked.now.text.now asked.now.name.now asked.now.steps out.old.items out.new.items) }
{
    let Some(host) = asked.files.first() else {
        return Ok(());
    };
    match well_defined_host_of(alloc, host.contents, operations) {
        Ok(resolved) => {
            let attributes = &resolved.parts().attributes;
            let answer = push_read(alloc, out, attributes, asked, operations);
            resolved.release();
            answer
        }
        Err(_) => Ok(()),
    }
}

// Appends that of a term, by the attributes of its host.
fn push_read<M: Meaning>(
    alloc: Global,
    out: &mut Vec<u8>,
    attributes: &Attribution,
    asked: &AskedValue<'_>,
    operations: &OperationTable<M>,
) -> Result<(), AllocError>
    requires productions { EachProduction attributes.now (IsWellDefinedProduction attributes.now) }
    requires kinds { KindsOk attributes.now operations.now.signatures }
    requires kept { IsKept operations.now.signatures operations.now.built_in operations.now.runs.items M.meaning
        (λ run vs. ⟦<Box<dyn Fn(&[Value]) -> Result<Value, OperationRefusal>> as Fn(&[Value]) -> Result<Value, OperationRefusal>>⟧.pre run vs)
        (λ run vs r. ⟦<Box<dyn Fn(&[Value]) -> Result<Value, OperationRefusal>> as Fn(&[Value]) -> Result<Value, OperationRefusal>>⟧.post run vs r) }
    ensures { OnOk result (SaysOfTerm asked.now.files.now attributes.now (record { signatures = operations.now.signatures; meaning = M.meaning }) asked.now.text.now asked.now.name.now asked.now.steps out.old.items out.new.items) }
{
    let mut store = TreeStore::new(alloc);
    let answer = push_term(alloc, out, attributes, &mut store, asked, operations);
    drop(store);
    answer
}

// Appends that of a term, which is read into this store.
fn push_term<M: Meaning>(
    alloc: Global,
    out: &mut Vec<u8>,
    attributes: &Attribution,
    store: &mut TreeStore,
    asked: &AskedValue<'_>,
    operations: &OperationTable<M>,
) -> Result<(), AllocError>
    requires productions { EachProduction attributes.now (IsWellDefinedProduction attributes.now) }
    requires kinds { KindsOk attributes.now operations.now.signatures }
    requires kept { IsKept operations.now.signatures operations.now.built_in operations.now.runs.items M.meaning
        (λ run vs. ⟦<Box<dyn Fn(&[Value]) -> Result<Value, OperationRefusal>> as Fn(&[Value]) -> Result<Value, OperationRefusal>>⟧.pre run vs)
        (λ run vs r. ⟦<Box<dyn Fn(&[Value]) -> Result<Value, OperationRefusal>> as Fn(&[Value]) -> Result<Value, OperationRefusal>>⟧.post run vs r) }
    ensures { OnOk result (SaysOfTerm asked.now.files.now attributes.now (record { signatures = operations.now.signatures; meaning = M.meaning }) asked.now.text.now asked.now.name.now asked.now.steps out.old.items out.new.items) }
{
    match read_term(alloc, asked.text, &attributes.parts().signatures, store) {
        Ok(root) => push_tree(alloc, out, attributes, store, root, asked, operations),
        Err(_) => Ok(()),
    }
}

// Appends that of the tree of a term.
fn push_tree<M: Meaning>(
    alloc: Global,
    out: &mut Vec<u8>,
    attributes: &Attribution,
    store: &mut TreeStore,
    root: TreeId,
    asked: &AskedValue<'_>,
    operations: &OperationTable<M>,
) -> Result<(), AllocError>
    requires productions { EachProduction attributes.now (IsWellDefinedProduction attributes.now) }
    requires kinds { KindsOk attributes.now operations.now.signatures }
    requires there { root.0 < length store.old }
    requires fits { (nonterminal : ℕ) × FitsTree attributes.now.signatures (tree_in store.old root.0) nonterminal }
    requires kept { IsKept operations.now.signatures operations.now.built_in operations.now.runs.items M.meaning
        (λ run vs. ⟦<Box<dyn Fn(&[Value]) -> Result<Value, OperationRefusal>> as Fn(&[Value]) -> Result<Value, OperationRefusal>>⟧.pre run vs)
        (λ run vs r. ⟦<Box<dyn Fn(&[Value]) -> Result<Value, OperationRefusal>> as Fn(&[Value]) -> Result<Value, OperationRefusal>>⟧.post run vs r) }
    ensures { OnOk result (SaysOfNamed asked.now.files.now attributes.now (record { signatures = operations.now.signatures; meaning = M.meaning }) (tree_in store.old root.0) asked.now.name.now asked.now.steps out.old.items out.new.items) }
{
    let nonterminal = nonterminal_of(&attributes.parts().signatures, store, root);
    match asked_on(alloc, attributes, nonterminal, asked.name)? {
        Some(attribute) => push_asked(
            alloc, out, attributes, store, root, attribute, asked, operations,
        ),
        None => Ok(()),
    }
}

// Appends that of an attribute that may be asked of a tree.
fn push_asked<M: Meaning>(
    alloc: Global,
    out: &mut Vec<u8>,
    attributes: &Attribution,
    store: &mut TreeStore,
    root: TreeId,
    attribute: usize,
    asked: &AskedValue<'_>,
    operations: &OperationTable<M>,
) -> Result<(), AllocError>
    requires productions { EachProduction attributes.now (IsWellDefinedProduction attributes.now) }
    requires kinds { KindsOk attributes.now operations.now.signatures }
    requires there { root.0 < length store.old }
    requires asked { IsAskedAs attributes.now (tree_in store.old root.0) asked.now.name.now attribute }
    requires kept { IsKept operations.now.signatures operations.now.built_in operations.now.runs.items M.meaning
        (λ run vs. ⟦<Box<dyn Fn(&[Value]) -> Result<Value, OperationRefusal>> as Fn(&[Value]) -> Result<Value, OperationRefusal>>⟧.pre run vs)
        (λ run vs r. ⟦<Box<dyn Fn(&[Value]) -> Result<Value, OperationRefusal>> as Fn(&[Value]) -> Result<Value, OperationRefusal>>⟧.post run vs r) }
    ensures { OnOk result (SaysOfNamed asked.now.files.now attributes.now (record { signatures = operations.now.signatures; meaning = M.meaning }) (tree_in store.old root.0) asked.now.name.now asked.now.steps out.old.items out.new.items) }
{
    let waiting = waiting_instances(
        alloc,
        attributes,
        store,
        root,
        attribute,
        asked.steps,
        operations,
    )?;
    push_found(alloc, out, attributes, store, waiting, asked)
}

// Appends what waits, where something does.
fn push_found(
    alloc: Global,
    out: &mut Vec<u8>,
    attributes: &Attribution,
    store: &TreeStore,
    waiting: Option<Waiting>,
    asked: &AskedValue<'_>,
) -> Result<(), AllocError>
    requires { IfSome waiting (λ w. IsWhole w.memo) }
    ensures { OnOk result (SaysFound asked.now.files.now attributes.now store.now waiting out.old.items out.new.items) }
{
    match waiting {
        Some(waiting) => {
            let answer = push_shown(alloc, out, attributes, store, &waiting, asked);
            drop(waiting);
            answer
        }
        None => Ok(()),
    }
}

// Appends what waits.
fn push_shown<'a>(
    alloc: Global,
    out: &mut Vec<u8>,
    attributes: &'a Attribution,
    store: &'a TreeStore,
    waiting: &'a Waiting,
    asked: &'a AskedValue<'a>,
) -> Result<(), AllocError>
    requires { IsWhole waiting.now.memo }
    ensures { OnOk result (SaysEnd attributes.now store.now waiting.now asked.now.files.now out.old.items out.new.items) }
{
    let shown = Shown {
        attributes: attributes.parts(),
        store,
        waiting,
        files: asked.files,
        leaves: None,
    };
    push_instances(alloc, out, &shown)
}

// The nonterminal of a tree.
fn nonterminal_of(signatures: &Signatures, store: &TreeStore, root: TreeId) -> usize
    requires there { root.0 < length store.now }
    requires fits { (nonterminal : ℕ) × FitsTree signatures.now (tree_in store.now root.0) nonterminal }
    ensures { FitsTree signatures.now (tree_in store.now root.0) result }
{
    signatures.left(store.production(root))
}
