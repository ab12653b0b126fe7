//! Which language do files make?

ghost use Rattle.std.specs.Prelude.{◌≡◌, IfErr, IfOk, OnErr, OnOk};
ghost use Rattle.wb_library_handles.specs.Handles.{AreOthersKept, AreSpentKept, IsSpent, NamesNone};
ghost use Rattle.wb_session_library.specs.Kept.{KeepsBesideHosts, KeepsNote, KeepsTexts, StaysIn};
ghost use Rattle.wb_session_library.specs.Refusals.{IsExtensionRefused, IsHostRefused, IsNamedRefusal, IsOfRoom};
ghost use Rattle.wb_session_library.specs.Workbenches.{ComposesHost, ExtendsHost, OpensHost};
ghost use Rattle.wb_library.specs.Calls.{Changes};

use crate::pointer::Pointer;
use core::mem::replace_with;
use wb_library_handles::{Handle, Loose};
use wb_session_library::CallRefusal;

/// Certifies the contents of a host's file of this name, over the standard operations, and writes the handle of the host. The note and the
/// reason say why they are refused.
#[unsafe(no_mangle)]
pub extern "C" fn wb_host(
    workbench: &mut Pointer,
    name: &[u8],
    contents: &[u8],
    out: &mut Handle,
) -> u32
    ensures answer { Changes result (OpensHost contents.now workbench.old.value.hosts.slots.items workbench.new.value.hosts.slots.items out.new × KeepsNote workbench.old.value workbench.new.value) (IsHostRefused contents.now name.now workbench.new.value.note.items workbench.new.value.reason) (workbench.new.value.hosts.slots.items ≡ workbench.old.value.hosts.slots.items) }
    ensures spent { AreSpentKept workbench.old.value.hosts.slots.items workbench.new.value.hosts.slots.items }
    ensures kept { KeepsBesideHosts workbench.old.value workbench.new.value }
{
    match replace_with(workbench, (name, contents), host_in) {
        Ok(made) => {
            *out = made;
            0
        }
        Err(refusal) => refusal.number(),
    }
}

// The same on an opened pointer.
fn host_in<'a>(
    workbench: Pointer,
    asked: (&'a [u8], &'a [u8]),
) -> (Pointer, Result<Handle, CallRefusal>)
    ensures ok { IfOk result.1 (OpensHost asked.entry.1.now workbench.value.hosts.slots.items result.0.value.hosts.slots.items) }
    ensures refused { IfErr result.1 (IsHostRefused asked.entry.1.now asked.entry.0.now result.0.value.note.items result.0.value.reason) }
    ensures err { OnErr result.1 (result.0.value.hosts.slots.items ≡ workbench.value.hosts.slots.items) }
    ensures note { OnOk result.1 (KeepsNote workbench.value result.0.value) }
    ensures spent { AreSpentKept workbench.value.hosts.slots.items result.0.value.hosts.slots.items }
    ensures kept { KeepsBesideHosts workbench.value result.0.value }
{
    let mut opened = workbench.open_loose().into_box();
    let answer = opened.host(asked.0, asked.1);
    (Pointer::of(Loose::of(opened)), answer)
}

/// Adds the extension that the contents of a file of this name are to a host, after those before it. The note and the reason say why they
/// are refused, after which the host is as before.
#[unsafe(no_mangle)]
pub extern "C" fn wb_extend(
    workbench: &mut Pointer,
    host: Handle,
    name: &[u8],
    contents: &[u8],
) -> u32
    ensures answer { Changes result (ExtendsHost contents.now workbench.old.value.hosts.slots.items host workbench.new.value.hosts.slots.items × KeepsNote workbench.old.value workbench.new.value) (IsNamedRefusal workbench.old.value.hosts.slots.items host (IsExtensionRefused contents.now name.now workbench.new.value.note.items workbench.new.value.reason)) (StaysIn workbench.old.value.hosts.slots.items workbench.new.value.hosts.slots.items host) }
    ensures others { AreOthersKept workbench.old.value.hosts.slots.items workbench.new.value.hosts.slots.items host }
    ensures spent { AreSpentKept workbench.old.value.hosts.slots.items workbench.new.value.hosts.slots.items }
    ensures kept { KeepsBesideHosts workbench.old.value workbench.new.value }
{
    match replace_with(workbench, (host, name, contents), extend_in) {
        Ok(()) => 0,
        Err(refusal) => refusal.number(),
    }
}

// The same on an opened pointer.
fn extend_in<'a>(
    workbench: Pointer,
    asked: (Handle, &'a [u8], &'a [u8]),
) -> (Pointer, Result<(), CallRefusal>)
    ensures ok { OnOk result.1 (ExtendsHost asked.entry.2.now workbench.value.hosts.slots.items asked.entry.0 result.0.value.hosts.slots.items) }
    ensures refused { IfErr result.1 (IsNamedRefusal workbench.value.hosts.slots.items asked.entry.0 (IsExtensionRefused asked.entry.2.now asked.entry.1.now result.0.value.note.items result.0.value.reason)) }
    ensures err { OnErr result.1 (StaysIn workbench.value.hosts.slots.items result.0.value.hosts.slots.items asked.entry.0) }
    ensures note { OnOk result.1 (KeepsNote workbench.value result.0.value) }
    ensures others { AreOthersKept workbench.value.hosts.slots.items result.0.value.hosts.slots.items asked.entry.0 }
    ensures spent { AreSpentKept workbench.value.hosts.slots.items result.0.value.hosts.slots.items }
    ensures kept { KeepsBesideHosts workbench.value result.0.value }
{
    let mut opened = workbench.open_loose().into_box();
    let answer = opened.extend(asked.0, asked.1, asked.2);
    (Pointer::of(Loose::of(opened)), answer)
}

/// Composes the language of a host with its extensions, and writes the handle of the language. The host is let go of, also where there is no
/// room for the language.
#[unsafe(no_mangle)]
pub extern "C" fn wb_compose(workbench: &mut Pointer, host: Handle, out: &mut Handle) -> u32
    ensures answer { Changes result (ComposesHost workbench.old.value.hosts.slots.items host workbench.old.value.languages.slots.items workbench.new.value.languages.slots.items out.new) (IsNamedRefusal workbench.old.value.hosts.slots.items host (λ certified. IsOfRoom)) (workbench.new.value.languages.slots.items ≡ workbench.old.value.languages.slots.items) }
    ensures gone { (NamesNone workbench.old.value.hosts.slots.items host → ⊥) → IsSpent workbench.new.value.hosts.slots.items host }
    ensures other_hosts { AreOthersKept workbench.old.value.hosts.slots.items workbench.new.value.hosts.slots.items host }
    ensures spent_hosts { AreSpentKept workbench.old.value.hosts.slots.items workbench.new.value.hosts.slots.items }
    ensures spent { AreSpentKept workbench.old.value.languages.slots.items workbench.new.value.languages.slots.items }
    ensures note { KeepsNote workbench.old.value workbench.new.value }
    ensures kept { KeepsTexts workbench.old.value workbench.new.value }
{
    match replace_with(workbench, host, compose_in) {
        Ok(made) => {
            *out = made;
            0
        }
        Err(refusal) => refusal.number(),
    }
}

// The same on an opened pointer.
fn compose_in(workbench: Pointer, asked: Handle) -> (Pointer, Result<Handle, CallRefusal>)
    ensures ok { IfOk result.1 (ComposesHost workbench.value.hosts.slots.items asked workbench.value.languages.slots.items result.0.value.languages.slots.items) }
    ensures refused { IfErr result.1 (IsNamedRefusal workbench.value.hosts.slots.items asked (λ certified. IsOfRoom)) }
    ensures err { OnErr result.1 (result.0.value.languages.slots.items ≡ workbench.value.languages.slots.items) }
    ensures gone { (NamesNone workbench.value.hosts.slots.items asked → ⊥) → IsSpent result.0.value.hosts.slots.items asked }
    ensures other_hosts { AreOthersKept workbench.value.hosts.slots.items result.0.value.hosts.slots.items asked }
    ensures spent_hosts { AreSpentKept workbench.value.hosts.slots.items result.0.value.hosts.slots.items }
    ensures spent { AreSpentKept workbench.value.languages.slots.items result.0.value.languages.slots.items }
    ensures note { KeepsNote workbench.value result.0.value }
    ensures kept { KeepsTexts workbench.value result.0.value }
{
    let mut opened = workbench.open_loose().into_box();
    let answer = opened.compose(asked);
    (Pointer::of(Loose::of(opened)), answer)
}
