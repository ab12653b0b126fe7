//! How are values let go of?

ghost use Rattle.std.specs.Prelude.{IsFalse, IsTrue};
ghost use Rattle.wb_library_handles.specs.Handles.{AreOthersKept, AreSpentKept, IsSpent, NamesNone};
ghost use Rattle.wb_session_library.specs.Kept.{KeepsBesideHosts, KeepsButTexts, KeepsHosts, KeepsNote, KeepsTexts};

use crate::pointer::Pointer;
use core::mem::replace_with;
use wb_library_handles::{Handle, Loose};

/// Lets go of a host, and answers whether there was one. No later host has this handle.
#[unsafe(no_mangle)]
pub extern "C" fn wb_close_host(workbench: &mut Pointer, host: Handle) -> bool
    ensures gone { IsTrue result → IsSpent workbench.new.value.hosts.slots.items host }
    ensures some { IsTrue result → NamesNone workbench.old.value.hosts.slots.items host → ⊥ }
    ensures none { IsFalse result → NamesNone workbench.old.value.hosts.slots.items host }
    ensures others { AreOthersKept workbench.old.value.hosts.slots.items workbench.new.value.hosts.slots.items host }
    ensures spent { AreSpentKept workbench.old.value.hosts.slots.items workbench.new.value.hosts.slots.items }
    ensures note { KeepsNote workbench.old.value workbench.new.value }
    ensures kept { KeepsBesideHosts workbench.old.value workbench.new.value }
{
    replace_with(workbench, host, close_host_in)
}

// The same on an opened pointer.
fn close_host_in(workbench: Pointer, asked: Handle) -> (Pointer, bool)
    ensures gone { IsTrue result.1 → IsSpent result.0.value.hosts.slots.items asked }
    ensures some { IsTrue result.1 → NamesNone workbench.value.hosts.slots.items asked → ⊥ }
    ensures none { IsFalse result.1 → NamesNone workbench.value.hosts.slots.items asked }
    ensures others { AreOthersKept workbench.value.hosts.slots.items result.0.value.hosts.slots.items asked }
    ensures spent { AreSpentKept workbench.value.hosts.slots.items result.0.value.hosts.slots.items }
    ensures note { KeepsNote workbench.value result.0.value }
    ensures kept { KeepsBesideHosts workbench.value result.0.value }
{
    let mut opened = workbench.open_loose().into_box();
    let answer = opened.close_host(asked);
    (Pointer::of(Loose::of(opened)), answer)
}

/// Lets go of a language, and answers whether there was one. Texts in it stay. No later language has this handle.
#[unsafe(no_mangle)]
pub extern "C" fn wb_close_language(workbench: &mut Pointer, language: Handle) -> bool
    ensures gone { IsTrue result → IsSpent workbench.new.value.languages.slots.items language }
    ensures some { IsTrue result → NamesNone workbench.old.value.languages.slots.items language → ⊥ }
    ensures none { IsFalse result → NamesNone workbench.old.value.languages.slots.items language }
    ensures others { AreOthersKept workbench.old.value.languages.slots.items workbench.new.value.languages.slots.items language }
    ensures spent { AreSpentKept workbench.old.value.languages.slots.items workbench.new.value.languages.slots.items }
    ensures note { KeepsNote workbench.old.value workbench.new.value }
    ensures kept { KeepsHosts workbench.old.value workbench.new.value }
    ensures kept_texts { KeepsTexts workbench.old.value workbench.new.value }
{
    replace_with(workbench, language, close_language_in)
}

// The same on an opened pointer.
fn close_language_in(workbench: Pointer, asked: Handle) -> (Pointer, bool)
    ensures gone { IsTrue result.1 → IsSpent result.0.value.languages.slots.items asked }
    ensures some { IsTrue result.1 → NamesNone workbench.value.languages.slots.items asked → ⊥ }
    ensures none { IsFalse result.1 → NamesNone workbench.value.languages.slots.items asked }
    ensures others { AreOthersKept workbench.value.languages.slots.items result.0.value.languages.slots.items asked }
    ensures spent { AreSpentKept workbench.value.languages.slots.items result.0.value.languages.slots.items }
    ensures note { KeepsNote workbench.value result.0.value }
    ensures kept { KeepsHosts workbench.value result.0.value }
    ensures kept_texts { KeepsTexts workbench.value result.0.value }
{
    let mut opened = workbench.open_loose().into_box();
    let answer = opened.close_language(asked);
    (Pointer::of(Loose::of(opened)), answer)
}

/// Lets go of a text, and answers whether there was one. No later text has this handle.
#[unsafe(no_mangle)]
pub extern "C" fn wb_close_text(workbench: &mut Pointer, text: Handle) -> bool
    ensures gone { IsTrue result → IsSpent workbench.new.value.texts.slots.items text }
    ensures some { IsTrue result → NamesNone workbench.old.value.texts.slots.items text → ⊥ }
    ensures none { IsFalse result → NamesNone workbench.old.value.texts.slots.items text }
    ensures others { AreOthersKept workbench.old.value.texts.slots.items workbench.new.value.texts.slots.items text }
    ensures spent { AreSpentKept workbench.old.value.texts.slots.items workbench.new.value.texts.slots.items }
    ensures kept { KeepsButTexts workbench.old.value workbench.new.value }
{
    replace_with(workbench, text, close_text_in)
}

// The same on an opened pointer.
fn close_text_in(workbench: Pointer, asked: Handle) -> (Pointer, bool)
    ensures gone { IsTrue result.1 → IsSpent result.0.value.texts.slots.items asked }
    ensures some { IsTrue result.1 → NamesNone workbench.value.texts.slots.items asked → ⊥ }
    ensures none { IsFalse result.1 → NamesNone workbench.value.texts.slots.items asked }
    ensures others { AreOthersKept workbench.value.texts.slots.items result.0.value.texts.slots.items asked }
    ensures spent { AreSpentKept workbench.value.texts.slots.items result.0.value.texts.slots.items }
    ensures kept { KeepsButTexts workbench.value result.0.value }
{
    let mut opened = workbench.open_loose().into_box();
    let answer = opened.close_text(asked);
    (Pointer::of(Loose::of(opened)), answer)
}
