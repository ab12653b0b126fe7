//! What does a program hold that isn't written in Rattle? A table of hosts, one of languages and one of texts, whose values it names by
//! handles, and the note and the reason of the calls before. Here hosts become languages; texts are in `editing` and `asking`.

ghost use Rattle.std.specs.Prelude.{◌≡◌, [], IfErr, IfOk, IsFalse, IsTrue, OnErr, OnOk};
ghost use Rattle.wb_library_handles.specs.Handles.{AreOthersKept, AreSpentKept, IsSpent, NamesNone};
ghost use Rattle.wb_session_library.specs.Kept.{KeepsBesideHosts, KeepsHosts, KeepsNote, KeepsTexts, StaysIn};
ghost use Rattle.wb_session_library.specs.Reasons.{IsNoReason};
ghost use Rattle.wb_session_library.specs.Refusals.{IsExtensionRefused, IsHostRefused, IsNamedRefusal, IsOfRoom};
ghost use Rattle.wb_session_library.specs.Workbenches.{Adds, ComposesHost, ExtendsHost, OpensHost};

use crate::notes::{note_extension, note_host};
use crate::reason::{host_reason, next_reason, no_reason};
use crate::{CallRefusal, LanguageText, Reason, StandardHost, StandardLanguage};
use std::alloc::Global;
use wb_library_handles::{AddRefusal, Handle, Handles};

/// Hosts with extensions, languages and texts by handles. Of two workbenches neither knows the other.
pub struct Workbench {
    pub alloc: Global,
    pub hosts: Handles<StandardHost>,
    pub languages: Handles<StandardLanguage>,
    pub texts: Handles<LanguageText>,
    /// The bytes with which a call answered last.
    pub note: Vec<u8>,
    /// Why contents were refused last.
    pub reason: Reason,
}

impl Drop for Workbench {
    fn drop(self) {
        let Workbench {
            alloc: _,
            hosts,
            languages,
            texts,
            note,
            reason: _,
        } = self;
        drop(hosts);
        drop(languages);
        drop(texts);
        drop(note);
    }
}

impl Workbench {
    /// A workbench without values.
    pub fn new(alloc: Global) -> Workbench
        ensures hosts { result.hosts.slots.items ≡ [] }
        ensures languages { result.languages.slots.items ≡ [] }
        ensures texts { result.texts.slots.items ≡ [] }
        ensures note { result.note.items ≡ [] }
        ensures reason { IsNoReason result.reason }
    {
        Workbench {
            alloc,
            hosts: Handles::new(alloc),
            languages: Handles::new(alloc),
            texts: Handles::new(alloc),
            note: Vec::new(alloc),
            reason: no_reason(),
        }
    }

    /// Certifies the contents of a host's file of this name, over the standard operations, and answers the handle of the host. The note and the
    /// reason say why they are refused.
    pub fn host(&mut self, name: &[u8], contents: &[u8]) -> Result<Handle, CallRefusal>
        ensures ok { IfOk result (OpensHost contents.now self.old.hosts.slots.items self.new.hosts.slots.items) }
        ensures refused { IfErr result (IsHostRefused contents.now name.now self.new.note.items self.new.reason) }
        ensures err { OnErr result (self.new.hosts.slots.items ≡ self.old.hosts.slots.items) }
        ensures spent { AreSpentKept self.old.hosts.slots.items self.new.hosts.slots.items }
        ensures note { OnOk result (KeepsNote self.old self.new) }
        ensures kept { KeepsBesideHosts self.old self.new }
    {
        match StandardHost::of(self.alloc, contents) {
            Ok(made) => added(&mut self.hosts, made),
            Err(refusal) => {
                self.reason = host_reason(&refusal);
                Err(note_host(self.alloc, name, refusal, &mut self.note))
            }
        }
    }

    /// Adds the extension that the contents of a file of this name are to the host of a handle, after those before it. The note and the reason
    /// say why they are refused, after which the host is as before.
    pub fn extend(&mut self, host: Handle, name: &[u8], contents: &[u8]) -> Result<(), CallRefusal>
        ensures ok { OnOk result (ExtendsHost contents.now self.old.hosts.slots.items host self.new.hosts.slots.items) }
        ensures refused { IfErr result (IsNamedRefusal self.old.hosts.slots.items host (IsExtensionRefused contents.now name.now self.new.note.items self.new.reason)) }
        ensures err { OnErr result (StaysIn self.old.hosts.slots.items self.new.hosts.slots.items host) }
        ensures others { AreOthersKept self.old.hosts.slots.items self.new.hosts.slots.items host }
        ensures spent { AreSpentKept self.old.hosts.slots.items self.new.hosts.slots.items }
        ensures note { OnOk result (KeepsNote self.old self.new) }
        ensures kept { KeepsBesideHosts self.old self.new }
    {
        let Some(mut taken) = self.hosts.take(host) else {
            return Err(CallRefusal::WrongHandle);
        };
        let answer = taken.extend(self.alloc, contents);
        self.hosts.put(host, taken);
        match answer {
            Ok(()) => Ok(()),
            Err(refusal) => {
                self.reason = next_reason(&refusal);
                Err(note_extension(self.alloc, name, refusal, &mut self.note))
            }
        }
    }

    /// Composes the language of the host of a handle with its extensions, and answers the handle of the language. The host is let go of, also
    /// where there is no room for the language.
    pub fn compose(&mut self, host: Handle) -> Result<Handle, CallRefusal>
        ensures ok { IfOk result (ComposesHost self.old.hosts.slots.items host self.old.languages.slots.items self.new.languages.slots.items) }
        ensures refused { IfErr result (IsNamedRefusal self.old.hosts.slots.items host (λ certified. IsOfRoom)) }
        ensures err { OnErr result (self.new.languages.slots.items ≡ self.old.languages.slots.items) }
        ensures gone { (NamesNone self.old.hosts.slots.items host → ⊥) → IsSpent self.new.hosts.slots.items host }
        ensures other_hosts { AreOthersKept self.old.hosts.slots.items self.new.hosts.slots.items host }
        ensures spent_hosts { AreSpentKept self.old.hosts.slots.items self.new.hosts.slots.items }
        ensures spent { AreSpentKept self.old.languages.slots.items self.new.languages.slots.items }
        ensures note { KeepsNote self.old self.new }
        ensures kept { KeepsTexts self.old self.new }
    {
        let Some(removed) = self.hosts.remove(host) else {
            return Err(CallRefusal::WrongHandle);
        };
        match StandardLanguage::of(self.alloc, removed) {
            Ok(made) => added(&mut self.languages, made),
            Err(_) => Err(CallRefusal::NoMemory),
        }
    }

    /// Lets go of the host of a handle, and answers whether there was one. No later host has this handle.
    pub fn close_host(&mut self, host: Handle) -> bool
        ensures gone { IsTrue result → IsSpent self.new.hosts.slots.items host }
        ensures some { IsTrue result → NamesNone self.old.hosts.slots.items host → ⊥ }
        ensures none { IsFalse result → NamesNone self.old.hosts.slots.items host }
        ensures others { AreOthersKept self.old.hosts.slots.items self.new.hosts.slots.items host }
        ensures spent { AreSpentKept self.old.hosts.slots.items self.new.hosts.slots.items }
        ensures note { KeepsNote self.old self.new }
        ensures kept { KeepsBesideHosts self.old self.new }
    {
        removed(&mut self.hosts, host)
    }

    /// Lets go of the language of a handle, and answers whether there was one. Texts that share it stay. No later language has this handle.
    pub fn close_language(&mut self, language: Handle) -> bool
        ensures gone { IsTrue result → IsSpent self.new.languages.slots.items language }
        ensures some { IsTrue result → NamesNone self.old.languages.slots.items language → ⊥ }
        ensures none { IsFalse result → NamesNone self.old.languages.slots.items language }
        ensures others { AreOthersKept self.old.languages.slots.items self.new.languages.slots.items language }
        ensures spent { AreSpentKept self.old.languages.slots.items self.new.languages.slots.items }
        ensures note { KeepsNote self.old self.new }
        ensures kept { KeepsHosts self.old self.new }
        ensures kept_texts { KeepsTexts self.old self.new }
    {
        removed(&mut self.languages, language)
    }
}

// Adds a value to a table.
pub(crate) fn added<T: Drop>(table: &mut Handles<T>, value: T) -> Result<Handle, CallRefusal>
    ensures ok { IfOk result (Adds table.old.slots.items value table.new.slots.items) }
    ensures refused { IfErr result IsOfRoom }
    ensures err { OnErr result (table.new.slots.items ≡ table.old.slots.items) }
    ensures spent { AreSpentKept table.old.slots.items table.new.slots.items }
{
    match table.add(value) {
        Ok(handle) => Ok(handle),
        Err(AddRefusal::Full) => Err(CallRefusal::Full),
        Err(AddRefusal::NoMemory(_)) => Err(CallRefusal::NoMemory),
    }
}

// Lets go of a value of a table, and answers whether there was one.
pub(crate) fn removed<T: Drop>(table: &mut Handles<T>, handle: Handle) -> bool
    ensures gone { IsTrue result → IsSpent table.new.slots.items handle }
    ensures some { IsTrue result → NamesNone table.old.slots.items handle → ⊥ }
    ensures none { IsFalse result → NamesNone table.old.slots.items handle }
    ensures others { AreOthersKept table.old.slots.items table.new.slots.items handle }
    ensures spent { AreSpentKept table.old.slots.items table.new.slots.items }
{
    match table.remove(handle) {
        Some(removed) => {
            drop(removed);
            true
        }
        None => false,
    }
}
