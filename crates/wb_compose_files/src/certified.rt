//! What is certified so far? A host, and extensions of it with different names.

ghost use Rattle.std.specs.Prelude.{◌≡◌, [], IfErr, IfOk, OnErr, OnOk};
ghost use Rattle.wb_certify_files.specs.HostContents.{IsHostRefusal, IsHostText};
ghost use Rattle.wb_compose_texts.specs.Unions.{all_resolved};
ghost use Rattle.wb_compose_files.specs.Certified.{AreApart, Extends};
ghost use Rattle.wb_compose_files.specs.Extensions.{IsNextRefusal};

use crate::NextRefusal;
use crate::extend::next_of;
use std::alloc::Global;
use std::marker::Model;
use wb_certify_files::{
    CertifiedExtension, CertifiedHost, FileRefusal, HostRefusal, host_of, release_extensions,
};
use wb_operations::{Meaning, OperationTable};

/// A certified host, and extensions that are certified with it alone, in the order in which they came. No two have one name.
pub struct Certified {
    host: CertifiedHost,
    extensions: Vec<CertifiedExtension>,
}

impl Model for Certified {
    ghost use Rattle.std.specs.Coded.{codes};
    ghost use Rattle.wb_regex.specs.contracts.regex.Regex as regex;
    ghost use Rattle.wb_compose_files.specs.Certified.{CertifiedParts, AreApart};

    ghost Value = { CertifiedParts };

    ghost coded = { Prim.hlevel (codes, regex.the_row.coded) };

    ghost view = { λ c. record { host = c.host; extensions = c.extensions.items } };

    ghost invariant = { λ c. AreApart (record { host = c.host; extensions = c.extensions.items }) };
}

impl Drop for Certified {
    fn drop(self) {
        let Certified { host, extensions } = self;
        host.release();
        release_extensions(extensions);
    }
}

impl Certified {
    /// The certified host that the contents of a file are, or why they aren't one.
    ///
    /// Which of several examples of a refusal is shown is left open. No clause bounds the time.
    pub fn host<M: Meaning>(
        alloc: Global,
        contents: &[u8],
        operations: &OperationTable<M>,
    ) -> Result<Certified, HostRefusal>
        ensures host { IfOk result (λ made. IsHostText operations.now.signatures contents.now made.host.resolved) }
        ensures operations { IfOk result (λ made. made.host.operations ≡ operations.now.signatures) }
        ensures none { IfOk result (λ made. made.extensions ≡ []) }
        ensures refused { IfErr result (IsHostRefusal operations.now.signatures contents.now) }
    {
        match host_of(alloc, contents, operations) {
            Ok(host) => Ok(Certified {
                host,
                extensions: Vec::new(alloc),
            }),
            Err(refusal) => Err(refusal),
        }
    }

    /// Adds the certified extension that the contents of a file are, or tells why they aren't one that can follow those before it.
    ///
    /// The table of operations is one with which the host was certified. What is written and the first line are looked at first, then the
    /// name, and then all else.
    pub fn extend<M: Meaning>(
        &mut self,
        alloc: Global,
        contents: &[u8],
        operations: &OperationTable<M>,
    ) -> Result<(), NextRefusal>
        requires { self.old.host.operations ≡ operations.now.signatures }
        ensures ok { OnOk result (Extends operations.now.signatures contents.now self.old self.new) }
        ensures refused { IfErr result (IsNextRefusal operations.now.signatures self.old.host.resolved (all_resolved self.old.extensions) contents.now) }
        ensures err { OnErr result (self.new ≡ self.old) }
    {
        match next_of(alloc, &self.host, &self.extensions, contents, operations) {
            Ok(extension) => match self.extensions.reserve(1) {
                Ok(()) => {
                    self.extensions.push_reserved(extension);
                    Ok(())
                }
                Err(error) => {
                    extension.release();
                    Err(NextRefusal::Header(FileRefusal::NoMemory(error)))
                }
            },
            Err(refusal) => Err(refusal),
        }
    }

    /// The host.
    pub fn certified_host(&self) -> &CertifiedHost
        ensures { result.now ≡ self.now.host }
    {
        &self.host
    }

    /// The extensions.
    pub fn extensions(&self) -> &[CertifiedExtension]
        ensures extensions { result.now ≡ self.now.extensions }
        ensures apart { AreApart self.now }
    {
        &self.extensions
    }

    /// Lets go of the host and the extensions. A crate that calls this proves no drop of what they hold.
    pub fn release(self) {
        drop(self);
    }
}
