//! Which host is certified over the standard operations, and with which extensions?

ghost use Rattle.std.specs.Prelude.{◌≡◌, [], IfErr, IfOk, OnErr, OnOk};
ghost use Rattle.wb_compose_files.specs.HostContents.{IsHostRefusal, IsHostText};
ghost use Rattle.wb_compose_files.specs.Certified.{Extends};
ghost use Rattle.wb_compose_files.specs.Extensions.{IsNextRefusal};
ghost use Rattle.wb_compose_files.specs.Unions.{all_resolved};
ghost use Rattle.wb_operations.specs.Standard.{standard_signatures};

use std::alloc::Global;
use std::marker::Model;
use wb_compose_files::{Certified, FileRefusal, HostRefusal, NextRefusal};
use wb_operations::standard_table;

/// A certified host over the standard operations, with certified extensions of different names.
pub struct StandardHost {
    certified: Certified,
}

impl Model for StandardHost {
    ghost use Rattle.std.specs.Prelude.{◌≡◌};
    ghost use Rattle.std.specs.Coded.{codes};
    ghost use Rattle.wb_regex.specs.contracts.regex.Regex as regex;
    ghost use Rattle.wb_compose_files.specs.Certified.{CertifiedParts};
    ghost use Rattle.wb_operations.specs.Standard.{standard_signatures};

    ghost Value = { CertifiedParts };

    ghost coded = { Prim.hlevel (codes, regex.the_row.coded) };

    ghost view = { λ h. h.certified };

    ghost invariant = { λ h. h.certified.host.operations ≡ standard_signatures };
}

impl Drop for StandardHost {
    fn drop(self) {
        let StandardHost { certified } = self;
        certified.release();
    }
}

impl StandardHost {
    /// The certified host that the contents of a file are, or why they aren't one.
    pub fn of(alloc: Global, contents: &[u8]) -> Result<StandardHost, HostRefusal>
        ensures host { IfOk result (λ made. IsHostText standard_signatures contents.now made.host.resolved) }
        ensures none { IfOk result (λ made. made.extensions ≡ []) }
        ensures refused { IfErr result (IsHostRefusal standard_signatures contents.now) }
    {
        let operations = standard_table(alloc)?;
        let made = Certified::host(alloc, contents, &operations);
        drop(operations);
        match made {
            Ok(certified) => Ok(StandardHost { certified }),
            Err(refusal) => Err(refusal),
        }
    }

    /// Adds the extension that the contents of a file are, after those before it.
    pub fn extend(&mut self, alloc: Global, contents: &[u8]) -> Result<(), NextRefusal>
        ensures ok { OnOk result (Extends standard_signatures contents.now self.old self.new) }
        ensures refused { IfErr result (IsNextRefusal standard_signatures self.old.host.resolved (all_resolved self.old.extensions) contents.now) }
        ensures err { OnErr result (self.new ≡ self.old) }
    {
        match standard_table(alloc) {
            Ok(operations) => {
                let answer = self.certified.extend(alloc, contents, &operations);
                drop(operations);
                answer
            }
            Err(error) => Err(NextRefusal::Header(FileRefusal::NoMemory(error))),
        }
    }

    // The host with its extensions, over the standard operations.
    pub(crate) fn into_certified(self) -> Certified
        ensures same { result ≡ self }
        ensures operations { result.host.operations ≡ standard_signatures }
    {
        let StandardHost { certified } = self;
        certified
    }
}
