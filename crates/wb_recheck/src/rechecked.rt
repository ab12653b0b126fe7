//! What is kept of a host that is certified by a certificate?

ghost use Rattle.std.specs.Prelude.{◌≡◌, Some};
ghost use Rattle.wb_base.specs.Grammar.{GrammarView};
ghost use Rattle.wb_certify.specs.DeterministicHosts.{AreHostParts};
ghost use Rattle.wb_certify.specs.Hosts.{IsCertified, IsCertifiedValue};

use std::marker::Model;
use wb_certify::HostParts;
use wb_operations::OperationSignatures;
use wb_syntax_resolved::Resolved;

/// A host that is certified over operations of these signatures, by a certificate.
///
/// What is known of it is what is known of a `CertifiedHost`.
pub struct RecheckedHost {
    pub(crate) resolved: Resolved,
    pub(crate) parts: HostParts,
    pub(crate) operations: OperationSignatures,
}

impl Model for RecheckedHost {
    ghost use Rattle.std.specs.Coded.{codes};
    ghost use Rattle.wb_regex.specs.contracts.regex.Regex as regex;
    ghost use Rattle.wb_certify.specs.Hosts.{CertifiedView, IsCertified};

    ghost Value = { CertifiedView };

    ghost coded = { Prim.hlevel (codes, regex.the_row.coded) };

    ghost view = { λ h. record { resolved = h.resolved; parts = h.parts; operations = h.operations } };

    ghost invariant = { λ h. IsCertified (record { resolved = h.resolved; parts = h.parts; operations = h.operations }) };
}

impl RecheckedHost {
    /// The name of the host.
    pub fn name(&self) -> &[u8]
        ensures { result.now ≡ self.now.resolved.host }
    {
        self.resolved.parts().host.as_slice()
    }

    /// The host by numbers.
    pub fn resolved(&self) -> &Resolved
        ensures resolved { result.now ≡ self.now.resolved }
        ensures certified { IsCertifiedValue self.now.resolved self.now.operations }
    {
        &self.resolved
    }

    /// What is made of its grammar with holes.
    pub fn parts(&self) -> &HostParts
        ensures parts { result.now ≡ self.now.parts }
        ensures of_grammar { (g : GrammarView) → self.now.resolved.grammar ≡ Some g → AreHostParts self.now.resolved g self.now.parts }
        ensures certified { IsCertified self.now }
    {
        &self.parts
    }

    /// The signatures of the operations with which it was certified.
    pub fn operations(&self) -> &OperationSignatures
        ensures { result.now ≡ self.now.operations }
    {
        &self.operations
    }

    /// Lets go of the host. A crate that calls this proves no drop of what it holds.
    pub fn release(self) {
        drop(self);
    }
}

impl Drop for RecheckedHost {
    fn drop(self) {
        let RecheckedHost {
            resolved,
            parts,
            operations,
        } = self;
        drop(resolved);
        parts.release();
        drop(operations);
    }
}
