//! Does each certified extension meet what the laws ask?

ghost use Rattle.std.specs.Prelude.{◌≡◌, Some};
ghost use Rattle.wb_base.specs.Grammar.{GrammarView};
ghost use Rattle.wb_certify.specs.Kept.{AreCertifiedBoth};

use crate::CertifiedExtension;

/// A certified extension and its host are certified both, with their grammars.
pub fn certified_both(extension: &CertifiedExtension)
    ensures { (h g : GrammarView) → extension.now.host.grammar ≡ Some h → extension.now.resolved.grammar ≡ Some g → AreCertifiedBoth extension.now.host extension.now.resolved h g extension.now.operations }
{
    let host = extension.host();
    let resolved = extension.resolved();
    host.parts();
    resolved.parts();
}
