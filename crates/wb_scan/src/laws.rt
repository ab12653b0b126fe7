//! What does a refusal rule out?

ghost use Rattle.wb_scan_theory.specs.Languages.{LanguageView};
ghost use Rattle.wb_scan.specs.declared.refusal.LanguageRefusal.{LanguageRefusal as Refusal};
ghost use Rattle.wb_scan.specs.Refusals.{IsFree, IsLanguageRefusal, IsNoMemory};

/// A language that is refused for any reason but out of memory isn't free of cycles, conflicts and clashes.
pub fn bare_refusals_law()
    ensures { (l : LanguageView) (refusal : Refusal) → IsLanguageRefusal l refusal → IsFree l → IsNoMemory refusal }
{}
