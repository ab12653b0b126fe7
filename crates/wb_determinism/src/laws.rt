//! What does a refusal rule out, and what does a deterministic extension give to a composition?

ghost use Rattle.std.specs.Prelude.{ℕ};
ghost use Rattle.wb_base.specs.Grammar.{GrammarView};
ghost use Rattle.wb_determinism_host.specs.declared.refusal.DeterminismRefusal.{DeterminismRefusal as Refusal};
ghost use Rattle.wb_determinism_host.specs.Refusals.{IsNoMemory};
ghost use Rattle.wb_syntax_resolved.specs.declared.resolved.ResolvedParts.{ResolvedParts};
ghost use Rattle.wb_compose_theory.specs.Numbered.{IsComposable};
ghost use Rattle.wb_compose_theory.specs.NumberLaws.{HasHostKernels};
ghost use Rattle.wb_determinism.specs.Extensions.{IsDeterministicExtension, both_numbers, extended_grammar};
ghost use Rattle.wb_determinism.specs.Images.{stands_for};
ghost use Rattle.wb_determinism.specs.Numbers.{renaming_by};
ghost use Rattle.wb_determinism.specs.Refusals.{IsExtensionRefusal};

/// An extension that is refused for any reason but out of memory isn't deterministic beside its host.
pub fn extension_refusals_law()
    ensures { (r : ResolvedParts) (g host : GrammarView) (refusal : Refusal) → IsExtensionRefusal r g host refusal → IsDeterministicExtension r g host → IsNoMemory refusal }
{}

/// Where each prefix of the host has the same kernel with the extension, as marks bring about, a deterministic extension is one that unions
/// ask for.
pub fn composable_law()
    ensures { (r : ResolvedParts) (g host : GrammarView) (nonterminal : ℕ → ℕ) → HasHostKernels host (extended_grammar r g host) (renaming_by (both_numbers r g host) nonterminal) → IsDeterministicExtension r g host → IsComposable host (extended_grammar r g host) (renaming_by (both_numbers r g host) nonterminal) (stands_for r g) }
{}
