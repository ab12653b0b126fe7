//! What does a refusal rule out, and what does a deterministic host have no refusal for?

ghost use Rattle.std.specs.Prelude.{ℕ};
ghost use Rattle.wb_base.specs.Grammar.{GrammarView};
ghost use Rattle.wb_syntax_resolved.specs.declared.resolved.ResolvedParts.{ResolvedParts};
ghost use Rattle.wb_lookahead.specs.declared.action.Action.{Action};
ghost use Rattle.wb_lookahead.specs.Tables.{IsConflict};
ghost use Rattle.wb_determinism_host.specs.declared.parts.HostParts.{HostParts};
ghost use Rattle.wb_determinism_host.specs.declared.refusal.DeterminismRefusal.{DeterminismRefusal as Refusal};
ghost use Rattle.wb_determinism_host.specs.Hosts.{AreHostParts, IsDeterministicHost};
ghost use Rattle.wb_determinism_host.specs.Refusals.{IsHostRefusal, IsNoMemory};

/// A host that is refused for any reason but out of memory isn't deterministic.
pub fn host_refusals_law()
    ensures { (r : ResolvedParts) (g : GrammarView) (refusal : Refusal) → IsHostRefusal r g refusal → IsDeterministicHost r g → IsNoMemory refusal }
{}

/// No kernel of a deterministic host has a conflict. So `tables` refuses its kernels and lookaheads only where it is out of memory.
pub fn host_tables_law()
    ensures { (r : ResolvedParts) (g : GrammarView) (parts : HostParts) → IsDeterministicHost r g → AreHostParts r g parts → (state terminal : ℕ) (first second : Action) → ¬ IsConflict parts.kernels state terminal first second }
{}
