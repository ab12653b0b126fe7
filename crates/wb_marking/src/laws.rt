//! What do the rules on bridges give to composition, and what does a refusal rule out?

ghost use Rattle.wb_base.specs.Grammar.{GrammarView};
ghost use Rattle.wb_marking.specs.declared.refusal.MarkRefusal.{MarkRefusal as Refusal};
ghost use Rattle.wb_marking.specs.Bridges.{AreBridges};
ghost use Rattle.wb_marking.specs.Clashes.{HasNoMarkerClash};
ghost use Rattle.wb_marking.specs.Marked.{IsMarked};
ghost use Rattle.wb_marking.specs.Markers.{HasGrammar};
ghost use Rattle.wb_marking.specs.Refusals.{IsMarkRefusal, IsNoMemory};
ghost use Rattle.wb_syntax_resolved.specs.declared.resolved.ResolvedParts.{ResolvedParts};

/// Where the rules on bridges hold, each marker has exactly one bridge, each production is a bridge or has no marker, and one without
/// marker is on a nonterminal of its owner.
pub fn marked_law()
    ensures { (r : ResolvedParts) (g : GrammarView) → HasGrammar r g → AreBridges r g → IsMarked r g }
{}

/// Where markers are refused for any reason but out of memory, some rule fails.
pub fn mark_refusals_law()
    ensures { (r : ResolvedParts) (g : GrammarView) (refusal : Refusal) → IsMarkRefusal r g refusal → AreBridges r g → HasNoMarkerClash r → IsNoMemory refusal }
{}
