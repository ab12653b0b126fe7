//! Laws of the definitions: what each says is proved, and there is nothing to run.

ghost use Rattle.std.specs.Prelude.{ℕ};
ghost use Rattle.wb_syntax_resolved.specs.declared.attribution.AttributionParts.{AttributionParts};
ghost use Rattle.wb_syntax_resolved.specs.Attribution.{IsAttribution};
ghost use Rattle.wb_flow_theory.specs.Modular.{IsHosts};
ghost use Rattle.wb_compose_theory_worlds.specs.Attributions.{world_of, IsUnion, AreUnion, IsComposed, IsHostTested, IsExtensionTested};
ghost use Rattle.wb_compose_theory_worlds.specs.Laws.{IsUnionWellDefined, IsWrittenOnce};
ghost use Rattle.wb_compose_theory_worlds.specs.Named.{IsNamed};
ghost use Rattle.wb_compose_theory_worlds.specs.Worlds.{World};

/// Where the attributes of the host are well defined, and those of each extension with the host alone, those of their union are.
pub fn union_law()
    ensures { (w : World) → IsUnionWellDefined w }
{}

/// No two owners declare one occurrence, and no two rules are for one vertex.
pub fn once_law()
    ensures { (w : World) → IsNamed w → IsWrittenOnce w }
{}

/// A production's attributes are well defined in the union of an attribution's world exactly if they are in the attribution; so are all.
pub fn attribution_law()
    ensures production { (a : AttributionParts) → IsAttribution a → (start : ℕ) → IsUnion a start }
    ensures whole { (a : AttributionParts) → IsAttribution a → (start : ℕ) → AreUnion a start }
{}

/// In the world of an attribution whose start is the host's, owners see what they name, and declare and write only what they may.
pub fn names_law()
    ensures { (a : AttributionParts) → IsAttribution a → (start : ℕ) → IsHosts a start → IsNamed (world_of a start) }
{}

/// Where the attributes of the host are well defined, and those of each extension with the host alone, those of the attribution are.
pub fn composition_law()
    ensures { (a : AttributionParts) → IsAttribution a → (start : ℕ) → IsHosts a start → IsComposed a start }
{}

/// What is tested of an attribution without extensions, or with one, is that of its world's host, or of the extension with the host.
pub fn tested_law()
    ensures host { (a : AttributionParts) → IsAttribution a → (start : ℕ) → IsHostTested a start }
    ensures extension { (a : AttributionParts) → IsAttribution a → (start : ℕ) → IsExtensionTested a start }
{}
