//! Laws of the definitions: what each says is proved, and there is nothing to run.

ghost use Rattle.std.specs.Prelude.{List};
ghost use Rattle.wb_compose_theory_attributes.specs.Laws.{HasUnitedKinds, IsUnitedAttribution, IsUnitedWellDefined, StaysExtension, StaysPart};
ghost use Rattle.wb_compose_theory_attributes.specs.Tested.{AreAttributions};
ghost use Rattle.wb_compose_theory_attributes.specs.Unions.{IsUnionOf, Rooted};
ghost use Rattle.wb_compose_theory_worlds.specs.Worlds.{World};

/// A part of a world whose attributes are well defined stays so by new numbers, and so does an extension with its host.
pub fn numbers_law()
    ensures part { (v : World) → StaysPart v }
    ensures extension { (v : World) → StaysExtension v }
{}

/// The union of a host and extensions that are attributions is an attribution, and its start is the host's.
pub fn attribution_law()
    ensures { (host : Rooted) (extensions : List Rooted) (a : Rooted) → IsUnionOf host extensions a → AreAttributions host extensions → IsUnitedAttribution a }
{}

/// Where the attributes of the host are well defined, and those of each extension with the host alone, those of their union are.
pub fn united_law()
    ensures { (host : Rooted) (extensions : List Rooted) (a : Rooted) → IsUnitedWellDefined host extensions a }
{}

/// Where the expressions of the host are of their kinds, and those of each extension with the host alone, those of their union are.
pub fn kinds_law()
    ensures { (host : Rooted) (extensions : List Rooted) (a : Rooted) → HasUnitedKinds host extensions a }
{}
