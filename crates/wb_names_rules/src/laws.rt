//! Laws of the definitions: what they say is proved, and there is nothing to run.

ghost use Rattle.std.specs.Prelude.{List};
ghost use Rattle.wb_names_theory.specs.declared.declaration.Declaration.{Declaration};
ghost use Rattle.wb_names_rules.specs.Index.{IsEachShown};

/// Declarations of the same thing that count are one exactly where no name shows that something is declared twice. What is in a production
/// that is itself declared twice shows nothing, and the law holds all the same, since there the production's name shows it.
pub fn twice_law()
    ensures { (declared : List Declaration) → IsEachShown declared }
{}
