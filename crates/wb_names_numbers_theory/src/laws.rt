//! Laws of the definitions: what they say is proved, and there is nothing to run.

ghost use Rattle.std.specs.Prelude.{ℕ};
ghost use Rattle.wb_syntax_resolved.specs.declared.resolved.ResolvedParts.{ResolvedParts};
ghost use Rattle.wb_names_numbers_theory.specs.Carried.{IsCarried};
ghost use Rattle.wb_names_numbers_theory.specs.Files.{File};
ghost use Rattle.wb_names_numbers_theory.specs.Given.{GivesResolved};
ghost use Rattle.wb_names_numbers_theory.specs.OneValue.{IsOnlyValue};
ghost use Rattle.wb_names_numbers_theory.specs.Resolves.{Resolves};

/// A file stands for one value at most.
pub fn one_value_law()
    ensures { (file : File) (r : ResolvedParts) → IsOnlyValue file r }
{}

/// Where the names of a file are right in a format, each value that it stands for is a resolved specification.
pub fn resolved_law()
    ensures { (file : File) (r : ResolvedParts) → GivesResolved file r }
{}

/// Each terminal, nonterminal, attribute, occurrence and production of the base is in each value that a file stands for over it.
pub fn carried_law()
    ensures { (file : File) (r : ResolvedParts) → Resolves file r → IsCarried (λ (owner : ℕ). owner) file.base r }
{}
