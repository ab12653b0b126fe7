//! Do the attributes of a certified host with certified extensions agree with their grammar? The body of the law is empty.

ghost use Rattle.std.specs.Prelude.{List};
ghost use Rattle.wb_compose_theory_lists.specs.Hosts.{rows_of};
ghost use Rattle.wb_base.specs.Grammar.{GrammarView};
ghost use Rattle.wb_compose.specs.Agreement.{united_grammar};
ghost use Rattle.wb_compose.specs.Attributes.{additions_of, attributes_of};
ghost use Rattle.wb_compose.specs.Joined.{AreCertifiedApart, Extended};
ghost use Rattle.wb_scan_theory.specs.Shown.{AgreesWith};
ghost use Rattle.wb_compose_theory_lists.specs.Grammars.{IsUnionGrammar};
ghost use Rattle.wb_operations.specs.Operations.{OperationSignature};
ghost use Rattle.wb_syntax_resolved.specs.declared.resolved.ResolvedParts.{ResolvedParts};

/// The united grammar has the terminals, nonterminals and productions that lead in the united attributes, each by its number; so the
/// united signatures agree with it, and a tree of a text in the united language fits them.
pub fn agreement_law()
    ensures grammar { (host : ResolvedParts) (g : GrammarView) (operations : List OperationSignature) (extended : List Extended) → AreCertifiedApart host g operations extended → IsUnionGrammar (rows_of host g) (additions_of host g extended) (united_grammar host g extended) }
    ensures signatures { (host : ResolvedParts) (g : GrammarView) (operations : List OperationSignature) (extended : List Extended) → AreCertifiedApart host g operations extended → AgreesWith (attributes_of host g extended).signatures (united_grammar host g extended) }
{}
