//! A law of the definitions: what it says is proved, and there is nothing to run.

ghost use Rattle.std.specs.Prelude.{◌≡◌, ℕ, ◌<◌, List, length};
ghost use Rattle.wb_syntax_expressions.specs.declared.node.Node.{Node};
ghost use Rattle.wb_syntax_expressions.specs.Expression.{Expression, IsWhole, nodes_of};
ghost use Rattle.wb_syntax_expressions.specs.Places.{HasPartsBefore};

/// A list of nodes that is one whole expression has a node, has each node's parts before it, and is no other expression.
pub fn whole_law<L, A, P, O>()
    ensures some { (nodes : List (Node L A P O)) → IsWhole nodes → 0 < length nodes }
    ensures parts { (nodes : List (Node L A P O)) → IsWhole nodes → HasPartsBefore nodes }
    ensures only { (nodes : List (Node L A P O)) (e f : Expression L A P O) → nodes ≡ nodes_of e → nodes ≡ nodes_of f → e ≡ f }
{}
