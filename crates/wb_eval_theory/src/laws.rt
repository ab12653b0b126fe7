//! Laws of the definitions: what each says is proved, and there is nothing to run.

ghost use Rattle.std.specs.Prelude.{◌≤◌, ◌⊎◌, ◌↔◌, ℕ, Contains};
ghost use Rattle.wb_eval_theory.specs.Cases.{HasCases};
ghost use Rattle.wb_eval_theory.specs.Evaluable.{IsEvaluable, IsAsked};
ghost use Rattle.wb_eval_theory.specs.Laws.{HasOneAnswer, HasSomeAnswer, HasKinds, IsEnough, IsReadBack, IsRuleRead, IsWellFounded};
ghost use Rattle.wb_eval_theory.specs.Instances.{Instance, root, synthesized_at};
ghost use Rattle.wb_eval_theory.specs.Needed.{IsNeeded, NeedsMoreThan};
ghost use Rattle.wb_operations.specs.Operations.{Operations};
ghost use Rattle.wb_syntax_resolved.specs.declared.attribution.AttributionParts.{AttributionParts};
ghost use Rattle.wb_syntax_resolved.specs.declared.production.Production.{Production};
ghost use Rattle.wb_syntax_resolved.specs.Attribution.{IsAttribution};
ghost use Rattle.wb_syntax_resolved.specs.Expression.{Expression};
ghost use Rattle.wb_values.specs.Fits.{FitsTree};
ghost use Rattle.wb_values.specs.Tree.{Tree};

/// An instance has one answer at most, a value or a fault, and a path leads to one tree at most.
pub fn one_answer_law()
    ensures { (a : AttributionParts) (operations : Operations) (top : Tree) → HasOneAnswer a operations top }
{}

/// The nodes of an expression are that expression.
pub fn read_back_law()
    ensures { (e : Expression) → IsReadBack e }
{}

/// The expression of a vertex is what the nodes of its rule are read back as.
pub fn rule_law()
    ensures { (a : AttributionParts) → IsAttribution a → (production : Production) → Contains a.productions production → IsRuleRead production }
{}

/// An instance answers and reads by the equation for it, by the forward, by the equation of the production one step up, or by the
/// expression of its tree, which is read before all else at a path that ends in a local or forward. One that nothing defines has no answer.
pub fn cases_law()
    ensures { (a : AttributionParts) (operations : Operations) (top : Tree) → HasCases a operations top }
{}

/// Where attributes are well defined and kinds hold, each value has the kind of its instance, and each node fits.
pub fn kinds_law()
    ensures { (a : AttributionParts) (operations : Operations) (top : Tree) (nonterminal : ℕ) → IsEvaluable a operations → FitsTree a.signatures top nonterminal → HasKinds a operations top }
{}

/// There, an instance reads along the edges of a flow graph, whatever is needed for an attribute of the root is defined, and nothing needs
/// itself.
pub fn needs_law()
    ensures { (a : AttributionParts) (operations : Operations) (top : Tree) (attribute : ℕ) → IsEvaluable a operations → IsAsked a top attribute → IsWellFounded a operations top attribute }
{}

/// There, what is asked has an answer where finitely many instances are needed: no more than some number.
pub fn answers_law()
    ensures { (a : AttributionParts) (operations : Operations) (top : Tree) (attribute n : ℕ) → IsEvaluable a operations → IsAsked a top attribute → ¬ NeedsMoreThan a operations top (synthesized_at root attribute) n → HasSomeAnswer a operations top (synthesized_at root attribute) }
{}

/// Where an instance has an answer, finitely many instances are needed: some number isn't exceeded, nor is any greater one.
///
/// With `answers_law` this is exact: what may be asked has an answer just where some number is enough. And by each number more are needed,
/// or it has an answer: that neither is so can't be.
pub fn enough_law()
    ensures some { (a : AttributionParts) (operations : Operations) (top : Tree) (i : Instance) → HasSomeAnswer a operations top i → IsEnough a operations top i }
    ensures more { (a : AttributionParts) (operations : Operations) (top : Tree) (i : Instance) (n m : ℕ) → n ≤ m → ¬ NeedsMoreThan a operations top i n → ¬ NeedsMoreThan a operations top i m }
    ensures each { (a : AttributionParts) (operations : Operations) (top : Tree) (i r : Instance) → HasSomeAnswer a operations top i → IsNeeded a operations top i r → HasSomeAnswer a operations top r }
    ensures either { (a : AttributionParts) (operations : Operations) (top : Tree) (attribute n : ℕ) → IsEvaluable a operations → IsAsked a top attribute → ¬ ¬ (NeedsMoreThan a operations top (synthesized_at root attribute) n ⊎ HasSomeAnswer a operations top (synthesized_at root attribute)) }
    ensures exact { (a : AttributionParts) (operations : Operations) (top : Tree) (attribute : ℕ) → IsEvaluable a operations → IsAsked a top attribute → HasSomeAnswer a operations top (synthesized_at root attribute) ↔ IsEnough a operations top (synthesized_at root attribute) }
{}
