//! Laws of the definitions: what each says is proved, and there is nothing to run.

ghost use Rattle.std.specs.Prelude.{ℕ, List};
ghost use Rattle.wb_compose_theory_lists.specs.Additions.{Addition, Rows};
ghost use Rattle.wb_operations.specs.Operations.{Operations};
ghost use Rattle.wb_compose_theory_attribute_order.specs.Attributions.{IsSameAttribution};
ghost use Rattle.wb_compose_theory_attribute_order.specs.Laws.{HasSameAnswers, HasSameNeeds, IsPrintedAlike, MayBeAskedAlike};
ghost use Rattle.wb_compose_theory_attribute_order.specs.Renumberings.{Renumbering};
ghost use Rattle.wb_compose_theory_attribute_order.specs.OrderLaws.{AreSameUnion, IsUnitedInOtherOrder};
ghost use Rattle.wb_syntax_resolved.specs.Attribution.{IsAttribution};
ghost use Rattle.wb_syntax_resolved.specs.declared.attribution.AttributionParts.{AttributionParts};
ghost use Rattle.wb_values.specs.Tree.{Tree, Value};

/// In two numberings of one attribution an attribute of the root has the same value, the same fault, or neither.
pub fn answers_law()
    ensures { (r s : Renumbering) (a b : AttributionParts) → IsAttribution a → IsAttribution b → IsSameAttribution r s a b → (operations : Operations) (top : Tree) → HasSameAnswers r.numbers a b operations top }
{}

/// For it, more than n instances are needed in both, or in neither.
pub fn needs_law()
    ensures { (r s : Renumbering) (a b : AttributionParts) → IsAttribution a → IsAttribution b → IsSameAttribution r s a b → (operations : Operations) (top : Tree) → HasSameNeeds r.numbers a b operations top }
{}

/// A value and the same in other numbers are printed alike.
pub fn printed_law()
    ensures { (r s : Renumbering) (a b : AttributionParts) → IsAttribution a → IsAttribution b → IsSameAttribution r s a b → (v : Value) → IsPrintedAlike r.numbers a b v }
{}

/// An attribute and the same in other numbers are printed alike; it occurs on the same nonterminals, and needs as much there.
pub fn asked_law()
    ensures { (r s : Renumbering) (a b : AttributionParts) → IsSameAttribution r s a b → MayBeAskedAlike r.numbers a b }
{}

/// The attributes of a host with extensions, and with these in another order, are one attribution, in other numbers.
pub fn order_law()
    ensures { (host : Rows) (all others : List Addition) (to from : ℕ → ℕ) → AreSameUnion host all others to from }
{}

/// What extensions may add to a host, they may in any order.
pub fn added_law()
    ensures { (host : Rows) (all others : List Addition) (to from : ℕ → ℕ) → IsUnitedInOtherOrder host all others to from }
{}
