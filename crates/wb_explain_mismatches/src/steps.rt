//! Do these steps lead from one kind to another?

ghost use Rattle.std.specs.Prelude.{◌≡◌, ◌⊎◌, ◌∷◌, [], IfOk, IsTrue};
ghost use Rattle.wb_explain_mismatches.specs.Steps.{IsUnit, Leads, Makes, TurnsInto};

use crate::search::way;
use crate::step::{Maker, Step};
use std::alloc::{AllocError, Global};
use wb_base::Kind;
use wb_operations::OperationSignatures;
use wb_values::Signatures;

// Steps from one kind to another, the outermost first, or none.
pub(crate) fn steps_between(
    alloc: Global,
    signatures: &Signatures,
    operations: &OperationSignatures,
    from: Kind,
    to: Kind,
) -> Result<Vec<Step>, AllocError>
    ensures { IfOk result (λ steps. (steps.items ≡ []) ⊎ Leads signatures.now operations.now steps.items from to) }
{
    let mut steps = way(alloc, signatures, operations, from, to)?;
    if !leads(signatures, operations, &steps, from, to) {
        steps.truncate(0);
    }
    Ok(steps)
}

// Whether the steps lead from the one kind to the other.
fn leads(
    signatures: &Signatures,
    operations: &OperationSignatures,
    steps: &[Step],
    from: Kind,
    to: Kind,
) -> bool
    ensures { IsTrue result → Leads signatures.now operations.now steps.now from to }
{
    let mut kind = to;
    'steps: for step in steps {
        if step.to != kind || !makes(signatures, operations, step.maker, step.from, step.to) {
            return false;
        }
        kind = step.from;
    }
    kind == from
}

// Whether a maker makes the second kind of the first.
fn makes(
    signatures: &Signatures,
    operations: &OperationSignatures,
    maker: Maker,
    from: Kind,
    to: Kind,
) -> bool
    ensures { IsTrue result → Makes signatures.now operations.now maker from to }
{
    match maker {
        Maker::Production(number) => is_unit(signatures, number, from, to),
        Maker::Operation(number) => turns_into(operations, number, from, to),
    }
}

// Whether a production has one child, of this kind, and its left side is that kind.
fn is_unit(signatures: &Signatures, number: usize, from: Kind, to: Kind) -> bool
    ensures { IsTrue result → IsUnit signatures.now number from to }
{
    if number >= signatures.len() || Kind::Tree(signatures.left(number)) != to {
        return false;
    }
    is_one(signatures.children(number), from)
}

// Whether an operation takes one argument, of this kind, and gives that kind.
fn turns_into(operations: &OperationSignatures, number: usize, from: Kind, to: Kind) -> bool
    ensures { IsTrue result → TurnsInto operations.now number from to }
{
    if number >= operations.len() || operations.gives(number) != to {
        return false;
    }
    is_one(operations.takes(number), from)
}

// Whether there is one kind, and it is this.
pub(crate) fn is_one(kinds: &[Kind], kind: Kind) -> bool
    ensures { IsTrue result → kinds.now ≡ kind ∷ [] }
{
    kinds.len() == 1 && kinds[0] == kind
}
