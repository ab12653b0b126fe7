//! Do preferences form a cycle, by which no terminal would win?

ghost use Rattle.std.specs.Prelude.{◌↔◌, ℕ, All, IfOk, IfSome, IsNone, List};
ghost use Rattle.wb_graph.specs.Graphs.{IsEdgeBelow};
ghost use Rattle.wb_graph.specs.Orders.{IsCycle, IsSimpleCycle};

use std::alloc::{AllocError, Global};
use wb_graph::{Order, order_of};

/// A cycle of preferences, each terminal preferred to the next and the last to the first, or None where there is none.
///
/// Terminals are numbers below the count, and the pair `(t, u)` prefers t to u. Which of several cycles is shown is left open.
pub fn preference_cycle(
    alloc: Global,
    count: usize,
    preferences: &[(usize, usize)],
) -> Result<Option<Vec<usize>>, AllocError>
    requires { All (IsEdgeBelow count) preferences.now }
    ensures cycle { IfOk result (λ found. IfSome found (λ cycle. IsSimpleCycle preferences.now cycle.items)) }
    ensures none { IfOk result (λ found. IsNone found ↔ ((cycle : List ℕ) → ¬ IsCycle preferences.now cycle)) }
{
    match order_of(alloc, count, preferences)? {
        Order::Sorted(_) => Ok(None),
        Order::Cycle(cycle) => Ok(Some(cycle)),
    }
}
