//! How are two lists of rows put into one?
//!
//! What is of the grammar leads, and the rest follows. Each list is made where its rows are.

ghost use Rattle.std.specs.Prelude.{◌≡◌, ◌++◌, IfOk, OnOk, length};

use std::alloc::AllocError;

/// Puts what follows after what leads, and answers how many lead.
pub fn join<T>(leading: &mut Vec<T>, following: &mut Vec<T>) -> Result<usize, AllocError>
    ensures count { IfOk result (λ count. count ≡ length leading.old.items) }
    ensures joined { OnOk result (leading.new.items ≡ leading.old.items ++ following.old.items) }
{
    let count = leading.len();
    leading.append(following)?;
    Ok(count)
}
