//! How are the last parts of a stack taken, and how do parts go to the end of its last list?
//!
//! Parts of all types go through these calls, so what happens where some are missing, or memory is, is written once. The stacks are in
//! `builder`.

ghost use Rattle.std.specs.Prelude.{◌≡◌, ◌∷◌, [], IfOk, MatchOption, OnOk};
ghost use Rattle.wb_reader_builder.specs.Inner.Stacks.{HasFew, with_last, last_place};

use std::alloc::AllocError;
use wb_base::{List, Stack};

// The last two values, in order, which are no longer there. Where there are fewer, nothing is left.
pub(crate) fn take_two<T: Drop>(values: &mut Stack<T>) -> Option<(T, T)>
    ensures { MatchOption result
        (HasFew values.old × (values.new ≡ []))
        (λ two. values.old ≡ two.1 ∷ two.0 ∷ values.new) }
{
    let last = values.pop()?;
    let first = values.pop()?;
    Some((first, last))
}

// The value goes to the end of the last list, where there is one.
pub(crate) fn append<T: Drop>(lists: &mut Stack<List<T>>, value: T) -> Result<(), AllocError>
    ensures ok { OnOk result (lists.new ≡ with_last value lists.old) }
{
    let Some(mut list) = lists.pop() else {
        return Ok(());
    };
    list.push(value)?;
    lists.push(list)
}

// Like `append`, and answers the place of the value in its list; none where there is no list.
pub(crate) fn append_at<T: Drop>(
    lists: &mut Stack<List<T>>,
    value: T,
) -> Result<Option<usize>, AllocError>
    ensures lists { OnOk result (lists.new ≡ with_last value lists.old) }
    ensures place { IfOk result (λ place. place ≡ last_place lists.old) }
{
    let Some(mut list) = lists.pop() else {
        return Ok(None);
    };
    let place = list.len();
    list.push(value)?;
    lists.push(list)?;
    Ok(Some(place))
}
