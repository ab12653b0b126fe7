//! How are things listed? After a heading come a text for each of the first, and how many more there are.

ghost use Rattle.std.specs.Prelude.{◌≡◌, ◌⊎◌, OnOk, take};
ghost use Rattle.wb_explain_flows_lists.specs.Lists.{HasTexts, Lists};

use crate::told::Told;
use crate::writing::{push_number, push_text};
use std::alloc::{AllocError, Global};

// The most that are listed.
const MOST: usize = 40;

// What is listed.
pub(crate) trait Listed {
    ghost use Rattle.std.specs.Prelude.{OnOk, List, ℕ};
    ghost use Rattle.wb_syntax_resolved.specs.declared.attribution.AttributionParts.{AttributionParts};
    ghost use Rattle.wb_explain_flows_lists.specs.Lists.{HasText};

    // That this is a text for it.
    ghost IsText: { AttributionParts → Self → List ℕ → Type 0 };

    // Appends a text for it.
    fn push(&self, alloc: Global, out: &mut Vec<u8>, told: &Told<'_>) -> Result<(), AllocError>
        ensures { OnOk result (HasText (IsText told.now.scope.now.attributes.now self.now) out.old.items out.new.items) };
}

// Appends a list of what was found after a heading, where something was.
pub(crate) fn push_found<T: Listed>(
    alloc: Global,
    out: &mut Vec<u8>,
    told: &Told<'_>,
    heading: &str,
    found: &[T],
) -> Result<(), AllocError>
    ensures { OnOk result ((out.new.items ≡ out.old.items) ⊎ Lists (T.IsText told.now.scope.now.attributes.now) found.now out.old.items out.new.items) }
{
    if found.len() == 0 {
        return Ok(());
    }
    let rest = rest_of(alloc, found.len())?;
    let answer = push_list(alloc, out, told, heading, found, &rest);
    drop(rest);
    answer
}

// Appends a heading, a text for each of the first, and what comes after them.
fn push_list<T: Listed>(
    alloc: Global,
    out: &mut Vec<u8>,
    told: &Told<'_>,
    heading: &str,
    found: &[T],
    rest: &[u8],
) -> Result<(), AllocError>
    ensures { OnOk result (Lists (T.IsText told.now.scope.now.attributes.now) found.now out.old.items out.new.items) }
{
    out.extend_from_slice(heading.as_bytes())?;
    push_each(alloc, out, told, first_of(found))?;
    out.extend_from_slice(rest)?;
    Ok(())
}

// Appends a text for each.
fn push_each<T: Listed>(
    alloc: Global,
    out: &mut Vec<u8>,
    told: &Told<'_>,
    found: &[T],
) -> Result<(), AllocError>
    ensures { OnOk result (HasTexts (T.IsText told.now.scope.now.attributes.now) found.now out.old.items out.new.items) }
{
    'found: for one in found {
        one.push(alloc, out, told)?;
    }
    Ok(())
}

/// The first of these, so many as are listed.
pub fn first_of<T>(found: &[T]) -> &[T]
    ensures { result.now ≡ take 40 found.now }
{
    if found.len() <= MOST {
        return found;
    }
    &found[..MOST]
}

// How many more there are.
fn rest_of(alloc: Global, count: usize) -> Result<Vec<u8>, AllocError> {
    let mut rest = Vec::new(alloc);
    match push_more(&mut rest, count) {
        Ok(()) => Ok(rest),
        Err(error) => {
            drop(rest);
            Err(error)
        }
    }
}

// Appends how many more than are listed there are.
fn push_more(out: &mut Vec<u8>, count: usize) -> Result<(), AllocError> {
    if count <= MOST {
        return Ok(());
    }
    push_text(out, "    and ")?;
    push_number(out, count - MOST)?;
    push_text(out, " more\n")
}
