//! Gives the numbers of the union's layout, and the productions by which each is considered.

ghost use Rattle.std.specs.Prelude.{◌≡◌, ◌+◌, ◌++◌, IfOk, OnOk, replicate};
ghost use Rattle.std.specs.List.{range_with_len};
ghost use Rattle.wb_compose_language.specs.Lents.{IsUnitable};
ghost use Rattle.wb_compose_language.specs.Inner.Layouts.{AreSpansBelow, layouts_in};

use crate::Lent;
use crate::addition::{host_layouts, own_layouts};
use crate::own_productions::sum;
use std::alloc::{AllocError, Global};
use wb_base::push;

// So many numbers, from this one on. More numbers than there are need more than any memory.
pub(crate) fn numbers_from(
    alloc: Global,
    from: usize,
    count: usize,
) -> Result<Vec<usize>, AllocError>
    ensures { IfOk result (λ numbers. numbers.items ≡ range_with_len from count) }
{
    let mut numbers = Vec::new(alloc);
    'numbers: for number in 0..count {
        match from.checked_add(number) {
            Some(next) => push(&mut numbers, next)?,
            None => return Err(AllocError),
        }
    }
    Ok(numbers)
}

// Of each layout the productions by which it is considered: none are given for the host's, and for an extension's own those that it adds.
pub(crate) fn spans_of(
    alloc: Global,
    lent: &Lent,
) -> Result<Vec<Option<(usize, usize)>>, AllocError>
    requires { IsUnitable lent.now }
    ensures { IfOk result (λ spans. AreSpansBelow lent.now (layouts_in lent.now) spans.items) }
{
    let hosts = host_layouts(lent);
    let mut spans = Vec::new(alloc);
    add_spans(&mut spans, None, hosts)?;
    let own = lent.grammar.productions();
    let mut first = own;
    'extensions: for number in 0..lent.extensions.len() {
        let extension = &lent.extensions[number];
        let added = extension.grammar.productions() - own;
        let end = sum(first, added)?;
        add_spans(
            &mut spans,
            Some((first, end)),
            own_layouts(extension, hosts),
        )?;
        first = end;
    }
    Ok(spans)
}

// Adds the same productions so many times.
fn add_spans(
    spans: &mut Vec<Option<(usize, usize)>>,
    span: Option<(usize, usize)>,
    count: usize,
) -> Result<(), AllocError>
    ensures { OnOk result (spans.new.items ≡ spans.old.items ++ replicate count span) }
{
    'layouts: for _layout in 0..count {
        push(spans, span)?;
    }
    Ok(())
}
