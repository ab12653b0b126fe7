//! Renumbers nonterminals, attributes and occurrences.

ghost use Rattle.std.specs.Prelude.{◌≡◌, ◌++◌, OnOk};
ghost use Rattle.wb_compose_attributes.specs.Inner.Gathered.{attributes_by, nonterminals_by, occurrences_by};

use crate::{Numbers, new_attribute, new_nonterminal, new_occurrence};
use std::alloc::{AllocError, Global};
use wb_base::push;
use wb_syntax_resolved::{Attribute, Nonterminal, Occurrence};

// Adds nonterminals in new numbers.
pub(crate) fn add_nonterminals(
    alloc: Global,
    made: &mut Vec<Nonterminal>,
    numbers: &Numbers,
    rows: &[Nonterminal],
) -> Result<(), AllocError>
    ensures { OnOk result (made.new.items ≡ made.old.items ++ nonterminals_by numbers.now rows.now) }
{
    'rows: for row in rows {
        let next = new_nonterminal(alloc, numbers, row)?;
        push(made, next)?;
    }
    Ok(())
}

// Adds attributes in new numbers.
pub(crate) fn add_attributes(
    made: &mut Vec<Attribute>,
    numbers: &Numbers,
    rows: &[Attribute],
) -> Result<(), AllocError>
    ensures { OnOk result (made.new.items ≡ made.old.items ++ attributes_by numbers.now rows.now) }
{
    'rows: for row in rows {
        let next = new_attribute(numbers, row)?;
        push(made, next)?;
    }
    Ok(())
}

// Adds occurrences in new numbers.
pub(crate) fn add_occurrences(
    alloc: Global,
    made: &mut Vec<Occurrence>,
    numbers: &Numbers,
    rows: &[Occurrence],
) -> Result<(), AllocError>
    ensures { OnOk result (made.new.items ≡ made.old.items ++ occurrences_by numbers.now rows.now) }
{
    'rows: for row in rows {
        let next = new_occurrence(alloc, numbers, row)?;
        push(made, next)?;
    }
    Ok(())
}
