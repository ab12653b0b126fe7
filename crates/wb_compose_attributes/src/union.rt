//! Builds the attributes of the union of a host and extensions.

ghost use Rattle.std.specs.Prelude.{◌≡◌, IfOk, OnOk};
ghost use Rattle.wb_compose_theory_lists.specs.United as united;
ghost use Rattle.wb_syntax_resolved.specs.Attribution.{IsAttribution};
ghost use Rattle.wb_compose_attributes.specs.Lent.{all_in, rows_in};
ghost use Rattle.wb_compose_attributes.specs.Inner.Filled.{AreEmpty, parts_in};

use crate::lists::{Lists, add_all};
use crate::placed::{counts_of, host_numbers, placed_of, totals_of};
use crate::{Addition, Rows};
use std::alloc::{AllocError, Global};
use wb_base::Sequence;
use wb_names_rows::signatures::signatures_of;
use wb_syntax_resolved::{Attribution, AttributionParts};

/// The attributes of the union of a host and extensions.
pub fn united_attribution(
    alloc: Global,
    host: &Rows,
    additions: &[Addition],
) -> Result<Attribution, AllocError>
    requires { IsAttribution (united.united_attribution (rows_in host.now) (all_in host.now additions.now)) }
    ensures { IfOk result (λ made. made ≡ united.united_attribution (rows_in host.now) (all_in host.now additions.now)) }
{
    let mut made = Lists {
        extensions: Vec::new(alloc),
        nonterminals: Vec::new(alloc),
        attributes: Vec::new(alloc),
        occurrences: Vec::new(alloc),
        productions: Vec::new(alloc),
    };
    gather(alloc, host, additions, &mut made)?;
    attribution_of(alloc, made)
}

// Adds all rows of the host and of the extensions.
fn gather(
    alloc: Global,
    host: &Rows,
    additions: &[Addition],
    made: &mut Lists,
) -> Result<(), AllocError>
    requires { AreEmpty made.old }
    ensures { OnOk result (parts_in made.new ≡ united.united_attribution (rows_in host.now) (all_in host.now additions.now)) }
{
    let all = totals_of(additions)?;
    let numbers = host_numbers(&counts_of(host), &all)?;
    let placed = placed_of(alloc, &numbers, additions)?;
    add_all(alloc, made, &numbers, host, &placed)
}

// That of these lists, with the signatures of the productions.
fn attribution_of(alloc: Global, made: Lists) -> Result<Attribution, AllocError>
    requires { IsAttribution (parts_in made) }
    ensures { IfOk result (λ attribution. attribution ≡ parts_in made) }
{
    let signatures = signatures_of(alloc, &made.extensions, &made.productions)?;
    let parts = AttributionParts {
        extensions: Sequence::from_vec(made.extensions),
        nonterminals: Sequence::from_vec(made.nonterminals),
        attributes: Sequence::from_vec(made.attributes),
        occurrences: Sequence::from_vec(made.occurrences),
        productions: Sequence::from_vec(made.productions),
        signatures,
    };
    Attribution::new(alloc, parts)
}
