//! Lists the productions of each nonterminal.

ghost use Rattle.std.specs.Prelude.{◌≡◌, ◌<◌, ◌+◌, ◌++◌, ◌∷◌, [], IfOk, OnOk, length, replicate};
ghost use Rattle.wb_items.specs.Inner.Passes.{RowsUpTo};
ghost use Rattle.wb_items.specs.Table.{AreProductions};

use std::alloc::{AllocError, Global};
use std::marker::Model;
use wb_base::{Grammar, push};

/// Numbers of productions, in order.
#[derive(Drop)]
pub struct Numbers {
    numbers: Vec<usize>,
}

impl Model for Numbers {
    ghost use Rattle.std.specs.Prelude.{List, ℕ};

    ghost Value = { List ℕ };

    ghost view = { λ n. n.numbers.items };
}

impl Numbers {
    // No number.
    fn new(alloc: Global) -> Numbers
        ensures { result ≡ [] }
    {
        Numbers {
            numbers: Vec::new(alloc),
        }
    }

    // Puts a number after the others.
    fn push(&mut self, number: usize) -> Result<(), AllocError>
        ensures { OnOk result (self.new ≡ self.old ++ number ∷ []) }
    {
        push(&mut self.numbers, number)
    }

    /// The numbers.
    pub fn as_slice(&self) -> &[usize]
        ensures { result.now ≡ self.now }
    {
        &self.numbers
    }
}

/// The numbers of the productions of each nonterminal, in order.
pub fn production_numbers(alloc: Global, grammar: &Grammar) -> Result<Vec<Numbers>, AllocError>
    ensures { IfOk result (λ rows. AreProductions grammar.now rows.items) }
{
    let mut rows = empty_rows(alloc, grammar.nonterminals())?;
    'productions: for production in 0..grammar.productions() {
        add_production(grammar, production, &mut rows)?;
    }
    Ok(rows)
}

// So many empty rows.
fn empty_rows(alloc: Global, count: usize) -> Result<Vec<Numbers>, AllocError>
    ensures { IfOk result (λ rows. rows.items ≡ replicate count []) }
{
    let mut rows = Vec::new(alloc);
    'rows: for _row in 0..count {
        push(&mut rows, Numbers::new(alloc))?;
    }
    Ok(rows)
}

// Adds a production to the row of its left side.
fn add_production(
    grammar: &Grammar,
    production: usize,
    rows: &mut [Numbers],
) -> Result<(), AllocError>
    requires production { production < length grammar.now.productions }
    requires before { RowsUpTo grammar.now rows.old production }
    ensures { OnOk result (RowsUpTo grammar.now rows.new (production + 1)) }
{
    let _right = grammar.right(production);
    rows[grammar.left(production)].push(production)?;
    Ok(())
}
