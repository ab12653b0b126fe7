//! Keeps the left side of each production, and the number of symbols on its right. In one short list, since a reduction asks for both.

ghost use Rattle.std.specs.Prelude.{◌<◌, IfOk, length};
ghost use Rattle.wb_parser_states.specs.Rules.{AreRules, IsRule};

use std::alloc::{AllocError, Global};
use wb_base::{Grammar, push};

/// The left side of a production, and how many symbols are on its right.
#[derive(Clone, Copy)]
pub struct Rule {
    /// The number of the nonterminal.
    pub left: usize,
    /// The number of symbols.
    pub width: usize,
}

/// Those of all productions, by number. The only error is out of memory.
pub fn rules_of(alloc: Global, grammar: &Grammar) -> Result<Vec<Rule>, AllocError>
    ensures { IfOk result (λ rules. AreRules grammar.now rules.items) }
{
    let mut rules = Vec::new(alloc);
    'productions: for production in 0..grammar.productions() {
        push(&mut rules, rule_of(grammar, production))?;
    }
    Ok(rules)
}

// Those of a production.
fn rule_of(grammar: &Grammar, production: usize) -> Rule
    requires { production < length grammar.now.productions }
    ensures { IsRule grammar.now production result }
{
    Rule {
        left: grammar.left(production),
        width: grammar.right(production).len(),
    }
}
