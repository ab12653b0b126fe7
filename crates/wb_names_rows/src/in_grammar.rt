//! Which nonterminals of a base are in its grammar?
//!
//! Its start, its extensible ones and those in concrete productions, also where it has no start and so no grammar. What items say is in
//! `grammar_names`.

ghost use Rattle.std.specs.Prelude.{◌≡◌, ◌<◌, ◌↔◌, ◌∷◌, [], ℕ, IfOk, flat_map, length};
ghost use Rattle.wb_syntax_resolved.specs.declared.production.Child.{Child as Part};
ghost use Rattle.wb_syntax_resolved.specs.declared.production.Production.{Production as Row};
ghost use Rattle.wb_syntax_resolved.specs.Grammar.{IsOfGrammar};
ghost use Rattle.wb_names_rows.specs.Marks.{IsMarked};
ghost use Rattle.wb_names_rows.specs.Inner.Marks as spec;

use std::alloc::{AllocError, Global};
use wb_base::{Grammar, Kind};
use wb_syntax_resolved::{Child, ChildKind, Production, ProductionRole, ResolvedParts};

/// A flag for each nonterminal of a base, by number.
pub fn base_flags(alloc: Global, base: &ResolvedParts) -> Result<Vec<bool>, AllocError>
    ensures count { IfOk result (λ flags. length flags.items ≡ length base.now.attributes.nonterminals) }
    ensures exact { IfOk result (λ flags. (k : ℕ) → k < length base.now.attributes.nonterminals → IsMarked flags.items k ↔ IsOfGrammar base.now k) }
{
    let attributes = base.attributes.parts();
    let mut flags = vec![in alloc; false; attributes.nonterminals.len()]?;
    mark_start(&base.grammar, &mut flags);
    mark_all(base.extensible.as_slice(), &mut flags);
    mark_productions(attributes.productions.as_slice(), &mut flags);
    Ok(flags)
}

// Marks one number, where it has a flag.
fn mark(number: usize, flags: &mut Vec<bool>)
    ensures { spec.Marks (number ∷ []) flags.old.items flags.new.items }
{
    if number < flags.len() {
        flags[number] = true;
    }
}

// Marks the start of a grammar, where there is one.
fn mark_start(grammar: &Option<Grammar>, flags: &mut Vec<bool>)
    ensures { spec.Marks (spec.start_numbers grammar.now) flags.old.items flags.new.items }
{
    match grammar {
        None => {}
        Some(grammar) => mark(grammar.start(), flags),
    }
}

// Marks these numbers.
fn mark_all(numbers: &[usize], flags: &mut Vec<bool>)
    ensures { spec.Marks numbers.now flags.old.items flags.new.items }
{
    'numbers: for &number in numbers {
        mark(number, flags);
    }
}

// Marks the nonterminals in concrete productions.
fn mark_productions(productions: &[Production], flags: &mut Vec<bool>)
    ensures { spec.Marks (flat_map (λ (p : Row). spec.role_numbers p.role p) productions.now) flags.old.items flags.new.items }
{
    'productions: for production in productions {
        mark_production(production, flags);
    }
}

// Marks the nonterminals in a production, where it is concrete.
fn mark_production(production: &Production, flags: &mut Vec<bool>)
    ensures { spec.Marks (spec.role_numbers production.now.role production.now) flags.old.items flags.new.items }
{
    match production.role {
        ProductionRole::Abstract => {}
        ProductionRole::Concrete => {
            mark(production.left, flags);
            mark_children(production.children.as_slice(), flags);
        }
    }
}

// Marks the nonterminals of which children are trees.
fn mark_children(children: &[Child], flags: &mut Vec<bool>)
    ensures { spec.Marks (flat_map (λ (c : Part). spec.child_numbers c.kind) children.now) flags.old.items flags.new.items }
{
    'children: for child in children {
        mark_child(child.kind, flags);
    }
}

// Marks the nonterminal of which a child is a tree, where it is one.
fn mark_child(kind: ChildKind, flags: &mut Vec<bool>)
    ensures { spec.Marks (spec.child_numbers kind) flags.old.items flags.new.items }
{
    match kind {
        ChildKind::Terminal(_) => {}
        ChildKind::Value(is) => match is {
            Kind::Tree(number) => mark(number, flags),
            _ => {}
        },
    }
}
