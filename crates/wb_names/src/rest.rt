//! Builds the rows of attributes, occurrences and preferences, and finds the extensible nonterminals and the start.
//!
//! A base's come first, in new numbers, and then what a file declares.

ghost use Rattle.std.specs.Prelude.{◌≤◌, ◌<◌, All, Contains, OnOk, length, option_to_list};
ghost use Rattle.std.specs.List.{AllZip};
ghost use Rattle.wb_syntax_resolved.specs.Resolved.{IsResolved};
ghost use Rattle.wb_names_theory.specs.Declarations.{extensibles, starts};
ghost use Rattle.wb_names_numbers_theory.specs.Resolves.{starts_of};
ghost use Rattle.wb_names_numbers_theory.specs.Sources.{sources};
ghost use Rattle.wb_names_rows.specs.GrammarNames.{form_extensibles, form_starts};
ghost use Rattle.wb_names_rows.specs.Moves.{IsNow};
ghost use Rattle.wb_names_rows.specs.Nodes.{IsAt};
ghost use Rattle.wb_names_rows.specs.Plains.{AddsEach};
ghost use Rattle.wb_names_symbols.specs.Lent.{lent_file};
ghost use Rattle.wb_names_symbols.specs.Symbols.{AreNumbers};
ghost use Rattle.wb_names.specs.Inner.Rest.{AddsBase, AreRest, HasTables, IsBare, IsNumberNow, IsReady};

use std::alloc::{AllocError, Global};
use wb_base::push;
use wb_names_rows::base::{add_attributes, add_occurrences, add_preferences};
use wb_names_rows::moves::Moves;
use wb_names_rows::plains::{Plains, add_plains};
use wb_names_rows::scope::{Scope, number_of};
use wb_names_symbols::lent::Lent;
use wb_syntax::{Item, ItemForm, Pattern, PlainForm};
use wb_syntax_resolved::ResolvedParts;

// Rows of attributes, occurrences and preferences, numbers of extensible nonterminals, and that of the start.
#[derive(Drop)]
pub(crate) struct Rest {
    pub(crate) plains: Plains,
    pub(crate) extensible: Vec<usize>,
    pub(crate) start: Option<usize>,
}

// Adds those of a base and a file to none.
pub(crate) fn add_rest(
    alloc: Global,
    file: &Lent,
    scope: &Scope,
    moves: &Moves,
    rest: &mut Rest,
) -> Result<(), AllocError>
    requires ready { IsReady (lent_file file.now) }
    requires numbers { AreNumbers (lent_file file.now) scope.now moves.now }
    requires nothing { IsBare rest.old }
    ensures { OnOk result (AreRest (lent_file file.now) scope.now moves.now rest.new) }
{
    rest.start = start_of(file, scope, moves);
    let extensible = &mut rest.extensible;
    add_moved(moves, file.base.extensible.as_slice(), extensible)?;
    add_extensible(scope, file.items, extensible)?;
    add_base(alloc, file.base, moves, &mut rest.plains)?;
    add_plains(alloc, scope, file.items, &mut rest.plains)
}

// Adds those of a base.
fn add_base(
    alloc: Global,
    base: &ResolvedParts,
    moves: &Moves,
    made: &mut Plains,
) -> Result<(), AllocError>
    requires base { IsResolved base.now }
    requires tables { HasTables base.now moves.now }
    ensures { OnOk result (AddsBase base.now moves.now made.old made.new) }
{
    let parts = base.attributes.parts();
    add_attributes(moves, parts.attributes.as_slice(), &mut made.attributes)?;
    add_occurrences(
        alloc,
        moves,
        parts.occurrences.as_slice(),
        &mut made.occurrences,
    )?;
    add_preferences(moves, base.preferences.as_slice(), &mut made.preferences)
}

// Adds these nonterminals of a base.
fn add_moved(moves: &Moves, numbers: &[usize], made: &mut Vec<usize>) -> Result<(), AllocError>
    requires { All (λ number. number < length moves.now.nonterminals.items) numbers.now }
    ensures { OnOk result (AddsEach (IsNow moves.now.nonterminals.items) numbers.now made.old.items made.new.items) }
{
    'numbers: for number in numbers {
        push(made, moved_number(moves, *number))?;
    }
    Ok(())
}

// The new number of a base's nonterminal.
fn moved_number(moves: &Moves, number: usize) -> usize
    requires { number < length moves.now.nonterminals.items }
    ensures { IsNow moves.now.nonterminals.items number result }
{
    moves.nonterminals[number]
}

// Adds the nonterminals that items make extensible.
fn add_extensible(
    scope: &Scope,
    items: &[Item<Pattern>],
    made: &mut Vec<usize>,
) -> Result<(), AllocError>
    requires { All (Contains scope.now.nonterminals) (extensibles items.now) }
    ensures { OnOk result (AddsEach (IsAt scope.now.nonterminals) (extensibles items.now) made.old.items made.new.items) }
{
    'items: for item in items {
        add_form(scope, &item.form, made)?;
    }
    Ok(())
}

// Adds the nonterminal that an item makes extensible.
fn add_form(
    scope: &Scope,
    form: &ItemForm<Pattern>,
    made: &mut Vec<usize>,
) -> Result<(), AllocError>
    requires { All (Contains scope.now.nonterminals) (form_extensibles form.now) }
    ensures { OnOk result (AddsEach (IsAt scope.now.nonterminals) (form_extensibles form.now) made.old.items made.new.items) }
{
    match form {
        ItemForm::Plain(plain) => match plain {
            PlainForm::Extensible(name) => {
                push(made, number_of(&scope.nonterminals, name.as_slice()))
            }
            _ => Ok(()),
        },
        _ => Ok(()),
    }
}

// The number of the start, where there is one.
fn start_of(file: &Lent, scope: &Scope, moves: &Moves) -> Option<usize>
    requires ready { IsReady (lent_file file.now) }
    requires numbers { AreNumbers (lent_file file.now) scope.now moves.now }
    ensures { AllZip (IsNumberNow scope.now moves.now) (sources (starts_of file.now.base.now) (starts file.now.items.now)) (option_to_list result) }
{
    match &file.base.grammar {
        Some(grammar) => Some(moved_number(moves, grammar.start())),
        None => written_start(scope, file.items),
    }
}

// The number of the start that items declare, where they declare one.
fn written_start(scope: &Scope, items: &[Item<Pattern>]) -> Option<usize>
    requires there { All (Contains scope.now.nonterminals) (starts items.now) }
    requires few { length (starts items.now) ≤ 1 }
    ensures { AllZip (IsAt scope.now.nonterminals) (starts items.now) (option_to_list result) }
{
    'items: for item in items {
        if let Some(number) = form_start(scope, &item.form) {
            return Some(number);
        }
    }
    None
}

// The number of the start that an item declares.
fn form_start(scope: &Scope, form: &ItemForm<Pattern>) -> Option<usize>
    requires { All (Contains scope.now.nonterminals) (form_starts form.now) }
    ensures { AllZip (IsAt scope.now.nonterminals) (form_starts form.now) (option_to_list result) }
{
    match form {
        ItemForm::Plain(plain) => match plain {
            PlainForm::Start(name) => Some(number_of(&scope.nonterminals, name.as_slice())),
            _ => None,
        },
        _ => None,
    }
}
