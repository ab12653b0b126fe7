//! Builds the rows of the terminals of a base and of a file.
//!
//! Layout is kept apart, since it is numbered on after the terminals of the grammar.

ghost use Rattle.std.specs.Prelude.{◌≡◌, ◌∷◌, [], OnOk, IfOk, option_to_list};
ghost use Rattle.wb_names_theory.specs.Declarations.{lexical_of, lexicals};
ghost use Rattle.wb_names_numbers_theory.specs.Rows.{terminal_kind};
ghost use Rattle.wb_names_rows.specs.Terminals.{AddsTerminals, IsCopy, IsFoundTerminal, declares_scanned, has_scanned};

use std::alloc::AllocError;
use wb_base::push;
use wb_syntax::{Item, ItemForm, Pattern, Role};
use wb_syntax_resolved::{Terminal, TerminalKind};

/// Those of the grammar, and layout.
pub struct Terminals {
    pub scanned: Vec<Terminal>,
    pub layout: Vec<Terminal>,
}

impl Drop for Terminals {
    fn drop(self) {
        let Terminals { scanned, layout } = self;
        drop(scanned);
        drop(layout);
    }
}

/// Adds those of a base.
pub fn add_base(terminals: &[Terminal], made: &mut Terminals) -> Result<(), AllocError>
    ensures { OnOk result (AddsTerminals has_scanned IsCopy terminals.now made.old made.new) }
{
    for terminal in terminals {
        add(copied(terminal)?, made)?;
    }
    Ok(())
}

/// Adds those that these items of this owner declare.
pub fn add_declared(
    owner: usize,
    items: &[Item<Pattern>],
    made: &mut Terminals,
) -> Result<(), AllocError>
    ensures { OnOk result (AddsTerminals declares_scanned (IsFoundTerminal owner) (lexicals items.now) made.old made.new) }
{
    for item in items {
        add_form(owner, &item.form, made)?;
    }
    Ok(())
}

// Adds the one that an item declares, where it declares one.
fn add_form(owner: usize, form: &ItemForm<Pattern>, made: &mut Terminals) -> Result<(), AllocError>
    ensures { OnOk result (AddsTerminals declares_scanned (IsFoundTerminal owner) (option_to_list (lexical_of form.now)) made.old made.new) }
{
    let ItemForm::Lexical {
        role,
        name,
        pattern,
    } = form
    else {
        return Ok(());
    };
    let name = name.copy()?;
    let pattern = pattern.regex.copy()?;
    add(
        Terminal {
            name,
            owner,
            kind: numbered_kind(*role),
            pattern,
        },
        made,
    )
}

// Adds one.
fn add(terminal: Terminal, made: &mut Terminals) -> Result<(), AllocError>
    ensures { OnOk result (AddsTerminals has_scanned IsCopy (terminal ∷ []) made.old made.new) }
{
    match terminal.kind {
        TerminalKind::Ignore => push(&mut made.layout, terminal),
        _ => push(&mut made.scanned, terminal),
    }
}

// An equal row.
fn copied(terminal: &Terminal) -> Result<Terminal, AllocError>
    ensures { IfOk result (IsCopy terminal.now) }
{
    Ok(Terminal {
        name: terminal.name.copy()?,
        owner: terminal.owner,
        kind: terminal.kind,
        pattern: terminal.pattern.copy()?,
    })
}

// What a terminal of this role is for.
fn numbered_kind(role: Role) -> TerminalKind
    ensures { result ≡ terminal_kind role }
{
    match role {
        Role::Terminal => TerminalKind::Plain,
        Role::Ignore => TerminalKind::Ignore,
        Role::Marking => TerminalKind::Marking,
    }
}
