//! Lists the names of each sort, in the order of their numbers.
//!
//! A base's names go before those of a file, but what is of the grammar goes before what isn't.

ghost use Rattle.std.specs.Prelude.{◌≡◌, ◌++◌, ◌∷◌, [], OnOk, flat_map};
ghost use Rattle.wb_syntax.specs.declared.item.Item.{Item as Written};
ghost use Rattle.wb_syntax.specs.declared.pattern.Pattern.{Pattern as Read};
ghost use Rattle.wb_syntax_resolved.specs.declared.production.Production.{Production as Row};
ghost use Rattle.wb_names_theory.specs.Declarations.{productions};
ghost use Rattle.wb_names_numbers_theory.specs.Resolves.{IsConcrete};
ghost use Rattle.wb_names_numbers_theory.specs.Rows.{production_role};
ghost use Rattle.wb_names_numbers_theory.specs.Sources.{AreGrouped, sources};
ghost use Rattle.wb_names_symbols.specs.Lent.{lent_file};
ghost use Rattle.wb_names_symbols.specs.Symbols.{IsNameOf};
ghost use Rattle.wb_names_symbols.specs.Inner.Names as spec;
ghost use Rattle.wb_names_symbols.specs.Inner.Nonterminals.{attribute_names};

use crate::lent::Lent;
use crate::named::add_names;
use std::alloc::AllocError;
use wb_base::Bytes;
use wb_names_rows::index::Index;
use wb_syntax::{Item, ItemForm, Pattern, PlainForm};
use wb_syntax_resolved::{Production, ProductionRole};

// Adds the names of a base's attributes, and then of those that items declare.
pub(crate) fn add_attribute_names(file: &Lent, names: &mut Index) -> Result<(), AllocError>
    requires { names.old ≡ [] }
    ensures { OnOk result (names.new ≡ attribute_names (lent_file file.now)) }
{
    add_names(file.base.attributes.parts().attributes.as_slice(), names)?;
    add_declared_attributes(file.items, names)
}

// Adds the names of the attributes that items declare.
fn add_declared_attributes(items: &[Item<Pattern>], names: &mut Index) -> Result<(), AllocError>
    ensures { OnOk result (names.new ≡ names.old ++ flat_map (λ (item : Written Read). spec.form_attributes item.form) items.now) }
{
    'items: for item in items {
        add_form_attribute(&item.form, names)?;
    }
    Ok(())
}

// Adds the name of the attribute that an item declares, where it declares one.
fn add_form_attribute(form: &ItemForm<Pattern>, names: &mut Index) -> Result<(), AllocError>
    ensures { OnOk result (names.new ≡ names.old ++ spec.form_attributes form.now) }
{
    match form {
        ItemForm::Plain(plain) => match plain {
            PlainForm::Synthesized { name, .. } => add_name(name, names),
            PlainForm::Inherited { name, .. } => add_name(name, names),
            _ => Ok(()),
        },
        _ => Ok(()),
    }
}

// Adds the names of concrete productions, of a base and then of a file, and then those of abstract ones.
pub(crate) fn add_production_names(file: &Lent, names: &mut Index) -> Result<(), AllocError>
    requires { names.old ≡ [] }
    ensures { OnOk result (AreGrouped IsConcrete IsNameOf (sources file.now.base.now.attributes.productions (productions file.now.items.now)) names.new) }
{
    let rows = file.base.attributes.parts().productions.as_slice();
    add_productions(true, rows, names)?;
    add_declared_productions(true, file.items, names)?;
    add_productions(false, rows, names)?;
    add_declared_productions(false, file.items, names)
}

// Adds the names of these productions, of concrete ones or of abstract ones.
fn add_productions(concrete: bool, rows: &[Production], names: &mut Index) -> Result<(), AllocError>
    ensures { OnOk result (names.new ≡ names.old ++ flat_map (λ (p : Row). spec.row_names concrete p) rows.now) }
{
    'rows: for row in rows {
        add_wanted(has_role(concrete, row.role), &row.name, names)?;
    }
    Ok(())
}

// Adds the names of the productions that items declare, of concrete ones or of abstract ones.
fn add_declared_productions(
    concrete: bool,
    items: &[Item<Pattern>],
    names: &mut Index,
) -> Result<(), AllocError>
    ensures { OnOk result (names.new ≡ names.old ++ flat_map (λ (item : Written Read). spec.form_productions concrete item.form) items.now) }
{
    'items: for item in items {
        add_form_production(concrete, &item.form, names)?;
    }
    Ok(())
}

// Adds the name of the production that an item declares, where it declares one of that role.
fn add_form_production(
    concrete: bool,
    form: &ItemForm<Pattern>,
    names: &mut Index,
) -> Result<(), AllocError>
    ensures { OnOk result (names.new ≡ names.old ++ spec.form_productions concrete form.now) }
{
    match form {
        ItemForm::Production { role, production } => {
            let wanted = has_role(concrete, numbered_role(*role));
            add_wanted(wanted, &production.name, names)
        }
        _ => Ok(()),
    }
}

// Adds a name, where it is wanted.
fn add_wanted(wanted: bool, name: &Bytes, names: &mut Index) -> Result<(), AllocError>
    ensures { OnOk result (names.new ≡ names.old ++ spec.wanted_name wanted name.now) }
{
    if wanted {
        add_name(name, names)
    } else {
        Ok(())
    }
}

// Adds a name.
pub(crate) fn add_name(name: &Bytes, names: &mut Index) -> Result<(), AllocError>
    ensures { OnOk result (names.new ≡ names.old ++ name.now ∷ []) }
{
    names.add(name.copy()?)
}

// Whether the role is concrete, where that is wanted, or abstract, where that is.
fn has_role(concrete: bool, role: ProductionRole) -> bool
    ensures { result ≡ spec.has_role concrete role }
{
    match role {
        ProductionRole::Concrete => concrete,
        ProductionRole::Abstract => !concrete,
    }
}

/// What a production that is declared for this is for.
pub fn numbered_role(role: wb_syntax::ProductionRole) -> ProductionRole
    ensures { result ≡ production_role role }
{
    match role {
        wb_syntax::ProductionRole::Concrete => ProductionRole::Concrete,
        wb_syntax::ProductionRole::Abstract => ProductionRole::Abstract,
    }
}
