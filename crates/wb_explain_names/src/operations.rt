//! What is said of an operation that isn't there?

use std::alloc::AllocError;
use wb_explain_names_roles::lists::{empty_list, end_list, list_name};
use wb_explain_names_roles::mention::Mention;
use wb_explain_names_roles::near::is_near;
use wb_explain_names_roles::role::Role;
use wb_explain_names_roles::script::{Script, say, say_around, show_own};
use wb_explain_names_roles::side::{Sides, name_of};
use wb_operations::OperationSignatures;

// Appends what is said of an operation of the name, where the file has one that isn't there.
pub(crate) fn say_operation(
    script: &mut Script,
    sides: &Sides<'_>,
    operations: &OperationSignatures,
) -> Result<(), AllocError> {
    if operations.find(sides.name).is_some() {
        return Ok(());
    }
    match operation_in(sides) {
        Some(mention) => {
            say_around(script, "\nThere is no operation @", sides.name, ":\n")?;
            show_own(script, mention)?;
            say_near_operation(script, operations, sides.name)?;
            say_operations(script, operations)
        }
        None => Ok(()),
    }
}

// The first use of the name as an operation.
fn operation_in(sides: &Sides<'_>) -> Option<Mention> {
    'mentions: for mention in sides.own.mentions {
        if mention.role == Role::Operation && name_of(&sides.own, *mention) == sides.name {
            return Some(*mention);
        }
    }
    None
}

// Appends the operations that are one edit from the name.
fn say_near_operation(
    script: &mut Script,
    operations: &OperationSignatures,
    name: &[u8],
) -> Result<(), AllocError> {
    'operations: for number in 0..operations.len() {
        let other = operations.name(number);
        if is_near(name, other) {
            say_around(script, "\nPerhaps @", other, " is meant.\n")?;
        }
    }
    Ok(())
}

// Appends the names of all operations.
fn say_operations(script: &mut Script, operations: &OperationSignatures) -> Result<(), AllocError> {
    let mut line = empty_list();
    'operations: for number in 0..operations.len() {
        line = list_name(script, line, "\nThe operations: ", operations.name(number))?;
    }
    end_list(script, line)
}
