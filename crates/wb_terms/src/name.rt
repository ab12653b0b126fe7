//! What is the printed name of a production?
//!
//! A number past the signatures has an empty one, so that printing needs no condition. Once as many names were printed as there are
//! productions, short ones are found in a table and appended in one piece of 16 bytes, of which those behind are cut off.

ghost use Rattle.std.specs.Prelude.{◌≡◌, ◌≤◌, ◌++◌, ◌∷◌, [], take, OnOk};
ghost use Rattle.wb_terms.specs.Printed.{name_of};
ghost use Rattle.wb_terms.specs.Inner.ShortNames.{AreShort, IsShort};

use std::alloc::{AllocError, Global};
use wb_base::push;
use wb_values::Signatures;

// The printed name of a production with a parenthesis, so many of these bytes. Of a long name there are none.
#[derive(Clone, Copy)]
struct Short {
    length: usize,
    bytes: [u8; 16],
}

// The short names of the first productions, and how many names were printed without this table.
#[derive(Drop)]
pub(crate) struct Names {
    short: Vec<Short>,
    printed: usize,
}

impl Names {
    // No names.
    pub(crate) fn new(alloc: Global) -> Names
        ensures { result.short.items ≡ [] }
    {
        Names {
            short: Vec::new(alloc),
            printed: 0,
        }
    }
}

// Appends the printed name of a production and an opening parenthesis.
pub(crate) fn print_name(
    out: &mut Vec<u8>,
    names: &mut Names,
    signatures: &Signatures,
    production: usize,
) -> Result<(), AllocError>
    requires { AreShort signatures.now names.old.short.items }
    ensures text { OnOk result (out.new.items ≡ out.old.items ++ name_of signatures.now production ++ 40 ∷ []) }
    ensures names { OnOk result (AreShort signatures.now names.new.short.items) }
{
    if production < names.short.len() {
        let short = &names.short[production];
        if short.length > 0 {
            return print_first(out, &short.bytes, short.length);
        }
    }
    count_name(names, signatures)?;
    print_long(out, signatures, production)
}

// Appends the first of these bytes, so many of them.
pub(crate) fn print_first(
    out: &mut Vec<u8>,
    bytes: &[u8; 16],
    count: usize,
) -> Result<(), AllocError>
    requires { count ≤ 16 }
    ensures { OnOk result (out.new.items ≡ out.old.items ++ take count bytes.now) }
{
    out.extend_from_slice(bytes)?;
    let len = out.len() - (16 - count);
    out.truncate(len);
    Ok(())
}

// Appends a name that is looked up, and an opening parenthesis.
#[inline(never)]
fn print_long(
    out: &mut Vec<u8>,
    signatures: &Signatures,
    production: usize,
) -> Result<(), AllocError>
    ensures { OnOk result (out.new.items ≡ out.old.items ++ name_of signatures.now production ++ 40 ∷ []) }
{
    out.extend_from_slice(printed_name(signatures, production))?;
    push(out, b'(')
}

// Counts a name that is printed without the table, which is made once they are as many as productions.
#[inline(never)]
fn count_name(names: &mut Names, signatures: &Signatures) -> Result<(), AllocError>
    requires { AreShort signatures.now names.old.short.items }
    ensures { OnOk result (AreShort signatures.now names.new.short.items) }
{
    if names.printed >= signatures.len() {
        return Ok(());
    }
    names.printed += 1;
    if names.printed < signatures.len() {
        return Ok(());
    }
    add_short(&mut names.short, signatures)
}

// Adds the short names of the productions that have none yet.
fn add_short(short: &mut Vec<Short>, signatures: &Signatures) -> Result<(), AllocError>
    requires { AreShort signatures.now short.old.items }
    ensures { OnOk result (AreShort signatures.now short.new.items) }
{
    'names: while short.len() < signatures.len() {
        let name = short_name(printed_name(signatures, short.len()));
        push(short, name)?;
    }
    Ok(())
}

// A name with a parenthesis in 16 bytes, if it fits into them.
fn short_name(name: &[u8]) -> Short
    ensures { IsShort name.now result }
{
    let mut bytes = [b'('; 16];
    if name.len() > 15 {
        return Short { length: 0, bytes };
    }
    bytes[..name.len()].copy_from_slice(name);
    Short {
        length: name.len() + 1,
        bytes,
    }
}

// The printed name of a production, which is empty where the production isn't there.
fn printed_name(signatures: &Signatures, production: usize) -> &[u8]
    ensures { result.now ≡ name_of signatures.now production }
{
    if production < signatures.len() {
        signatures.name(production)
    } else {
        &[]
    }
}
