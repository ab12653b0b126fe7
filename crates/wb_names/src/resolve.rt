//! Which numbered value does a specification stand for, or why does it stand for none?
//!
//! The first line is tested here, names in `wb_names_rules`; then everything has a number.

ghost use Rattle.std.specs.Prelude.{◌≡◌, [], IfErr, IfOk};
ghost use Rattle.wb_names_theory.specs.Refusals.{IsTrueRefusal};
ghost use Rattle.wb_names_numbers_theory.specs.Given.{IsFile};
ghost use Rattle.wb_names_symbols.specs.Lent.{lent_file};
ghost use Rattle.wb_names.specs.Resolving.{IsExtensionNameRefusal, IsHostNameRefusal, ResolvesExtension, ResolvesHost, file_scope};
ghost use Rattle.wb_names.specs.Inner.Rest.{BeginsAlone};
ghost use Rattle.wb_names.specs.Inner.Value.{IsValueOf};
ghost use Rattle.wb_names.specs.Inner.Wrong.{IsWrongHost, IsWrongSort};

use crate::empty::nothing_before;
use crate::numbered::numbered;
use std::alloc::Global;
use std::slice::from_ref;
use wb_base::Bytes;
use wb_names_rules::check_names;
use wb_names_symbols::lent::Lent;
use wb_names_theory::NameRefusal;
use wb_syntax::{Header, Spec};
use wb_syntax_resolved::Resolved;

/// The numbered value of a host, or the first name rule that fails.
///
/// A file that isn't a host is refused for that, with its own name. The time is about linear in the specification; no clause bounds it.
pub fn resolve_host(alloc: Global, spec: &Spec) -> Result<Resolved, NameRefusal>
    ensures ok { IfOk result (ResolvesHost spec.now) }
    ensures refused { IfErr result (IsHostNameRefusal spec.now) }
{
    match spec.header() {
        Header::Host => host_of(alloc, spec),
        Header::Extension { .. } => Err(wrong_kind(alloc, spec.name())),
    }
}

// Like `resolve_host`, where the file is a host.
fn host_of(alloc: Global, spec: &Spec) -> Result<Resolved, NameRefusal>
    requires { spec.now.header ≡ Header.Host }
    ensures ok { IfOk result (ResolvesHost spec.now) }
    ensures refused { IfErr result (IsHostNameRefusal spec.now) }
{
    let items = spec.items();
    let before = nothing_before(alloc, spec.name())?;
    let made = resolve_in(
        alloc,
        spec.format(),
        &Lent {
            base: before.parts(),
            owner: 0,
            extensions: &[],
            items,
        },
    );
    before.release();
    made
}

/// The numbered value of a host with an extension, or the first name rule that fails.
///
/// The numbers of the host are moved, where those of the extension come before them in a group; the extension is owner 1. A file that isn't
/// an extension is refused for that, with its own name, and one for another host with the other's name. The time is about linear in both.
pub fn resolve_extension(
    alloc: Global,
    host: &Resolved,
    spec: &Spec,
) -> Result<Resolved, NameRefusal>
    requires { host.now.attributes.extensions ≡ [] }
    ensures ok { IfOk result (ResolvesExtension host.now spec.now) }
    ensures refused { IfErr result (IsExtensionNameRefusal host.now spec.now) }
{
    match spec.header() {
        Header::Host => Err(wrong_kind(alloc, spec.name())),
        Header::Extension { host: other } => {
            if other.as_slice() == host.parts().host.as_slice() {
                extended_host(alloc, host, spec)
            } else {
                Err(wrong_host(alloc, other.as_slice()))
            }
        }
    }
}

// The host with its extension.
fn extended_host(alloc: Global, host: &Resolved, spec: &Spec) -> Result<Resolved, NameRefusal>
    requires alone { host.now.attributes.extensions ≡ [] }
    requires header { spec.now.header ≡ Header.Extension host.now.host }
    ensures ok { IfOk result (ResolvesExtension host.now spec.now) }
    ensures refused { IfErr result (IsExtensionNameRefusal host.now spec.now) }
{
    let name = Bytes::from_slice(alloc, spec.name())?;
    let made = resolve_in(
        alloc,
        spec.format(),
        &Lent {
            base: host.parts(),
            owner: 1,
            extensions: from_ref(&name),
            items: spec.items(),
        },
    );
    drop(name);
    made
}

// The numbered value of a file of this format.
fn resolve_in(alloc: Global, format: u32, file: &Lent) -> Result<Resolved, NameRefusal>
    requires file { IsFile (lent_file file.now) }
    requires alone { BeginsAlone (lent_file file.now) }
    ensures ok { IfOk result (IsValueOf format (lent_file file.now)) }
    ensures refused { IfErr result (IsTrueRefusal (file_scope format (lent_file file.now))) }
{
    check_names(alloc, file.base, file.owner, format, file.items)?.release();
    Ok(numbered(alloc, file)?)
}

// That a file is of the wrong sort, with its name.
fn wrong_kind(alloc: Global, name: &[u8]) -> NameRefusal
    ensures { IsWrongSort name.now result }
{
    match Bytes::from_slice(alloc, name) {
        Ok(name) => NameRefusal::WrongKind(name),
        Err(error) => NameRefusal::NoMemory(error),
    }
}

// That an extension is for another host, which has this name.
fn wrong_host(alloc: Global, name: &[u8]) -> NameRefusal
    ensures { IsWrongHost name.now result }
{
    match Bytes::from_slice(alloc, name) {
        Ok(name) => NameRefusal::WrongHost(name),
        Err(error) => NameRefusal::NoMemory(error),
    }
}
