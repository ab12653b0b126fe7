//! Certifies the extensions of a union.

ghost use Rattle.std.specs.Prelude.{◌≡◌, All, IfSome};
ghost use Rattle.wb_compose.specs.Composed.{IsWith};

use std::alloc::Global;
use wb_base::push;
use wb_certify::{CertifiedExtension, CertifiedHost, certify_extension};
use wb_operations::{OperationTable, Standard};
use wb_reader::read_spec;
use wb_syntax::Spec;

/// Adds the extension of this text to others, if it is certified with the host, and answers whether it did.
pub fn add_certified(
    alloc: Global,
    host: &CertifiedHost,
    operations: &OperationTable<Standard>,
    text: &[u8],
    extensions: &mut Vec<CertifiedExtension>,
) -> bool
    requires operations { operations.now.signatures ≡ host.now.operations }
    requires each { All (IsWith host.now) extensions.old.items }
    ensures { All (IsWith host.now) extensions.new.items }
{
    match certified_of(alloc, host, operations, text) {
        Some(extension) => is_pushed(host, extensions, extension),
        None => false,
    }
}

// Adds an extension to others, and answers whether there was memory for it.
fn is_pushed(
    host: &CertifiedHost,
    extensions: &mut Vec<CertifiedExtension>,
    extension: CertifiedExtension,
) -> bool
    requires extension { IsWith host.now extension }
    requires each { All (IsWith host.now) extensions.old.items }
    ensures { All (IsWith host.now) extensions.new.items }
{
    match push(extensions, extension) {
        Ok(()) => true,
        Err(_) => false,
    }
}

// The extension of this text, if it is certified.
fn certified_of(
    alloc: Global,
    host: &CertifiedHost,
    operations: &OperationTable<Standard>,
    text: &[u8],
) -> Option<CertifiedExtension>
    requires { operations.now.signatures ≡ host.now.operations }
    ensures { IfSome result (IsWith host.now) }
{
    match read_spec(alloc, text) {
        Ok(spec) => {
            let extension = certified_by(alloc, host, operations, &spec);
            spec.release();
            extension
        }
        Err(refusal) => {
            refusal.release();
            None
        }
    }
}

// The extension of this specification, if it is certified.
fn certified_by(
    alloc: Global,
    host: &CertifiedHost,
    operations: &OperationTable<Standard>,
    spec: &Spec,
) -> Option<CertifiedExtension>
    requires { operations.now.signatures ≡ host.now.operations }
    ensures { IfSome result (IsWith host.now) }
{
    match certify_extension(alloc, host, spec, operations) {
        Ok(extension) => Some(extension),
        Err(refusal) => {
            refusal.release();
            None
        }
    }
}
