//! Which certificate has a certified host, or a certified extension with its host?
//!
//! Each row has the text of a host, that of an extension or nothing, and the certificate. It follows from the rules: kernels are numbered
//! and entries listed as they are first reached.

ghost use Rattle.std.specs.Prelude.{◌≡◌};

use crate::answers::spec_of;
use std::alloc::Global;
use std::process::Abort;
use wb_certify::certify_extension;
use wb_certify_host::{CertifiedHost, certify_host};
use wb_operations::{OperationTable, Standard, standard_table};
use wb_recheck::{write_extension, write_host};
use wb_recheck_text::read_certificate;
use wb_syntax::Spec;

// A host, an extension or nothing, and a certificate.
type Row = (&'static str, &'static str, &'static str);

// Fails unless each host or extension has its certificate.
fn certificates_are<R: Abort + AllocGlobal>(rt: &R, rows: &[Row]) {
    assert!(rt; are_certificates(rt.alloc(), rows));
}

// Whether each has.
fn are_certificates(alloc: Global, rows: &[Row]) -> bool {
    match standard_table(alloc) {
        Ok(operations) => all_have(alloc, &operations, rows),
        Err(_) => false,
    }
}

// The same over these operations.
fn all_have(alloc: Global, operations: &OperationTable<Standard>, rows: &[Row]) -> bool {
    'rows: for row in rows {
        match spec_of(alloc, row.0) {
            Some(spec) => {
                let has = spec_has(alloc, operations, &spec, row);
                spec.release();
                if !has {
                    return false;
                }
            }
            None => return false,
        }
    }
    true
}

// The same of a host's specification.
fn spec_has(alloc: Global, operations: &OperationTable<Standard>, spec: &Spec, row: &Row) -> bool {
    match certify_host(alloc, spec, operations) {
        Ok(host) => {
            let has = if row.1.len() == 0 {
                host_has(alloc, &host, row.2)
            } else {
                extension_has(alloc, operations, &host, row)
            };
            host.release();
            has
        }
        Err(refusal) => {
            refusal.release();
            false
        }
    }
}

// Whether a host has this certificate.
fn host_has(alloc: Global, host: &CertifiedHost, certificate: &str) -> bool {
    match write_host(alloc, host) {
        Ok(text) => is_certificate(alloc, text.as_slice(), certificate),
        Err(_) => false,
    }
}

// Whether an extension has with its host.
fn extension_has(
    alloc: Global,
    operations: &OperationTable<Standard>,
    host: &CertifiedHost,
    row: &Row,
) -> bool
    requires { operations.now.signatures ≡ host.now.operations }
{
    match spec_of(alloc, row.1) {
        Some(spec) => {
            let has = extension_spec_has(alloc, operations, host, &spec, row.2);
            spec.release();
            has
        }
        None => false,
    }
}

// The same of an extension's specification.
fn extension_spec_has(
    alloc: Global,
    operations: &OperationTable<Standard>,
    host: &CertifiedHost,
    spec: &Spec,
    certificate: &str,
) -> bool
    requires { operations.now.signatures ≡ host.now.operations }
{
    match certify_extension(alloc, host, spec, operations) {
        Ok(extension) => {
            let has = match write_extension(alloc, &extension) {
                Ok(text) => is_certificate(alloc, text.as_slice(), certificate),
                Err(_) => false,
            };
            extension.release();
            has
        }
        Err(refusal) => {
            refusal.release();
            false
        }
    }
}

// Whether a text is the expected one, and is read.
fn is_certificate(alloc: Global, text: &[u8], certificate: &str) -> bool {
    text == certificate.as_bytes() && read_certificate(alloc, text).is_ok()
}

#[test]
fn certificates_are_listed_as_they_are_reached(rt: HostRuntime) {
    static ROWS: [Row; 4] = [
        (
            "format 1; host one; terminal X /x/; nonterminal S; start S; concrete go : S ::= x : X { }",
            "",
            "certificate 1\nhost one\nkernel 0 t0\nkernel 0 n0\n\
                look 0 1 0 1 -\nlook 0 0 0 1 0\nlook 2 1 1 1 0\nlook 1 0 1 1 1\n",
        ),
        // Entry 4 follows from entry 1 before the items that moved on are followed.
        (
            "format 1; host more; terminal X /x/; nonterminal S; start S; \
                concrete more : S ::= s : S x : X { } concrete one : S ::= x : X { }",
            "",
            "certificate 1\nhost more\nkernel 0 t0\nkernel 0 n0\nkernel 2 t0\n\
                look 0 2 0 1 -\nlook 0 0 0 1 0\nlook 0 1 0 1 0\nlook 2 2 1 1 0\nlook 0 0 0 0 1\nlook 0 1 0 0 1\nlook 2 0 1 1 1\n\
                look 1 1 1 1 2\nlook 2 0 1 0 4\nlook 1 1 1 0 5\nlook 3 0 2 1 6\nlook 3 0 2 0 8\n",
        ),
        // The hole of S is terminal 1.
        (
            "format 1; host one; terminal X /x/; nonterminal S; start S; extensible S; concrete go : S ::= x : X { }",
            "",
            "certificate 1\nhost one\nkernel 0 t0\nkernel 0 t1\nkernel 0 n0\n\
                look 0 2 0 2 -\nlook 0 0 0 2 0\nlook 0 1 0 2 0\nlook 3 2 1 2 0\nlook 1 0 1 2 1\nlook 2 1 1 2 2\n",
        ),
        (
            "format 1; host one; terminal X /x/; nonterminal S; start S; extensible S; concrete go : S ::= x : X { }",
            "format 1; extension more for one; marking M /m/; concrete marked : S ::= m : M { forwards to go(\"x\"); }",
            "certificate 1\nextension more for one\nkernel 0 t0\nkernel 0 t1\nkernel 0 t2\nkernel 0 n0\n\
                look 0 3 0 3 -\nlook 0 0 0 3 0\nlook 0 1 0 3 0\nlook 0 2 0 3 0\nlook 4 3 1 3 0\n\
                look 1 0 1 3 1\nlook 2 1 1 3 2\nlook 3 2 1 3 3\n",
        ),
    ];
    certificates_are(&rt, &ROWS);
}
