//! Does `recheck` certify a host, and an extension with it, by their certificates, and by no other texts?
//!
//! Files are in memory. The certificates follow from the rules, but for those of `mini` and its extension, which `certificate` writes.

use crate::expected::{
    each_ends_so, each_long_ends_so, each_read_may_fail, each_write_may_fail, expect,
};
use std::alloc::{AllocError, Global};
use wb_program::Status;
use wb_tests_runs::{DUP, KW0, LongRow, MINI, POWER, Row, TINY, status_on};
use wb_world::{MemoryShelf, MemorySink};

const ONE: &str =
    "format 1; host one; terminal X /x/; nonterminal S; start S; concrete go : S ::= x : X { }";

const ONE_BY: &str = "certificate 1\nhost one\nkernel 0 t0\nkernel 0 n0\n\
    look 0 1 0 1 -\nlook 0 0 0 1 0\nlook 2 1 1 1 0\nlook 1 0 1 1 1\n";

const OPEN: &str =
    "format 1; host one; terminal X /x/; nonterminal S; start S; extensible S; concrete go : S ::= x : X { }";

// The hole of S is terminal 1.
const OPEN_BY: &str = "certificate 1\nhost one\nkernel 0 t0\nkernel 0 t1\nkernel 0 n0\n\
    look 0 2 0 2 -\nlook 0 0 0 2 0\nlook 0 1 0 2 0\nlook 3 2 1 2 0\nlook 1 0 1 2 1\nlook 2 1 1 2 2\n";

const MORE: &str =
    "format 1; extension more for one; marking M /m/; concrete marked : S ::= m : M { forwards to go(\"x\"); }";

const MORE_BY: &str =
    "certificate 1\nextension more for one\nkernel 0 t0\nkernel 0 t1\nkernel 0 t2\nkernel 0 n0\n\
    look 0 3 0 3 -\nlook 0 0 0 3 0\nlook 0 1 0 3 0\nlook 0 2 0 3 0\nlook 4 3 1 3 0\n\
    look 1 0 1 3 1\nlook 2 1 1 3 2\nlook 3 2 1 3 3\n";

static TAKEN: [Row; 5] = [
    (
        "workbench recheck h t",
        &[ONE, ONE_BY],
        Status::Done,
        "rechecked host one\n",
    ),
    // Kernels and entries in another order.
    (
        "workbench recheck h t",
        &[
            ONE,
            "certificate 1\nhost one\nkernel 0 n0\nkernel 0 t0\n\
            look 0 1 0 1 -\nlook 1 1 1 1 0\nlook 0 0 0 1 0\nlook 2 0 1 1 2\n",
        ],
        Status::Done,
        "rechecked host one\n",
    ),
    (
        "workbench recheck h t",
        &[OPEN, OPEN_BY],
        Status::Done,
        "rechecked host one\n",
    ),
    (
        "workbench recheck h t u v",
        &[OPEN, OPEN_BY, MORE, MORE_BY],
        Status::Done,
        "rechecked host one\nrechecked extension more\n",
    ),
    // The extension adds nothing to the grammar.
    (
        "workbench recheck h t u v",
        &[
            ONE,
            ONE_BY,
            "format 1; extension none for one;",
            "certificate 1\nextension none for one\nkernel 0 t0\nkernel 0 n0\n\
            look 0 1 0 1 -\nlook 0 0 0 1 0\nlook 2 1 1 1 0\nlook 1 0 1 1 1\n",
        ],
        Status::Done,
        "rechecked host one\nrechecked extension none\n",
    ),
];

#[test]
fn a_host_and_an_extension_are_certified_by_their_certificates(rt: HostRuntime) {
    each_ends_so(&rt, &TAKEN);
}

static REFUSED: [Row; 17] = [
    // The entry of the last line follows from another one.
    (
        "workbench recheck h t",
        &[
            ONE,
            "certificate 1\nhost one\nkernel 0 t0\nkernel 0 n0\n\
            look 0 1 0 1 -\nlook 0 0 0 1 0\nlook 2 1 1 1 0\nlook 1 0 1 1 0\n",
        ],
        Status::CertificateRefused,
        "refused t K2 line 8\n",
    ),
    // What follows from the second entry isn't listed.
    (
        "workbench recheck h t",
        &[
            ONE,
            "certificate 1\nhost one\nkernel 0 t0\nkernel 0 n0\nlook 0 1 0 1 -\nlook 0 0 0 1 0\nlook 2 1 1 1 0\n",
        ],
        Status::CertificateRefused,
        "refused t K3 kernel 0\n",
    ),
    (
        "workbench recheck h t",
        &[ONE, ""],
        Status::CertificateRefused,
        "refused t K1 at 0\n",
    ),
    // A move of the first kernel isn't listed.
    (
        "workbench recheck h t",
        &[
            ONE,
            "certificate 1\nhost one\nkernel 0 n0\nlook 0 1 0 1 -\nlook 1 1 1 1 0\nlook 0 0 0 1 0\n",
        ],
        Status::CertificateRefused,
        "refused t K3 kernel 0\n",
    ),
    // No entry is listed.
    (
        "workbench recheck h t",
        &[ONE, "certificate 1\nhost one\nkernel 0 t0\nkernel 0 n0\n"],
        Status::CertificateRefused,
        "refused t K3 kernel 0\n",
    ),
    // The text ends too early.
    (
        "workbench recheck h t",
        &[ONE, "certificate 1\nhost one"],
        Status::CertificateRefused,
        "refused t K1 at 22\n",
    ),
    // No name is a reserved word.
    (
        "workbench recheck h t",
        &[ONE, "certificate 1\nhost end\n"],
        Status::CertificateRefused,
        "refused t K1 at 22\n",
    ),
    (
        "workbench recheck h t",
        &[ONE, "certificate 1\nhost one\nkernel 00 t0\n"],
        Status::CertificateRefused,
        "refused t K1 at 31\n",
    ),
    (
        "workbench recheck h t",
        &[
            ONE,
            "certificate 1\nhost one\nkernel 18446744073709551616 t0\n",
        ],
        Status::CertificateRefused,
        "refused t K1 at 49\n",
    ),
    // A kernel after an entry.
    (
        "workbench recheck h t",
        &[
            ONE,
            "certificate 1\nhost one\nkernel 0 t0\nlook 0 1 0 1 -\nkernel 0 n0\n",
        ],
        Status::CertificateRefused,
        "refused t K1 at 50\n",
    ),
    // The certificate of another host.
    (
        "workbench recheck h t",
        &[KW0, ONE_BY],
        Status::CertificateRefused,
        "refused t K2 line 2\n",
    ),
    // A kernel that is led to twice.
    (
        "workbench recheck h t",
        &[
            ONE,
            "certificate 1\nhost one\nkernel 0 t0\nkernel 0 t0\nkernel 0 n0\n",
        ],
        Status::CertificateRefused,
        "refused t K2 line 4\n",
    ),
    // The hole is no terminal of the host without extensible nonterminals.
    (
        "workbench recheck h t",
        &[ONE, OPEN_BY],
        Status::CertificateRefused,
        "refused t K2 line 4\n",
    ),
    // The certificate of the host as one of the extension, and the other way round.
    (
        "workbench recheck h t u v",
        &[OPEN, OPEN_BY, MORE, OPEN_BY],
        Status::CertificateRefused,
        "refused v K2 line 2\n",
    ),
    (
        "workbench recheck h t u v",
        &[OPEN, MORE_BY, MORE, MORE_BY],
        Status::CertificateRefused,
        "refused t K2 line 2\n",
    ),
    (
        "workbench recheck h t u v",
        &[OPEN, OPEN_BY, MORE, ""],
        Status::CertificateRefused,
        "refused v K1 at 0\n",
    ),
    // That of another extension of the host.
    (
        "workbench recheck h t u v",
        &[
            OPEN,
            OPEN_BY,
            MORE,
            "certificate 1\nextension none for one\nkernel 0 t0\nkernel 0 t1\nkernel 0 n0\n",
        ],
        Status::CertificateRefused,
        "refused v K2 line 2\n",
    ),
];

#[test]
fn other_texts_are_refused(rt: HostRuntime) {
    each_ends_so(&rt, &REFUSED);
}

const USAGE: &str =
    "usage: workbench value|show|check|certify|compose|tree|run|generate|certificate|recheck|edit|reading ARGUMENTS\n";

static USAGES: [Row; 6] = [
    ("workbench recheck", &[ONE, ONE_BY], Status::Usage, USAGE),
    ("workbench recheck h", &[ONE, ONE_BY], Status::Usage, USAGE),
    (
        "workbench recheck h t u",
        &[OPEN, OPEN_BY, MORE],
        Status::Usage,
        USAGE,
    ),
    (
        "workbench recheck h t u v v",
        &[OPEN, OPEN_BY, MORE, MORE_BY],
        Status::Usage,
        USAGE,
    ),
    (
        "workbench recheck --text u h t",
        &[ONE, ONE_BY, ""],
        Status::Usage,
        USAGE,
    ),
    (
        "workbench recheck h -t",
        &[ONE, ONE_BY],
        Status::Usage,
        USAGE,
    ),
];

#[test]
fn a_certificate_is_named_after_its_file(rt: HostRuntime) {
    each_ends_so(&rt, &USAGES);
}

static ORDERED: [Row; 18] = [
    // Both files are read before the first is tested.
    ("workbench recheck g t", &[ONE, ONE_BY], Status::Absent, ""),
    ("workbench recheck h g", &[""], Status::Absent, ""),
    (
        "workbench recheck h t",
        &["", ""],
        Status::SpecRefused,
        "refused h S1 at 0\n",
    ),
    (
        "workbench recheck h t",
        &[MORE, MORE_BY],
        Status::SpecRefused,
        "refused h N4 more\n",
    ),
    (
        "workbench recheck h t",
        &["format 1; host one; start S;", ""],
        Status::SpecRefused,
        "refused h N1 S\n",
    ),
    // Rules before the conflict come before the certificate.
    (
        "workbench recheck h t",
        &["format 1; host one; nonterminal S;", ""],
        Status::NotCertified,
        "refused h G1 no start\n",
    ),
    (
        "workbench recheck h t",
        &[
            "format 1; host one; nonterminal S; start S; concrete s : S ::= x : S { }",
            "",
        ],
        Status::NotCertified,
        "refused h G1 unproductive S\n",
    ),
    // Rules from the conflict on come after it.
    (
        "workbench recheck h t",
        &[KW0, ""],
        Status::CertificateRefused,
        "refused t K1 at 0\n",
    ),
    (
        "workbench recheck h t",
        &[
            KW0,
            "certificate 1\nhost kw\nkernel 0 t0\nkernel 0 t1\nkernel 0 n0\nkernel 1 t1\n\
            look 0 2 0 2 -\nlook 0 0 0 2 0\nlook 0 1 0 2 0\nlook 3 2 1 2 0\nlook 1 0 1 2 1\nlook 2 1 1 2 2\nlook 4 0 2 2 4\n",
        ],
        Status::NotCertified,
        "refused h G5 after: If and Id share \"if\"\n",
    ),
    // The host and its certificate come before the extension is read.
    (
        "workbench recheck h t g g",
        &[ONE, ""],
        Status::CertificateRefused,
        "refused t K1 at 0\n",
    ),
    (
        "workbench recheck h t g g",
        &[ONE, ONE_BY],
        Status::Absent,
        "",
    ),
    (
        "workbench recheck h t u g",
        &[ONE, ONE_BY, ""],
        Status::Absent,
        "",
    ),
    (
        "workbench recheck h t u v",
        &[ONE, ONE_BY, "", ""],
        Status::SpecRefused,
        "refused u S1 at 0\n",
    ),
    (
        "workbench recheck h t u v",
        &[ONE, ONE_BY, ONE, ""],
        Status::SpecRefused,
        "refused u N4 one\n",
    ),
    (
        "workbench recheck h t u v",
        &[ONE, ONE_BY, DUP, ""],
        Status::WrongHost,
        "wrong host u names tiny\n",
    ),
    (
        "workbench recheck h t u v",
        &[ONE, ONE_BY, "format 1; extension e for one; start S;", ""],
        Status::SpecRefused,
        "refused u N3 S\n",
    ),
    // S isn't extensible.
    (
        "workbench recheck h t u v",
        &[ONE, ONE_BY, MORE, ""],
        Status::NotCertified,
        "refused u E3 more:marked\n",
    ),
    (
        "workbench recheck h t u v",
        &[
            OPEN,
            OPEN_BY,
            MORE,
            "certificate 1\nextension more for two\n",
        ],
        Status::CertificateRefused,
        "refused v K2 line 2\n",
    ),
];

#[test]
fn the_first_check_that_fails_is_reported(rt: HostRuntime) {
    each_ends_so(&rt, &ORDERED);
}

static LONG: [LongRow; 4] = [
    (
        "workbench recheck h t",
        [&[("", 1)], &[(" ", 16_777_217)]],
        Status::CertificateRefused,
        "refused t K4\n",
    ),
    // The host comes first.
    (
        "workbench recheck g t",
        [&[("", 1)], &[(" ", 16_777_217)]],
        Status::Absent,
        "",
    ),
    (
        "workbench recheck h t",
        [&[(TINY, 1)], &[(" ", 16_777_216)]],
        Status::CertificateRefused,
        "refused t K1 at 0\n",
    ),
    (
        "workbench recheck h t",
        [&[(" ", 1_048_577)], &[("", 1)]],
        Status::SpecRefused,
        "refused h S2\n",
    ),
];

#[test]
fn a_certificate_may_be_as_long_as_its_limit(rt: HostRuntime) {
    each_long_ends_so(&rt, &LONG);
}

// Whether `mini` and its extension are certified by the certificates that are written of them.
fn are_written_and_taken(alloc: Global) -> Result<bool, AllocError> {
    let mut host = MemorySink::new(alloc, 1_000_000, 1_000)?;
    let mut extension = MemorySink::new(alloc, 1_000_000, 1_000)?;
    let first = write_certificate(alloc, "workbench certificate h", &mut host)?;
    let second = write_certificate(alloc, "workbench certificate h u", &mut extension)?;
    let taken = are_taken(alloc, host.bytes(), extension.bytes())?;
    Ok(first && second && taken)
}

// Writes a certificate of `mini`, or of its extension with it.
fn write_certificate(alloc: Global, line: &str, sink: &mut MemorySink) -> Result<bool, AllocError> {
    let mut shelf = MemoryShelf::new(alloc);
    shelf.add_file("h", MINI.as_bytes())?;
    shelf.add_file("u", POWER.as_bytes())?;
    Ok(status_on(alloc, line, &mut shelf, sink)? == Status::Done)
}

// Whether both are certified by these certificates.
fn are_taken(alloc: Global, host: &[u8], extension: &[u8]) -> Result<bool, AllocError> {
    let mut shelf = MemoryShelf::new(alloc);
    shelf.add_file("h", MINI.as_bytes())?;
    shelf.add_file("t", host)?;
    shelf.add_file("u", POWER.as_bytes())?;
    shelf.add_file("v", extension)?;
    ends_rechecked(alloc, &mut shelf)
}

// Whether a run over the files of a shelf says so.
fn ends_rechecked(alloc: Global, shelf: &mut MemoryShelf) -> Result<bool, AllocError> {
    let mut sink = MemorySink::new(alloc, 1_000, 1_000)?;
    let status = status_on(alloc, "workbench recheck h t u v", shelf, &mut sink)?;
    Ok(
        status == Status::Done
            && sink.bytes() == b"rechecked host mini\nrechecked extension power\n".as_slice(),
    )
}

#[test]
fn what_certificate_writes_is_taken(rt: HostRuntime) {
    expect(&rt, are_written_and_taken(rt.alloc()));
}

#[test]
fn a_read_that_fails_leaves_no_report(rt: HostRuntime) {
    each_read_may_fail(&rt, &TAKEN[3], 4);
}

#[test]
fn a_write_that_fails_leaves_what_was_written_of_the_report(rt: HostRuntime) {
    each_write_may_fail(&rt, &TAKEN[3]);
}
