//! Are the texts of certificates read and printed, and others refused at their first fault?

use std::alloc::{AllocError, Global};
use std::test::Fail;
use wb_recheck_text::{TextRefusal, print_certificate, read_certificate};

// The expected result of reading a text.
#[derive(Clone, Copy, PartialEq, Eq)]
enum Answer {
    // It is read, and printed as it was.
    Same,
    Fault(usize),
    NoMemory,
    Other,
}

// The result of reading a text and printing what was read.
fn answer_of(alloc: Global, text: &[u8]) -> Result<Answer, AllocError> {
    match read_certificate(alloc, text) {
        Ok(certificate) => {
            let mut out = Vec::new(alloc);
            print_certificate(&mut out, &certificate)?;
            if out.as_slice() == text {
                Ok(Answer::Same)
            } else {
                Ok(Answer::Other)
            }
        }
        Err(TextRefusal::Syntax(at)) => Ok(Answer::Fault(at)),
        Err(TextRefusal::NoMemory(_)) => Ok(Answer::NoMemory),
    }
}

// Whether each text gets the expected result in its row.
fn are_answered(alloc: Global, cases: &[(&str, Answer)]) -> Result<bool, AllocError> {
    for (text, wanted) in cases {
        if answer_of(alloc, text.as_bytes())? != *wanted {
            return Ok(false);
        }
    }
    Ok(true)
}

static TEXTS: [(&str, Answer); 5] = [
    ("certificate 1\nhost one\n", Answer::Same),
    (
        "certificate 1\nhost one\nkernel 0 t0\nkernel 0 n0\nlook 0 1 0 1 -\nlook 0 0 0 1 0\nlook 2 1 1 1 0\nlook 1 0 1 1 1\n",
        Answer::Same,
    ),
    (
        "certificate 1\nextension power for mini\nlook 0 1 0 1 -\n",
        Answer::Same,
    ),
    (
        "certificate 1\nhost ends\nkernel 18446744073709551615 t10\n",
        Answer::Same,
    ),
    ("certificate 1\nhost _9\nlook 5 4 3 2 1\n", Answer::Same),
];

#[test]
fn texts_of_certificates_are_read_and_printed(rt: HostRuntime) -> Result<(), Fail> {
    assert!(rt; are_answered(rt.alloc(), &TEXTS)?);
    Ok(())
}

static FAULTS: [(&str, Answer); 17] = [
    ("", Answer::Fault(0)),
    ("certificate 2\n", Answer::Fault(12)),
    ("certificate 1\r\n", Answer::Fault(13)),
    ("certificate 1\nhost one", Answer::Fault(22)),
    ("certificate 1\nhost 1\n", Answer::Fault(19)),
    // A reserved word could go on as a longer name, so the fault is at the LF.
    ("certificate 1\nhost end\n", Answer::Fault(22)),
    ("certificate 1\nextension for for b\n", Answer::Fault(27)),
    ("certificate 1\nhost one\n\n", Answer::Fault(23)),
    ("certificate 1\nhost one\nkernel 00 t0\n", Answer::Fault(31)),
    ("certificate 1\nhost one\nkernel 0  t0\n", Answer::Fault(32)),
    ("certificate 1\nhost one\nkernel 0 x0\n", Answer::Fault(32)),
    ("certificate 1\nhost one\nkernel -1 t0\n", Answer::Fault(30)),
    // The digit that makes the number 2^64 or more.
    (
        "certificate 1\nhost one\nkernel 18446744073709551616 t0\n",
        Answer::Fault(49),
    ),
    (
        "certificate 1\nhost one\nlook 0 1 0 1 -\nkernel 0 t0\n",
        Answer::Fault(38),
    ),
    (
        "certificate 1\nhost one\nlook 0 1 0 1 -1\n",
        Answer::Fault(37),
    ),
    ("certificate 1\nhost one\nlook 0 1 0 1\n", Answer::Fault(35)),
    ("certificate 1\nhost one\nlook 0 1 0 1 0", Answer::Fault(37)),
];

#[test]
fn faults_are_at_the_first_byte_that_cannot_follow(rt: HostRuntime) -> Result<(), Fail> {
    assert!(rt; are_answered(rt.alloc(), &FAULTS)?);
    Ok(())
}
