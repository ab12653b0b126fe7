//! How is a certificate written?

ghost use Rattle.std.specs.Prelude.{◌≡◌, ◌++◌, OnOk};
ghost use Rattle.std.specs.List.{flat_map};
ghost use Rattle.wb_recheck_text.specs.Text.{certificate_text, entry_text, head_text, line_text, name_then, number_then, origin_text, symbol_text};

use crate::{Certificate, Head};
use itoa::Buffer;
use std::alloc::AllocError;
use wb_base::Symbol;
use wb_recheck_theory::{Entry, Line};

/// Appends the text of a certificate.
///
/// If its names are names of specifications, `read_certificate` reads this certificate in it.
#[tactic(auto, using(crate::proofs::PrintLemmas::four))]
pub fn print_certificate(out: &mut Vec<u8>, certificate: &Certificate) -> Result<(), AllocError>
    ensures { OnOk result (out.new.items ≡ out.old.items ++ certificate_text certificate.now) }
{
    out.extend_from_slice(b"certificate 1\n")?;
    push_head(out, &certificate.head)?;
    push_lines(out, certificate.lines.as_slice())?;
    push_entries(out, certificate.entries.as_slice())
}

// Appends the line that says whose certificate it is.
#[tactic(auto, using(crate::proofs::PrintLemmas::two, crate::proofs::PrintLemmas::four))]
fn push_head(out: &mut Vec<u8>, head: &Head) -> Result<(), AllocError>
    ensures { OnOk result (out.new.items ≡ out.old.items ++ head_text head.now) }
{
    match head {
        Head::Host(name) => {
            out.extend_from_slice(b"host ")?;
            push_name(out, name.as_slice(), b'\n')
        }
        Head::Extension(name, host) => {
            out.extend_from_slice(b"extension ")?;
            push_name(out, name.as_slice(), b' ')?;
            out.extend_from_slice(b"for ")?;
            push_name(out, host.as_slice(), b'\n')
        }
    }
}

// Appends the lines of kernels.
fn push_lines(out: &mut Vec<u8>, lines: &[Line]) -> Result<(), AllocError>
    ensures { OnOk result (out.new.items ≡ out.old.items ++ flat_map line_text lines.now) }
{
    'lines: for line in lines {
        push_line(out, line)?;
    }
    Ok(())
}

// Appends the lines of entries.
fn push_entries(out: &mut Vec<u8>, entries: &[Entry]) -> Result<(), AllocError>
    ensures { OnOk result (out.new.items ≡ out.old.items ++ flat_map entry_text entries.now) }
{
    'entries: for entry in entries {
        push_entry(out, entry)?;
    }
    Ok(())
}

// Appends the line of a kernel.
#[tactic(auto, using(crate::proofs::PrintLemmas::three))]
fn push_line(out: &mut Vec<u8>, line: &Line) -> Result<(), AllocError>
    ensures { OnOk result (out.new.items ≡ out.old.items ++ line_text line.now) }
{
    out.extend_from_slice(b"kernel ")?;
    push_number(out, line.from, b' ')?;
    push_symbol(out, line.symbol)
}

// Appends the line of an entry.
#[tactic(auto, using(crate::proofs::PrintLemmas::six))]
fn push_entry(out: &mut Vec<u8>, entry: &Entry) -> Result<(), AllocError>
    ensures { OnOk result (out.new.items ≡ out.old.items ++ entry_text entry.now) }
{
    out.extend_from_slice(b"look ")?;
    push_number(out, entry.kernel, b' ')?;
    push_number(out, entry.item.production, b' ')?;
    push_number(out, entry.item.dot, b' ')?;
    push_number(out, entry.terminal, b' ')?;
    push_origin(out, entry.origin)
}

// Appends a symbol and the end of the line.
#[tactic(auto, using(crate::proofs::PrintLemmas::two))]
fn push_symbol(out: &mut Vec<u8>, symbol: Symbol) -> Result<(), AllocError>
    ensures { OnOk result (out.new.items ≡ out.old.items ++ symbol_text symbol) }
{
    match symbol {
        Symbol::Terminal(terminal) => {
            out.extend_from_slice(b"t")?;
            push_number(out, terminal, b'\n')
        }
        Symbol::Nonterminal(nonterminal) => {
            out.extend_from_slice(b"n")?;
            push_number(out, nonterminal, b'\n')
        }
    }
}

// Appends an origin and the end of the line.
fn push_origin(out: &mut Vec<u8>, origin: Option<usize>) -> Result<(), AllocError>
    ensures { OnOk result (out.new.items ≡ out.old.items ++ origin_text origin) }
{
    match origin {
        Some(place) => push_number(out, place, b'\n'),
        None => out.extend_from_slice(b"-\n"),
    }
}

// Appends a number and the byte after it.
#[tactic(auto, using(crate::proofs::PrintLemmas::two))]
fn push_number(out: &mut Vec<u8>, number: usize, end: u8) -> Result<(), AllocError>
    ensures { OnOk result (out.new.items ≡ out.old.items ++ number_then end number) }
{
    let mut buffer = Buffer::new();
    out.extend_from_slice(buffer.format(number as u64).as_bytes())?;
    out.extend_from_slice(&[end])
}

// Appends a name and the byte after it.
#[tactic(auto, using(crate::proofs::PrintLemmas::two))]
fn push_name(out: &mut Vec<u8>, name: &[u8], end: u8) -> Result<(), AllocError>
    ensures { OnOk result (out.new.items ≡ out.old.items ++ name_then end name.now) }
{
    out.extend_from_slice(name)?;
    out.extend_from_slice(&[end])
}
