//! What is the canonical text of a specification?
//!
//! Its format, its header and each item on a line of its own. Which text is canonical is in `wb_syntax/specs/Canonical.antt`.

ghost use Rattle.std.specs.Prelude.{◌≡◌, List, OnOk, IfOk};
ghost use Rattle.wb_text_tokens.specs.declared.token.Token.{Token};
ghost use Rattle.wb_syntax.specs.SpecText.{SpecView, HasText};
ghost use Rattle.wb_syntax.specs.Offsets.{AreSameButPlaces, ReadsBack};
ghost use Rattle.wb_syntax.specs.Canonical.{IsCanonical};
ghost use Rattle.wb_reader_printer.specs.Inner.Output.{after, after_lines, ended};
ghost use Rattle.wb_reader_printer.specs.Inner.ItemTokens.{format_tokens, header_tokens, headed, AreLinesOf};

use crate::items::{write_item, write_named, write_pair};
use crate::line::Line;
use std::alloc::{AllocError, Global};
use wb_syntax::{Header, Item, Pattern, Spec};
use wb_text_tokens::{Punctuation, Word};

/// The canonical text of a specification.
///
/// The text reads back as the same specification but for places, where it isn't too long for a file, and is the canonical text of
/// each such specification. An absent `needs` stays absent, and a regular expression keeps its bytes. No clause bounds the work: it is
/// linear in the text, and nothing recurses.
pub fn print_spec(alloc: Global, spec: &Spec) -> Result<Vec<u8>, AllocError>
    ensures canonical { IfOk result (λ text. IsCanonical spec.now text.items) }
    ensures reads { IfOk result (λ text. ReadsBack spec.now text.items) }
    ensures again { IfOk result (λ text.
        (other : SpecView) → AreSameButPlaces other spec.now → IsCanonical other text.items) }
{
    let mut line = Line::new(Vec::new(alloc));
    write_spec(alloc, &mut line, spec)?;
    Ok(line.into_text())
}

// Writes the format, the header and the items, each on a line of its own.
fn write_spec(alloc: Global, line: &mut Line, spec: &Spec) -> Result<(), AllocError>
    ensures text { HasText spec.now }
    ensures written { OnOk result ((lines : List (List Token)) → AreLinesOf spec.now.items lines
        → line.new ≡ after_lines (headed spec.now line.old) lines) }
{
    let items = spec.items();
    write_format(line, spec.format())?;
    write_header(line, spec.name(), spec.header())?;
    line.end()?;
    write_items(alloc, line, items)
}

// Writes the number of the format, on a line of its own.
fn write_format(line: &mut Line, format: u32) -> Result<(), AllocError>
    ensures { OnOk result (line.new ≡ ended (after line.old (format_tokens format))) }
{
    line.word(Word::Format)?;
    line.int(i64::from(format))?;
    line.mark(Punctuation::Semicolon)?;
    line.end()
}

// Writes the header.
fn write_header(line: &mut Line, name: &[u8], header: &Header) -> Result<(), AllocError>
    ensures { OnOk result (line.new ≡ after line.old (header_tokens name.now header.now)) }
{
    match header {
        Header::Host => write_named(line, Word::Host, name),
        Header::Extension { host } => {
            write_pair(line, Word::Extension, name, Word::For, host.as_slice())
        }
    }
}

// Writes items, each on a line of its own.
fn write_items(alloc: Global, line: &mut Line, items: &[Item<Pattern>]) -> Result<(), AllocError>
    requires { (lines : List (List Token)) × AreLinesOf items.now lines }
    ensures { OnOk result ((lines : List (List Token)) → AreLinesOf items.now lines → line.new ≡ after_lines line.old lines) }
{
    'items: for item in items {
        write_item(alloc, line, item)?;
        line.end()?;
    }
    Ok(())
}
