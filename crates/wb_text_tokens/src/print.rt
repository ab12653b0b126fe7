//! How an integer and a text are printed.

ghost use Rattle.std.specs.Prelude.{◌≡◌, ◌++◌, is_ok, if◌then◌else◌, OnOk, OnErr, List, ℕ, ◌<◌};
ghost use Rattle.std.specs.Fmt.{digit_glyph, signed_decimal};
ghost use Rattle.std.specs.Prelude.{false};
ghost use Rattle.wb_text_tokens.specs.Printing.{printed_byte, printed_text};
ghost use Rattle.wb_text_tokens.specs.Spelling.{IsToken};
ghost use Rattle.wb_text_tokens.specs.declared.token.Dialect.{Dialect};
ghost use Rattle.wb_text_tokens.specs.declared.token.Token.TheVariants as t;

use itoa::Buffer;
use std::alloc::AllocError;

/// Appends an integer in decimal, with `-` before a negative.
pub fn print_int(out: &mut Vec<u8>, value: i64) -> Result<(), AllocError>
    ensures ok { OnOk result (out.new.items ≡ out.old.items ++ signed_decimal value) }
    ensures token { (dialect : Dialect) → IsToken dialect (t.Int value) (signed_decimal value) }
    ensures err { OnErr result (out.new.items ≡ out.old.items) }
{
    let mut buffer = Buffer::new();
    out.extend_from_slice(buffer.format(value).as_bytes())
}

// A hexadecimal digit in lower case.
fn hex_digit(value: u8) -> u8
    requires { value < 16 }
    ensures { result ≡ digit_glyph false value }
{
    if value < 10 {
        b'0' + value
    } else {
        b'a' + (value - 10)
    }
}

// Appends what stands for the byte in a string.
fn print_byte(out: &mut Vec<u8>, b: u8) -> Result<(), AllocError>
    ensures { out.new.items ≡ (if is_ok result then out.old.items ++ printed_byte b else out.old.items) }
{
    match b {
        b'"' => out.extend_from_slice(b"\\\""),
        b'\\' => out.extend_from_slice(b"\\\\"),
        b'\n' => out.extend_from_slice(b"\\n"),
        b' '..=b'~' => out.extend_from_slice(&[b]),
        _ => out.extend_from_slice(&[b'\\', b'x', hex_digit(b / 16), hex_digit(b % 16)]),
    }
}

// Appends the string of the text.
fn append_text(out: &mut Vec<u8>, text: &[u8]) -> Result<(), AllocError>
    ensures ok { OnOk result (out.new.items ≡ out.old.items ++ printed_text text.now) }
    ensures grown { (added : List ℕ) × (out.new.items ≡ out.old.items ++ added) }
{
    out.extend_from_slice(b"\"")?;
    for b in text {
        print_byte(out, *b)?;
    }
    out.extend_from_slice(b"\"")
}

/// Appends a text as a string, with its quotes.
pub fn print_text(out: &mut Vec<u8>, text: &[u8]) -> Result<(), AllocError>
    ensures ok { OnOk result (out.new.items ≡ out.old.items ++ printed_text text.now) }
    ensures token { (dialect : Dialect) → IsToken dialect (t.Text text.now) (printed_text text.now) }
    ensures err { OnErr result (out.new.items ≡ out.old.items) }
{
    let start = out.len();
    let printed = append_text(out, text);
    if printed.is_err() {
        out.truncate(start);
    }
    printed
}
