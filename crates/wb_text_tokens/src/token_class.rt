//! What the first byte of a token says of it.

ghost use Rattle.std.specs.Prelude.{◌≡◌};
ghost use Rattle.wb_text_tokens.specs.Inner.Longest.{first_class};
ghost use Rattle.wb_base.specs.Identifiers.{is_letter};

/// What a token that begins with a byte can be.
#[derive(Clone, Copy, Debug)]
pub enum TokenClass {
    /// A name or a reserved word.
    Letter,
    /// An integer.
    Number,
    /// A string.
    Quote,
    /// A regular expression.
    Slash,
    /// A punctuation mark, or none.
    Mark,
}

/// Whether the byte is a letter or `_`.
pub fn is_letter(b: u8) -> bool
    ensures { result ≡ is_letter b }
{
    b.is_ascii_alphabetic() || b == b'_'
}

/// What a token that begins with the byte can be.
pub fn first_class(b: u8) -> TokenClass
    ensures { result ≡ first_class b }
{
    if is_letter(b) {
        TokenClass::Letter
    } else if b.is_ascii_digit() || b == b'-' {
        TokenClass::Number
    } else if b == b'"' {
        TokenClass::Quote
    } else if b == b'/' {
        TokenClass::Slash
    } else {
        TokenClass::Mark
    }
}
