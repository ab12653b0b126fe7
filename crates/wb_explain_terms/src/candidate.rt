//! Which tokens are tried?
//!
//! Each sort of token once: a name, a number and a string stand for all of theirs.

// The sorts of tokens that are in terms.
#[derive(Clone, Copy)]
pub(crate) enum Candidate {
    // A name.
    Name,
    // A number.
    Number,
    // A string.
    Text,
    // The word for what is true.
    True,
    // The word for what is false.
    False,
    // `(`
    Open,
    // `)`
    Close,
    // `,`
    Comma,
    // `:`
    Colon,
}

// All of them.
pub(crate) static CANDIDATES: [Candidate; 9] = [
    Candidate::Name,
    Candidate::Number,
    Candidate::Text,
    Candidate::True,
    Candidate::False,
    Candidate::Open,
    Candidate::Close,
    Candidate::Comma,
    Candidate::Colon,
];

impl Candidate {
    // The bytes of a token of this sort.
    pub(crate) fn spelled(self) -> &'static [u8] {
        match self {
            Candidate::Name => b"x",
            Candidate::Number => b"0",
            Candidate::Text => b"\"\"",
            Candidate::True => b"true",
            Candidate::False => b"false",
            Candidate::Open => b"(",
            Candidate::Close => b")",
            Candidate::Comma => b",",
            Candidate::Colon => b":",
        }
    }

    // How tokens of this sort are shown.
    pub(crate) fn shown_as(self) -> &'static [u8] {
        match self {
            Candidate::Name => b"a name",
            Candidate::Number => b"a number",
            Candidate::Text => b"a string",
            Candidate::True => b"true",
            Candidate::False => b"false",
            Candidate::Open => b"'('",
            Candidate::Close => b"')'",
            Candidate::Comma => b"','",
            Candidate::Colon => b"':'",
        }
    }
}
