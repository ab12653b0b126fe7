//! Are texts divided into the longest tokens, and is nothing else a token?
//!
//! Expected values follow from the rules of tokens.

ghost use Rattle.std.specs.Prelude.{◌≤◌, length};

use itoa::Buffer;
use std::alloc::{AllocError, Global};
use std::test::Fail;
use wb_text_predictive::Next;
use wb_text_tokens::{Dialect, Token, next_token, print_int, print_text};

// Appends a text between two others.
fn append_between(
    out: &mut Vec<u8>,
    before: &[u8],
    text: &[u8],
    after: &[u8],
) -> Result<(), AllocError> {
    out.extend_from_slice(before)?;
    out.extend_from_slice(text)?;
    out.extend_from_slice(after)
}

// Appends a token as it is spelled, a reserved word between `<` and `>`.
fn append_token(out: &mut Vec<u8>, token: &Token) -> Result<(), AllocError> {
    match token {
        Token::Name(name) => out.extend_from_slice(name.as_slice()),
        Token::Word(word) => append_between(out, b"<", word.text(), b">"),
        Token::Int(value) => print_int(out, *value),
        Token::Text(text) => print_text(out, text.as_slice()),
        Token::Regex(body) => append_between(out, b"/", body.as_slice(), b"/"),
        Token::Punctuation(mark) => out.extend_from_slice(mark.text()),
    }
}

// Appends a sign and a position.
fn append_place(out: &mut Vec<u8>, sign: &[u8], at: usize) -> Result<(), AllocError> {
    let mut buffer = Buffer::new();
    out.extend_from_slice(sign)?;
    out.extend_from_slice(buffer.format(at).as_bytes())
}

// Appends a token with its position.
fn append_placed(out: &mut Vec<u8>, token: &Token, at: usize) -> Result<(), AllocError> {
    append_token(out, token)?;
    append_place(out, b"@", at)?;
    out.extend_from_slice(b" ")
}

// Appends how a text ends, where nothing follows.
fn append_end(out: &mut Vec<u8>, sign: &[u8], at: usize) -> Result<Option<usize>, AllocError> {
    append_place(out, sign, at)?;
    Ok(None)
}

// Appends what is next in a text, and returns where it ends if it is a token.
fn append_next(
    alloc: Global,
    text: &[u8],
    from: usize,
    dialect: Dialect,
    out: &mut Vec<u8>,
) -> Result<Option<usize>, AllocError>
    requires { from ≤ length text.now }
{
    match next_token(alloc, text, from, dialect)? {
        Next::Found(found) => {
            append_placed(out, &found.token, found.at)?;
            Ok(Some(found.end))
        }
        Next::End { at } => append_end(out, b"$", at),
        Next::NoToken { at } => append_end(out, b"!", at),
    }
}

// Appends each token with its position after `@`, then `$` with the length, or `!` with the position where no token begins.
fn append_all(
    alloc: Global,
    text: &[u8],
    dialect: Dialect,
    out: &mut Vec<u8>,
) -> Result<(), AllocError> {
    let mut from = 0;
    for _ in 0..=text.len() {
        if from > text.len() {
            return Ok(());
        }
        match append_next(alloc, text, from, dialect, out)? {
            Some(end) => from = end,
            None => return Ok(()),
        }
    }
    Ok(())
}

// Whether the tokens of a text are shown as this text.
fn is_shown(
    alloc: Global,
    text: &[u8],
    dialect: Dialect,
    tokens: &[u8],
) -> Result<bool, AllocError> {
    let mut out = Vec::new(alloc);
    append_all(alloc, text, dialect, &mut out)?;
    Ok(out.as_slice() == tokens)
}

// Whether the tokens of each text are shown as its row says.
fn are_shown(alloc: Global, cases: &[(&str, &str)], dialect: Dialect) -> Result<bool, AllocError> {
    for (text, tokens) in cases {
        if !is_shown(alloc, text.as_bytes(), dialect, tokens.as_bytes())? {
            return Ok(false);
        }
    }
    Ok(true)
}

static NAMES: [(&str, &str); 6] = [
    ("format 1;", "<format>@0 1@7 ;@8 $9"),
    (
        "formatx format_ _ f0rmat",
        "formatx@0 format_@8 _@16 f0rmat@18 $24",
    ),
    ("true truex top", "<true>@0 truex@5 <top>@11 $14"),
    ("a::=b", "a@0 ::=@1 b@4 $5"),
    ("a::b:= ", "a@0 :@1 :@2 b@3 :@4 =@5 $7"),
    (
        ";:::={}=.,()@",
        ";@0 :@1 ::=@2 {@5 }@6 =@7 .@8 ,@9 (@10 )@11 @@12 $13",
    ),
];

#[test]
fn names_and_marks_go_on_as_long_as_they_can(rt: HostRuntime) -> Result<(), Fail> {
    assert!(rt; are_shown(rt.alloc(), &NAMES, Dialect::FormatOne)?);
    Ok(())
}

static CLOSED: [(Dialect, &str); 3] = [
    (Dialect::Terms, "closed@0 closedx@7 <start>@15 $20"),
    (Dialect::FormatOne, "closed@0 closedx@7 <start>@15 $20"),
    (Dialect::FormatTwo, "<closed>@0 closedx@7 <start>@15 $20"),
];

// Whether the words of each dialect are shown as its row says.
fn are_words_shown(alloc: Global) -> Result<bool, AllocError> {
    for (dialect, tokens) in &CLOSED {
        if !is_shown(alloc, b"closed closedx start", *dialect, tokens.as_bytes())? {
            return Ok(false);
        }
    }
    Ok(true)
}

#[test]
fn closed_is_a_word_of_format_2_alone(rt: HostRuntime) -> Result<(), Fail> {
    assert!(rt; are_words_shown(rt.alloc())?);
    Ok(())
}

static INTEGERS: [(&str, &str); 8] = [
    (
        "9223372036854775807 -9223372036854775808",
        "9223372036854775807@0 -9223372036854775808@20 $40",
    ),
    ("1 9223372036854775808", "1@0 !2"),
    ("-9223372036854775809", "!0"),
    ("99999999999999999999", "!0"),
    ("007 -0 1a 2-3", "7@0 0@4 1@7 a@8 2@10 -3@11 $13"),
    ("--1", "!0"),
    ("- 1", "!0"),
    ("a-", "a@0 !1"),
];

#[test]
fn integers_out_of_range_are_no_tokens(rt: HostRuntime) -> Result<(), Fail> {
    assert!(rt; are_shown(rt.alloc(), &INTEGERS, Dialect::FormatOne)?);
    Ok(())
}

static STRINGS: [(&str, &str); 8] = [
    ("\"\" \"x\"", "\"\"@0 \"x\"@3 $6"),
    (
        "\"a\\\"b\\\\\\n\\t\\r\\x41\\xfF\"",
        "\"a\\\"b\\\\\\n\\x09\\x0dA\\xff\"@0 $22",
    ),
    ("\"abc", "!0"),
    ("\"a\nb\"", "!0"),
    ("\"\\q\"", "!0"),
    ("\"\\x4\"", "!0"),
    ("\"\\x4g\"", "!0"),
    ("\"\\", "!0"),
];

#[test]
fn strings_stand_for_their_text(rt: HostRuntime) -> Result<(), Fail> {
    assert!(rt; are_shown(rt.alloc(), &STRINGS, Dialect::FormatOne)?);
    Ok(())
}

static REGULAR_EXPRESSIONS: [(&str, &str); 6] = [
    (
        "/a|b/ /\\// /[^\\\\]+/",
        "/a|b/@0 /\\//@6 /[^\\\\]+/@11 $19",
    ),
    ("/a", "!0"),
    ("/a\n/", "!0"),
    ("/\\\n/", "!0"),
    ("/\\", "!0"),
    ("a /", "a@0 !2"),
];

#[test]
fn regular_expressions_keep_their_bytes(rt: HostRuntime) -> Result<(), Fail> {
    assert!(rt; are_shown(rt.alloc(), &REGULAR_EXPRESSIONS, Dialect::FormatOne)?);
    Ok(())
}

static LAYOUT: [(&str, &str); 10] = [
    ("a // b\nc", "a@0 c@7 $8"),
    ("a//b", "a@0 $4"),
    ("// x\n// y", "$9"),
    ("//", "$2"),
    (" \t\n\r", "$4"),
    ("", "$0"),
    ("\x0b", "!0"),
    ("#", "!0"),
    ("a\0", "a@0 !1"),
    ("\u{e9}", "!0"),
];

#[test]
fn layout_goes_to_the_next_token(rt: HostRuntime) -> Result<(), Fail> {
    assert!(rt; are_shown(rt.alloc(), &LAYOUT, Dialect::FormatOne)?);
    Ok(())
}

static COMMENTS: [(&str, &str); 3] = [
    ("a // b", "a@0 !2"),
    ("/a/ //", "/a/@0 !4"),
    ("f ( )\n", "f@0 (@2 )@4 $6"),
];

#[test]
fn comments_are_no_layout_in_plain_texts(rt: HostRuntime) -> Result<(), Fail> {
    assert!(rt; are_shown(rt.alloc(), &COMMENTS, Dialect::Terms)?);
    Ok(())
}

#[test]
fn reserved_words_are_no_names(rt: HostRuntime) -> Result<(), Fail> {
    let text =
        "abstract aspect bool concrete else end extensible extension false for format forward \
        forwards host if ignore inh int lexeme local marking needs nonterminal occurs on \
        over prefer start syn terminal text then to top true";
    let shown =
        "<abstract>@0 <aspect>@9 <bool>@16 <concrete>@21 <else>@30 <end>@35 <extensible>@39 \
        <extension>@50 <false>@60 <for>@66 <format>@70 <forward>@77 <forwards>@85 <host>@94 \
        <if>@99 <ignore>@102 <inh>@109 <int>@113 <lexeme>@117 <local>@124 <marking>@130 \
        <needs>@138 <nonterminal>@144 <occurs>@156 <on>@163 <over>@166 <prefer>@171 \
        <start>@178 <syn>@184 <terminal>@188 <text>@197 <then>@202 <to>@207 <top>@210 \
        <true>@214 $218";
    assert!(rt;
        is_shown(
            rt.alloc(),
            text.as_bytes(),
            Dialect::Terms,
            shown.as_bytes()
        )?
    );
    Ok(())
}
