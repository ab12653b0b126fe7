//! Which expression is each text read as? Expected answers were worked out from the grammar, by hand and by an independent reader.
//!
//! An expression is shown by its nodes in order: a set by its ranges in hexadecimal, a sequence by `.`, and others by their own sign.

ghost use Rattle.std.specs.Prelude.{◌<◌};

use crate::holds;
use std::alloc::{AllocError, Global};
use wb_base::push;
use wb_regex::{Regex, RegexNode, RegexRefusal, read_regex};

const DIGITS: &[u8; 16] = b"0123456789abcdef";

// Shows a byte after a sign.
fn show_byte(sign: u8, byte: usize, shown: &mut Vec<u8>) -> Result<(), AllocError>
    requires { byte < 256 }
{
    shown.extend_from_slice(&[sign, DIGITS[byte / 16], DIGITS[byte % 16]])
}

// Whether a byte is in the set.
fn has_byte(words: &[u64; 4], byte: usize) -> bool {
    byte < 256 && words[byte / 64] >> (byte % 64) & 1 == 1
}

// Shows a set, which is never empty.
fn show_set(words: &[u64; 4], shown: &mut Vec<u8>) -> Result<(), AllocError> {
    let mut sign = b'<';
    for byte in 0..256usize {
        if has_byte(words, byte) {
            if byte == 0 || !has_byte(words, byte - 1) {
                show_byte(sign, byte, shown)?;
                sign = b',';
            } else if !has_byte(words, byte + 1) {
                show_byte(b'-', byte, shown)?;
            }
        }
    }
    push(shown, b'>')
}

// Shows nodes.
fn show(nodes: &[RegexNode], shown: &mut Vec<u8>) -> Result<(), AllocError> {
    for node in nodes {
        let sign = match node {
            RegexNode::Set(words) => {
                show_set(words, shown)?;
                continue;
            }
            RegexNode::Sequence(_, _) => b'.',
            RegexNode::Choice(_, _) => b'|',
            RegexNode::Star(_) => b'*',
            RegexNode::Plus(_) => b'+',
            RegexNode::Maybe(_) => b'?',
        };
        push(shown, sign)?;
    }
    Ok(())
}

// Whether nodes are shown as this text.
fn are_shown(alloc: Global, nodes: &[RegexNode], wanted: &[u8]) -> Result<bool, AllocError> {
    let mut shown = Vec::new(alloc);
    show(nodes, &mut shown)?;
    Ok(shown.as_slice() == wanted)
}

// Whether a refusal at this offset is expected.
fn is_bad(alloc: Global, offset: usize, wanted: &[u8]) -> Result<bool, AllocError> {
    Ok(format!(in alloc; "bad {offset}")?.as_bytes() == wanted)
}

// Whether the answer to a text is the expected one.
fn is_answer(alloc: Global, text: &[u8], wanted: &[u8]) -> Result<bool, AllocError> {
    match read_regex(alloc, text) {
        Ok(regex) => are_shown(alloc, regex.nodes(), wanted),
        Err(RegexRefusal::Bad(offset)) => is_bad(alloc, offset, wanted),
        Err(RegexRefusal::MatchesEmpty) => Ok(wanted == b"empty".as_slice()),
        Err(RegexRefusal::NoMemory(error)) => Err(error),
    }
}

// Whether the text of each line gets its expected answer.
fn are_answers(alloc: Global, lines: &str) -> Result<bool, AllocError> {
    for line in lines.lines() {
        let Some((text, wanted)) = line.split_once(" => ") else {
            return Ok(false);
        };
        if !is_answer(alloc, text.as_bytes(), wanted.as_bytes())? {
            return Ok(false);
        }
    }
    Ok(true)
}

// Lines with a text, ` => ` and what the text is read as.
static TABLES: [&str; 8] = [
    // A byte without a meaning is a literal.
    r#"a => <61>
- => <2d>
^ => <5e>
ab => <61><62>.
abc => <61><62>.<63>.
  => <20>
" => <22>
{} => <7b><7d>.
~ => <7e>
é => <c3><a9>.
/ => bad 0
a/b => bad 1
] => bad 0
a] => bad 1"#,
    // Each escape is its byte.
    r#"\n => <0a>
\r => <0d>
\t => <09>
\x41 => <41>
\xfF => <ff>
\x00 => <00>
\\ => <5c>
\/ => <2f>
\. => <2e>
\[ => <5b>
\] => <5d>
\- => <2d>
\^ => <5e>
\| => <7c>
\* => <2a>
\  => <20>
\" => <22>
\_ => <5f>"#,
    // A malformed escape is refused at its backslash.
    r#"\ => bad 0
a\ => bad 1
\x => bad 0
\x4 => bad 0
ab\x4 => bad 2
\x4g => bad 0
\xg4 => bad 0
\q => bad 0
a\N => bad 1
\7 => bad 0
(\x4) => bad 1
[\ => bad 1
[a\z] => bad 2
[a-\x4 => bad 3
a|\b => bad 2
*\q => bad 0"#,
    // Marks bind tighter than sequences, and these tighter than alternatives. Both associate to the left.
    r#"a|b => <61><62>|
ab|cd => <61><62>.<63><64>.|
a|b|c => <61><62>|<63>|
abc|d => <61><62>.<63>.<64>|
a*b => <61>*<62>.
ab* => <61><62>*.
ab+c? => <61><62>+.<63>?.
a|b* => empty
(a|b)c => <61><62>|<63>.
a(b|c) => <61><62><63>|.
(ab)*c => <61><62>.*<63>.
((a)) => <61>
(a) => <61>
a**b => <61>**<62>.
a*+b => <61>*+<62>.
a+?b => <61>+?<62>.
a?*b => <61>?*<62>.
a|b|cd*e => <61><62>|<63><64>*.<65>.|
(a|b|c)(d) => <61><62>|<63>|<64>.
. => <00-09,0b-ff>
.a => <00-09,0b-ff><61>.
a.*b => <61><00-09,0b-ff>*.<62>.
a\* => <61><2a>."#,
    // A part is missing, or there is one too many.
    r#" => bad 0
| => bad 0
a| => bad 2
|a => bad 0
a||b => bad 2
( => bad 1
() => bad 1
(a => bad 2
(a| => bad 3
(|a) => bad 1
(a|) => bad 3
) => bad 0
a) => bad 1
a)b => bad 1
(a)) => bad 3
((a) => bad 4
* => bad 0
+a => bad 0
? => bad 0
a|* => bad 2
(*a) => bad 1
a(+) => bad 2"#,
    // A class has the bytes of its members.
    r#"[a] => <61>
[ab] => <61-62>
[a-z] => <61-7a>
[a-cx-z] => <61-63,78-7a>
[a-a] => <61>
[^a] => <00-60,62-ff>
[^a-z] => <00-60,7b-ff>
[^\n] => <00-09,0b-ff>
[a^] => <5e,61>
[^^] => <00-5d,5f-ff>
[\^a] => <5e,61>
[[] => <5b>
[.|*+?()] => <28-2b,2e,3f,7c>
[\]] => <5d>
[\-] => <2d>
[\x00-\x1f] => <00-1f>
[\x00-\xff] => <00-ff>
[^\x00-\xfe] => <ff>
[a-\x7a] => <61-7a>
[\-\-\-] => <2d>
[a]b => <61><62>.
[a]*b => <61>*<62>.
([a]|[b])+ => <61><62>|+
[a-c-] => bad 4
[a-cb-d] => <61-64>
[\/] => <2f>
[^-a] => bad 2
[+-\-] => <2b-2d>
[ -~] => <20-7e>"#,
    // A class is refused at its first fault.
    r#"[ => bad 1
[] => bad 1
[^ => bad 2
[^] => bad 2
[a => bad 2
[a- => bad 3
[a-] => bad 3
[b-a] => bad 3
[a-b-c] => bad 4
[-a] => bad 1
[a--] => bad 3
[a/] => bad 2
[/] => bad 1
[a-/] => bad 3
[\x00-\xff => bad 10
[^\x00-\xff] => bad 11
[^\x00-\xff => bad 11
[^\x00-\xffa => bad 12
[^\x00-\xff]a => bad 11
[^\x00-\x7f\x80-\xff] => bad 20
[^\x00-\xff-] => bad 11
([^\x00-\xff]) => bad 12
[a]] => bad 3
[a-[] => bad 3
[a-b-] => bad 4
[^^-] => bad 4"#,
    // An expression that matches the empty text is refused as a whole.
    r#"a* => empty
a? => empty
a*b* => empty
a*|b => empty
b|a* => empty
(a*)+ => empty
a** => empty
a+? => empty
(a|b?) => empty
((a)*) => empty
a?b?c? => empty
.* => empty
[a]? => empty
(a?)(b*) => empty"#,
];

// Whether the lines of each table get their expected answers, and so does the end of a line.
fn are_tables_right(alloc: Global, tables: &[&str]) -> Result<bool, AllocError> {
    for lines in tables {
        if !are_answers(alloc, lines)? {
            return Ok(false);
        }
    }
    is_answer(alloc, b"\n", b"<0a>")
}

#[test]
fn texts_are_read_by_the_grammar(rt: HostRuntime) {
    assert!(rt; holds(are_tables_right(rt.alloc(), &TABLES)));
}

fn push_many(text: &mut Vec<u8>, byte: u8) -> Result<(), AllocError> {
    for _ in 0..500_000u32 {
        push(text, byte)?;
    }
    Ok(())
}

fn push_deep(text: &mut Vec<u8>, first: u8, last: u8) -> Result<(), AllocError> {
    push_many(text, first)?;
    push(text, b'a')?;
    push_many(text, last)
}

// Whether many bytes, then another one, and then as many again get the expected answer.
fn is_repeated(alloc: Global, first: u8, last: u8, wanted: &[u8]) -> Result<bool, AllocError> {
    let mut text = Vec::new(alloc);
    push_deep(&mut text, first, last)?;
    is_answer(alloc, &text, wanted)
}

#[test]
fn deep_groups_take_no_stack(rt: HostRuntime) {
    assert!(rt; holds(is_repeated(rt.alloc(), b'(', b')', b"<61>")));
    assert!(rt; holds(is_repeated(rt.alloc(), b'(', b'(', b"bad 1000001")));
}

// Whether a copy has the same nodes.
fn is_copied(regex: &Regex) -> Result<bool, AllocError> {
    Ok(regex.copy()?.nodes() == regex.nodes())
}

// Whether an expression of five nodes is copied.
fn are_five_copied(alloc: Global) -> Result<bool, RegexRefusal> {
    let regex = read_regex(alloc, b"[0-9]+x?")?;
    Ok(regex.nodes().len() == 5 && is_copied(&regex)?)
}

#[test]
fn an_equal_expression_is_copied(rt: HostRuntime) {
    assert!(rt; holds(are_five_copied(rt.alloc())));
}

// Whether an expression after a prefix, which isn't empty, is shown as this text.
fn is_prefixed(
    alloc: Global,
    regex: &Regex,
    prefix: &[u8],
    wanted: &[u8],
) -> Result<bool, AllocError> {
    Ok(!prefix.is_empty() && are_shown(alloc, regex.prefixed(prefix)?.nodes(), wanted)?)
}

// Whether the expression of a text after a prefix is shown as this text.
fn is_behind(
    alloc: Global,
    prefix: &[u8],
    text: &[u8],
    wanted: &[u8],
) -> Result<bool, RegexRefusal> {
    let regex = read_regex(alloc, text)?;
    Ok(is_prefixed(alloc, &regex, prefix, wanted)?)
}

static BEHIND: [(&[u8], &[u8], &[u8]); 3] = [
    (b"a", b"b", b"<61><62>."),
    (b"e::", b"x", b"<65><3a>.<3a>.<78>."),
    (b"a", b"(b|c*)d?e", b"<61><62><63>*|<64>?.<65>.."),
];

// Whether the second text of each row after the first is shown as the third.
fn are_behind(alloc: Global, rows: &[(&[u8], &[u8], &[u8])]) -> Result<bool, RegexRefusal> {
    for (prefix, text, wanted) in rows {
        if !is_behind(alloc, prefix, text, wanted)? {
            return Ok(false);
        }
    }
    Ok(true)
}

#[test]
fn an_expression_is_put_behind_a_prefix(rt: HostRuntime) {
    assert!(rt; holds(are_behind(rt.alloc(), &BEHIND)));
}
