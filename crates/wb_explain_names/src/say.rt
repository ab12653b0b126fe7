//! What is said of a name for which a specification is refused? It is put together, and shown.

ghost use Rattle.std.specs.Prelude.{[], IfOk, OnOk, MatchOption};
ghost use lib.Chars.{codes};
ghost use Rattle.wb_explain_names.specs.Said.{Says};
ghost use Rattle.wb_explain_names.specs.Inner.Shown.{AreOf};

use crate::host_name::say_host_name;
use crate::hosts::say_hosts;
use crate::kinds::say_kinds;
use crate::marked::{say_marker, say_not_extensible, say_unmarked};
use crate::show::push_script;
use crate::twice::say_twice;
use crate::unknown::say_unknown;
use std::alloc::{AllocError, Global};
use wb_explain_names_roles::mention::mentions_of;
use wb_explain_names_roles::script::{Script, nothing};
use wb_explain_names_roles::side::{Side, Sides};
use wb_explain_places::Source;
use wb_operations::OperationSignatures;
use wb_reader_places::{TokenPlace, dialect_of, tokens_of};

/// Appends what is said of a name for which a specification is refused: for the codes N1 to N4 and E1 to E3, and for `N5` of an extension
/// that is for another host than the one that is named.
///
/// The name is that of the line, without an extension and a colon before it. Each place that is shown is one at which a token of the file, or
/// of its host, is the name. Nothing is appended for another code, or where nothing is found. The only error is out of memory. The time is
/// linear in both files, times at most some hundreds where the name has many uses.
pub fn push_names<'a>(
    alloc: Global,
    out: &mut Vec<u8>,
    source: &Source<'a>,
    code: &[u8],
    name: &'a [u8],
    operations: &OperationSignatures,
) -> Result<(), AllocError>
    ensures { OnOk result (MatchOption source.now.host
        (Says source.now.file.now source.now.contents.now (codes "the host") [] name.now out.old.items out.new.items)
        (λ host. Says source.now.file.now source.now.contents.now (codes "the host") host.now name.now out.old.items out.new.items)) }
{
    let own = Side {
        file: source.file.as_bytes(),
        text: source.contents,
        tokens: &[],
        mentions: &[],
    };
    match source.host {
        Some(host) => {
            let beside = Side {
                file: b"the host",
                text: host,
                tokens: &[],
                mentions: &[],
            };
            let sides = Sides {
                own,
                host: beside,
                has_host: true,
                name,
            };
            push_asked(alloc, out, &sides, code, operations)?;
            Ok(())
        }
        None => {
            let sides = Sides {
                own,
                host: Side {
                    file: b"the host",
                    text: &[],
                    tokens: &[],
                    mentions: &[],
                },
                has_host: false,
                name,
            };
            push_asked(alloc, out, &sides, code, operations)?;
            Ok(())
        }
    }
}

// Appends what is said, where no token is known yet.
fn push_asked(
    alloc: Global,
    out: &mut Vec<u8>,
    sides: &Sides<'_>,
    code: &[u8],
    operations: &OperationSignatures,
) -> Result<(), AllocError>
    ensures { OnOk result (Says sides.now.own.file.now sides.now.own.text.now sides.now.host.file.now sides.now.host.text.now
        sides.now.name.now out.old.items out.new.items) }
{
    let tokens = text_tokens(alloc, sides.own.text)?;
    let own = Side {
        file: sides.own.file,
        text: sides.own.text,
        tokens: &tokens,
        mentions: &[],
    };
    let known = Sides {
        own,
        host: sides.host,
        has_host: sides.has_host,
        name: sides.name,
    };
    let answer = push_with_tokens(alloc, out, &known, code, operations);
    drop(tokens);
    answer
}

// Appends what is said, where the tokens of the file are known.
fn push_with_tokens(
    alloc: Global,
    out: &mut Vec<u8>,
    sides: &Sides<'_>,
    code: &[u8],
    operations: &OperationSignatures,
) -> Result<(), AllocError>
    requires { AreOf sides.now.own.text.now sides.now.own.tokens.now }
    ensures { OnOk result (Says sides.now.own.file.now sides.now.own.text.now sides.now.host.file.now sides.now.host.text.now
        sides.now.name.now out.old.items out.new.items) }
{
    let tokens = text_tokens(alloc, sides.host.text)?;
    let host = Side {
        file: sides.host.file,
        text: sides.host.text,
        tokens: &tokens,
        mentions: &[],
    };
    let known = Sides {
        own: sides.own,
        host,
        has_host: sides.has_host,
        name: sides.name,
    };
    let answer = push_with_both(alloc, out, &known, code, operations);
    drop(tokens);
    answer
}

// Appends what is said, where the tokens of both files are known.
fn push_with_both(
    alloc: Global,
    out: &mut Vec<u8>,
    sides: &Sides<'_>,
    code: &[u8],
    operations: &OperationSignatures,
) -> Result<(), AllocError>
    requires own { AreOf sides.now.own.text.now sides.now.own.tokens.now }
    requires host { AreOf sides.now.host.text.now sides.now.host.tokens.now }
    ensures { OnOk result (Says sides.now.own.file.now sides.now.own.text.now sides.now.host.file.now sides.now.host.text.now
        sides.now.name.now out.old.items out.new.items) }
{
    let script = script_of(alloc, sides, code, operations)?;
    let answer = push_script(out, sides, &script.words, &script.places);
    drop(script);
    answer
}

// What is to be said, where the tokens of both files are known.
fn script_of(
    alloc: Global,
    sides: &Sides<'_>,
    code: &[u8],
    operations: &OperationSignatures,
) -> Result<Script, AllocError> {
    let mut script = nothing(alloc);
    match write_script(alloc, &mut script, sides, code, operations) {
        Ok(()) => Ok(script),
        Err(error) => {
            drop(script);
            Err(error)
        }
    }
}

// Puts together what is to be said, with the names of the file.
fn write_script(
    alloc: Global,
    script: &mut Script,
    sides: &Sides<'_>,
    code: &[u8],
    operations: &OperationSignatures,
) -> Result<(), AllocError> {
    let mentions = mentions_of(alloc, sides.own.tokens)?;
    let own = Side {
        file: sides.own.file,
        text: sides.own.text,
        tokens: sides.own.tokens,
        mentions: &mentions,
    };
    let known = Sides {
        own,
        host: sides.host,
        has_host: sides.has_host,
        name: sides.name,
    };
    let answer = write_with_own(alloc, script, &known, code, operations);
    drop(mentions);
    answer
}

// Puts it together, with the names of the host.
fn write_with_own(
    alloc: Global,
    script: &mut Script,
    sides: &Sides<'_>,
    code: &[u8],
    operations: &OperationSignatures,
) -> Result<(), AllocError> {
    let mentions = mentions_of(alloc, sides.host.tokens)?;
    let host = Side {
        file: sides.host.file,
        text: sides.host.text,
        tokens: sides.host.tokens,
        mentions: &mentions,
    };
    let known = Sides {
        own: sides.own,
        host,
        has_host: sides.has_host,
        name: sides.name,
    };
    let answer = say_code(script, &known, code, operations);
    drop(mentions);
    answer
}

// Puts together what is said of a code.
fn say_code(
    script: &mut Script,
    sides: &Sides<'_>,
    code: &[u8],
    operations: &OperationSignatures,
) -> Result<(), AllocError> {
    match code {
        b"N1" => say_unknown(script, sides, operations),
        b"N2" => say_twice(script, sides),
        b"N3" => say_hosts(script, sides),
        b"N4" => say_kinds(script, sides),
        b"N5" => say_host_name(script, sides),
        b"E1" => say_unmarked(script, sides),
        b"E2" => say_marker(script, sides),
        b"E3" => say_not_extensible(script, sides),
        _ => Ok(()),
    }
}

// The tokens of a text, as those of a specification.
fn text_tokens(alloc: Global, text: &[u8]) -> Result<Vec<TokenPlace>, AllocError>
    ensures { IfOk result (λ places. AreOf text.now places.items) }
{
    let dialect = dialect_of(alloc, text)?;
    let places = tokens_of(alloc, text, dialect)?;
    Ok(places)
}
