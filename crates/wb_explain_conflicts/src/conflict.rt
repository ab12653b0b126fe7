//! Is a specification refused for a conflict, and what is said of it then?

ghost use Rattle.std.specs.Prelude.{◌≡◌, IfSome, IsNone, OnOk};
ghost use Rattle.wb_certify_files.specs.Hosts.{IsOfText};
ghost use Rattle.wb_certify_files.specs.Kept.{Extends};
ghost use Rattle.wb_certify_files.specs.HostContents.{StandsFor};
ghost use Rattle.wb_certify_files.specs.Numbered.{IsNumbered};
ghost use Rattle.wb_explain_conflicts.specs.Said.{IsBeside, Says, StandsBeside};
ghost use Rattle.wb_explain_conflicts.specs.Inner.Parts.{SaysFound, SaysIn, SaysOf};

use crate::flags::flags_of;
use crate::shown::{Shown, push_found};
use std::alloc::{AllocError, Global};
use wb_base::Grammar;
use wb_certify_files::{
    CertifiedHost, CertifyRefusal, DeterminismRefusal, FileRefusal, HostRefusal, certify_beside,
    certify_resolved, extension_spec, host_of, resolved_extension_of, resolved_host_of,
};
use wb_explain_places::Source;
use wb_explain_readings::{Conflict, Found, Turn, readings};
use wb_lookahead::Action;
use wb_marking_holes::with_holes;
use wb_operations::{Meaning, OperationTable};
use wb_syntax::Spec;
use wb_syntax_resolved::Resolved;

/// Appends what is said of a specification that is refused for a conflict: a text with two trees and both of them, or two texts that begin
/// alike, with a tree of each. Nothing where it is refused for another reason, or not at all, or where no such trees are found.
///
/// The only error is out of memory. No clause bounds the time, but no more than 100,000 pairs of stacks are searched.
pub fn push_conflict<M: Meaning>(
    alloc: Global,
    out: &mut Vec<u8>,
    source: &Source<'_>,
    operations: &OperationTable<M>,
) -> Result<(), AllocError>
    ensures host { IsNone source.now.host → OnOk result (Says (StandsFor source.now.contents.now) out.old.items out.new.items) }
    ensures extension { IfSome source.now.host (λ host. OnOk result (Says (StandsBeside host.now source.now.contents.now) out.old.items out.new.items)) }
{
    match source.host {
        None => push_of_host(alloc, out, source.contents, operations),
        Some(host) => push_of_extension(alloc, out, host, source.contents, operations),
    }
}

// The same for a host.
fn push_of_host<M: Meaning>(
    alloc: Global,
    out: &mut Vec<u8>,
    contents: &[u8],
    operations: &OperationTable<M>,
) -> Result<(), AllocError>
    ensures { OnOk result (Says (StandsFor contents.now) out.old.items out.new.items) }
{
    match resolved_host_of(alloc, contents) {
        Ok(resolved) => {
            let answer = push_resolved(alloc, out, &resolved, operations);
            resolved.release();
            answer
        }
        Err(HostRefusal::NoMemory(error)) => Err(error),
        Err(refusal) => {
            drop(refusal);
            Ok(())
        }
    }
}

// The same for a host by numbers.
fn push_resolved<M: Meaning>(
    alloc: Global,
    out: &mut Vec<u8>,
    resolved: &Resolved,
    operations: &OperationTable<M>,
) -> Result<(), AllocError>
    requires { IsOfText resolved.now }
    ensures { OnOk result (SaysOf resolved.now out.old.items out.new.items) }
{
    match certify_resolved(alloc, resolved, operations) {
        Ok(host) => {
            host.release();
            Ok(())
        }
        Err(refusal) => {
            let answer = push_refusal(alloc, out, resolved, &refusal);
            refusal.release();
            answer
        }
    }
}

// The same for an extension of a host.
fn push_of_extension<M: Meaning>(
    alloc: Global,
    out: &mut Vec<u8>,
    host: &[u8],
    contents: &[u8],
    operations: &OperationTable<M>,
) -> Result<(), AllocError>
    ensures { OnOk result (Says (StandsBeside host.now contents.now) out.old.items out.new.items) }
{
    match host_of(alloc, host, operations) {
        Ok(certified) => {
            let answer = push_beside(alloc, out, &certified, contents, operations);
            certified.release();
            answer
        }
        Err(HostRefusal::NoMemory(error)) => Err(error),
        Err(refusal) => {
            drop(refusal);
            Ok(())
        }
    }
}

// The same for an extension of a certified host.
fn push_beside<M: Meaning>(
    alloc: Global,
    out: &mut Vec<u8>,
    host: &CertifiedHost,
    contents: &[u8],
    operations: &OperationTable<M>,
) -> Result<(), AllocError>
    requires { operations.now.signatures ≡ host.now.operations }
    ensures { OnOk result (Says (IsBeside host.now.resolved contents.now) out.old.items out.new.items) }
{
    match extension_spec(alloc, host, contents) {
        Ok(spec) => {
            let answer = push_spec(alloc, out, host, &spec, operations);
            spec.release();
            answer
        }
        Err(FileRefusal::NoMemory(error)) => Err(error),
        Err(refusal) => {
            drop(refusal);
            Ok(())
        }
    }
}

// The same for the specification of an extension of a certified host.
fn push_spec<M: Meaning>(
    alloc: Global,
    out: &mut Vec<u8>,
    host: &CertifiedHost,
    spec: &Spec,
    operations: &OperationTable<M>,
) -> Result<(), AllocError>
    requires { operations.now.signatures ≡ host.now.operations }
    ensures { OnOk result (Says (IsNumbered host.now.resolved spec.now) out.old.items out.new.items) }
{
    match resolved_extension_of(alloc, host.resolved(), spec) {
        Ok(resolved) => {
            // Some text is the specification.
            spec.items();
            let answer = push_both(alloc, out, host, &resolved, operations);
            resolved.release();
            answer
        }
        Err(FileRefusal::NoMemory(error)) => Err(error),
        Err(refusal) => {
            drop(refusal);
            Ok(())
        }
    }
}

// The same for a certified host with an extension, by numbers.
fn push_both<M: Meaning>(
    alloc: Global,
    out: &mut Vec<u8>,
    host: &CertifiedHost,
    resolved: &Resolved,
    operations: &OperationTable<M>,
) -> Result<(), AllocError>
    requires operations { operations.now.signatures ≡ host.now.operations }
    requires extends { Extends host.now.resolved resolved.now }
    ensures { OnOk result (SaysOf resolved.now out.old.items out.new.items) }
{
    match certify_beside(alloc, host, resolved, operations) {
        Ok(extension) => {
            extension.release();
            Ok(())
        }
        Err(refusal) => {
            let answer = push_refusal(alloc, out, resolved, &refusal);
            refusal.release();
            answer
        }
    }
}

// Appends what is said of a refusal that is for a conflict.
fn push_refusal(
    alloc: Global,
    out: &mut Vec<u8>,
    resolved: &Resolved,
    refusal: &CertifyRefusal,
) -> Result<(), AllocError>
    ensures { OnOk result (SaysOf resolved.now out.old.items out.new.items) }
{
    match refusal {
        CertifyRefusal::Determinism(
            DeterminismRefusal::Conflict {
                prefix,
                terminal,
                first,
                second,
            },
        ) => push_readings(
            alloc,
            out,
            resolved,
            &Conflict {
                prefix: prefix.as_slice(),
                terminal: *terminal,
                first: turn_of(*first),
                second: turn_of(*second),
            },
        ),
        CertifyRefusal::NoMemory(error) => Err(*error),
        _ => Ok(()),
    }
}

// What a parser does, without where a shift leads.
fn turn_of(action: Action) -> Turn {
    match action {
        Action::Shift(_) => Turn::Shift,
        Action::Reduce(production) => Turn::Reduce(production),
        Action::Accept => Turn::Accept,
        Action::None => Turn::Accept,
    }
}

// Appends the trees that show a conflict of the grammar with holes, where they are found.
fn push_readings(
    alloc: Global,
    out: &mut Vec<u8>,
    resolved: &Resolved,
    conflict: &Conflict<'_>,
) -> Result<(), AllocError>
    ensures { OnOk result (SaysOf resolved.now out.old.items out.new.items) }
{
    match &resolved.parts().grammar {
        Some(grammar) => {
            let holes = with_holes(alloc, resolved)?;
            let holed = Holed {
                grammar: &holes,
                productions: grammar.productions(),
            };
            let answer = push_in(alloc, out, resolved, &holed, conflict);
            drop(holes);
            answer
        }
        None => Ok(()),
    }
}

// A grammar with holes, and how many of its productions aren't those of holes.
#[derive(Clone, Copy)]
struct Holed<'a> {
    grammar: &'a Grammar,
    productions: usize,
}

// Appends those of a grammar with holes.
fn push_in(
    alloc: Global,
    out: &mut Vec<u8>,
    resolved: &Resolved,
    holed: &Holed<'_>,
    conflict: &Conflict<'_>,
) -> Result<(), AllocError>
    ensures { OnOk result (SaysIn resolved.now holed.now.grammar.now out.old.items out.new.items) }
{
    match readings(alloc, holed.grammar, holed.productions, conflict)? {
        Some(found) => {
            let few = Few {
                grammar: holed.grammar,
                conflict,
                found: &found,
            };
            let answer = push_few(alloc, out, resolved, &few);
            drop(found);
            answer
        }
        None => Ok(()),
    }
}

// What was found in a grammar of a conflict.
#[derive(Clone, Copy)]
struct Few<'a> {
    grammar: &'a Grammar,
    conflict: &'a Conflict<'a>,
    found: &'a Found,
}

// The most pieces of a tree that is shown.
const MOST: usize = 1_000;

// Appends what was found, where it isn't long.
fn push_few(
    alloc: Global,
    out: &mut Vec<u8>,
    resolved: &Resolved,
    few: &Few<'_>,
) -> Result<(), AllocError>
    ensures { OnOk result (SaysFound resolved.now few.now.found.now out.old.items out.new.items) }
{
    if few.found.first.len() > MOST {
        return Ok(());
    }
    if few.found.second.len() > MOST {
        return Ok(());
    }
    let first = flags_of(alloc, few.grammar, few.conflict, few.found.first.as_slice())?;
    let answer = push_second(alloc, out, resolved, few, &first);
    drop(first);
    answer
}

// The same, where it is known which pieces of the first tree are shown.
fn push_second(
    alloc: Global,
    out: &mut Vec<u8>,
    resolved: &Resolved,
    few: &Few<'_>,
    first: &[bool],
) -> Result<(), AllocError>
    ensures { OnOk result (SaysFound resolved.now few.now.found.now out.old.items out.new.items) }
{
    let second = flags_of(
        alloc,
        few.grammar,
        few.conflict,
        few.found.second.as_slice(),
    )?;
    let shown = Shown {
        found: few.found,
        first,
        second: &second,
    };
    let answer = push_found(alloc, out, resolved, &shown);
    drop(second);
    answer
}
