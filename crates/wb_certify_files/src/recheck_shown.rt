//! What is shown of a value that isn't certified by a text?
//!
//! A rule is shown by names: those of a host, or of an extension with its host. A fault of the text is shown as it is.

ghost use Rattle.std.specs.Prelude.{◌≡◌, ◌≢◌, IfOk, None};
ghost use Rattle.wb_certify_files.specs.Inner.RecheckShown.{HasLine, IsRuleShown, IsShownAs, line_of, sorted};

use crate::{ContentsRefusal, FileRefusal};
use std::alloc::{AllocError, Global};
use wb_certify_shown::{shown_extension_refusal, shown_refusal};
use wb_recheck::{CertifyRefusal, RecheckRefusal};
use wb_report::{CertificateReason, Refusal};
use wb_syntax_resolved::Resolved;

// Whose value it is: a host's, or that of a host with an extension.
#[derive(Clone, Copy)]
pub(crate) enum Owner {
    Host,
    Extension,
}

// What is shown of a value that isn't certified by a text.
pub(crate) fn shown_value(
    alloc: Global,
    owner: Owner,
    resolved: &Resolved,
    refusal: RecheckRefusal,
) -> ContentsRefusal
    requires { HasLine (line_of owner resolved.now) refusal }
    ensures { IsShownAs (line_of owner resolved.now) refusal result }
{
    match refusal {
        RecheckRefusal::Certify(rule) => {
            let shown = shown_rule(alloc, owner, resolved, &rule);
            rule.release();
            shown
        }
        RecheckRefusal::Syntax(place) => {
            ContentsRefusal::Certificate(CertificateReason::Syntax(place))
        }
        RecheckRefusal::WrongLine(line) => {
            ContentsRefusal::Certificate(CertificateReason::WrongLine(line))
        }
        RecheckRefusal::Missing(kernel) => {
            ContentsRefusal::Certificate(CertificateReason::Missing(kernel))
        }
        RecheckRefusal::NoMemory(error) => ContentsRefusal::File(FileRefusal::NoMemory(error)),
    }
}

// What is shown of a value for which a rule fails.
fn shown_rule(
    alloc: Global,
    owner: Owner,
    resolved: &Resolved,
    rule: &CertifyRefusal,
) -> ContentsRefusal
    requires { line_of owner resolved.now rule.now ≢ None }
    ensures { IsRuleShown (line_of owner resolved.now rule.now) rule.now result }
{
    match rule_line(alloc, owner, resolved, rule) {
        Ok(Some(shown)) => ContentsRefusal::File(of_sort(rule, shown)),
        Ok(None) => unreachable!(),
        Err(error) => ContentsRefusal::File(FileRefusal::NoMemory(error)),
    }
}

// The line of a rule that fails, where it has one.
fn rule_line(
    alloc: Global,
    owner: Owner,
    resolved: &Resolved,
    rule: &CertifyRefusal,
) -> Result<Option<Refusal>, AllocError>
    ensures { IfOk result (λ shown. shown ≡ line_of owner resolved.now rule.now) }
{
    match owner {
        Owner::Host => shown_refusal(alloc, resolved, rule),
        Owner::Extension => shown_extension_refusal(alloc, resolved, rule),
    }
}

// The refusal of a file by a rule, as the sort that the rule is of.
fn of_sort(rule: &CertifyRefusal, shown: Refusal) -> FileRefusal
    ensures { result ≡ sorted rule.now shown }
{
    match rule {
        CertifyRefusal::Types(_) => FileRefusal::Specification(shown),
        _ => FileRefusal::Certification(shown),
    }
}
