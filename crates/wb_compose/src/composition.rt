//! Builds the language of a certified host with its certified extensions.

ghost use Rattle.std.specs.Prelude.{◌≡◌, [], All, IfOk, IsSome, map};
ghost use Rattle.wb_base.specs.Different.{Differ};
ghost use Rattle.wb_compose.specs.Composed.{IsComposed, IsWith, name_of};
ghost use Rattle.wb_compose.specs.Local.{HasLocalLookaheads};
ghost use Rattle.wb_syntax_resolved.specs.Resolved.{IsResolved};
ghost use Rattle.wb_compose.specs.Inner.Lending.{IsLentHost};

use crate::additions::additions_of;
use std::alloc::{AllocError, Global};
use wb_certify::{CertifiedExtension, CertifiedHost};
use wb_compose_language::{Addition, Lent, united_language};
use wb_scan::Language;
use wb_syntax_resolved::Resolved;

/// What is composed of a host and extensions.
#[derive(Drop)]
pub struct Composed {
    language: Language,
    withdrawn: Vec<usize>,
}

impl Composed {
    /// The language.
    pub fn language(&self) -> &Language
        ensures { result.now ≡ self.now.language }
    {
        &self.language
    }

    /// The markers without a bare form, by extension and then by number.
    pub fn withdrawn(&self) -> &[usize]
        ensures { result.now ≡ self.now.withdrawn.items }
    {
        &self.withdrawn
    }

    /// Lets go of what was composed. A crate that calls this proves no drop of what it holds.
    pub fn release(self) {
        self.language.release();
    }
}

/// The language of a host and of extensions, each certified with this host over the same operations.
///
/// Terminals are numbered by the host, then by each extension; then come the host's layout and that of each extension. The lookaheads of
/// an item at a kernel are those that it has there in the host by itself or in the host with an extension, all of them taken together where
/// several have the kernel, with all markers in the place of each hole. No clause bounds the time.
pub fn compose(
    alloc: Global,
    host: &CertifiedHost,
    extensions: &[CertifiedExtension],
) -> Result<Composed, AllocError>
    requires each { All (IsWith host.now) extensions.now }
    requires names { Differ (map name_of extensions.now) }
    ensures composed { IfOk result (λ made. IsComposed host.now extensions.now made.language.language made.withdrawn.items) }
    ensures local { IfOk result (λ made. HasLocalLookaheads host.now extensions.now made.language.language) }
{
    by_union(alloc, host, extensions)
}

// The language, by the kernels and lookaheads of the union's grammar.
fn by_union(
    alloc: Global,
    host: &CertifiedHost,
    extensions: &[CertifiedExtension],
) -> Result<Composed, AllocError>
    requires each { All (IsWith host.now) extensions.now }
    requires names { Differ (map name_of extensions.now) }
    ensures { IfOk result (λ made. IsComposed host.now extensions.now made.language.language made.withdrawn.items) }
{
    let additions = additions_of(alloc, extensions)?;
    let lent = lent_of(host.resolved(), &additions);
    let made = united_language(alloc, &lent)?;
    Ok(Composed {
        language: made.language,
        withdrawn: made.withdrawn,
    })
}

/// The language of a certified host alone: what is composed of it and no extensions. No marker is withdrawn there.
pub fn compose_host(alloc: Global, host: &CertifiedHost) -> Result<Composed, AllocError>
    ensures composed { IfOk result (λ made. IsComposed host.now [] made.language.language made.withdrawn.items) }
    ensures none_withdrawn { IfOk result (λ made. made.withdrawn.items ≡ []) }
{
    compose(alloc, host, &[])
}

// What is lent of a host with these extensions.
fn lent_of<'a>(host: &'a Resolved, additions: &'a [Addition<'a>]) -> Lent<'a>
    requires { IsSome host.now.grammar }
    ensures whole { IsResolved host.now }
    ensures lent { IsLentHost host.now additions.now result }
{
    let parts = host.parts();
    match &parts.grammar {
        Some(grammar) => Lent {
            grammar,
            extensible: parts.extensible.as_slice(),
            terminals: parts.terminals.as_slice(),
            preferences: parts.preferences.as_slice(),
            extensions: additions,
        },
        None => unreachable!(),
    }
}
