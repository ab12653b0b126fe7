//! Finds what a certified extension adds to its host: its grammar with holes, its numbers, what terminals stand for, and its new kernels.

ghost use Rattle.std.specs.Prelude.{◌≡◌, ◌≤◌, All, IfOk, length};
ghost use Rattle.std.specs.List.{AllZip};
ghost use Rattle.wb_compose.specs.Composed.{IsWith};
ghost use Rattle.wb_compose_kernels.specs.Lent.{numbers_of};
ghost use Rattle.wb_determinism_kernels.specs.NewKernels.{AreNewKernels};
ghost use Rattle.wb_tests_unions.specs.Inner.Found.{AreBoth, AreFor, IsFoundBeside, IsFoundIn, IsOwn, kernels_in};

use crate::images::images_of;
use std::alloc::{AllocError, Global};
use wb_base::{Grammar, push};
use wb_certify::{CertifiedExtension, CertifiedHost, certified_both};
use wb_determinism_kernels::{Added, Beside, NewKernels, Numbers};
use wb_items::production_numbers;
use wb_marking_holes::with_holes;
use wb_syntax_resolved::Resolved;

// A certified host, and its grammar.
#[derive(Clone, Copy)]
pub(crate) struct Own<'a> {
    pub(crate) host: &'a CertifiedHost,
    pub(crate) grammar: &'a Grammar,
}

// Besides, the host with an extension by numbers, and its grammar.
#[derive(Clone, Copy)]
pub(crate) struct Both<'a> {
    pub(crate) own: &'a Own<'a>,
    pub(crate) resolved: &'a Resolved,
    pub(crate) grammar: &'a Grammar,
}

// What is found of an extension: the grammar of its host with it and with holes, the numbers of both, for each terminal the host's terminal
// that it stands for, and the new kernels.
pub(crate) struct Found {
    pub(crate) grammar: Grammar,
    pub(crate) numbers: Numbers,
    pub(crate) images: Vec<Option<usize>>,
    pub(crate) new: NewKernels,
}

impl Drop for Found {
    fn drop(self) {
        let Found {
            grammar,
            numbers: _,
            images,
            new,
        } = self;
        drop(grammar);
        drop(images);
        drop(new);
    }
}

// What is found of each extension.
pub(crate) fn founds_of(
    alloc: Global,
    own: &Own,
    extensions: &[CertifiedExtension],
) -> Result<Vec<Found>, AllocError>
    requires own { IsOwn own.now }
    requires each { All (IsWith own.now.host.now) extensions.now }
    ensures { IfOk result (λ founds. AllZip (IsFoundBeside own.now) extensions.now founds.items) }
{
    let mut founds = Vec::new(alloc);
    'extensions: for extension in extensions {
        let found = found_of(alloc, own, extension)?;
        push(&mut founds, found)?;
    }
    Ok(founds)
}

// What is found of an extension.
fn found_of(alloc: Global, own: &Own, extension: &CertifiedExtension) -> Result<Found, AllocError>
    requires own { IsOwn own.now }
    requires certified { IsWith own.now.host.now extension.now }
    ensures { IfOk result (IsFoundBeside own.now extension.now) }
{
    certified_both(extension);
    let resolved = extension.resolved();
    match &resolved.parts().grammar {
        Some(grammar) => found_by(
            alloc,
            &Both {
                own,
                resolved,
                grammar,
            },
        ),
        None => Err(AllocError),
    }
}

// What is found of an extension with this grammar.
fn found_by(alloc: Global, both: &Both) -> Result<Found, AllocError>
    requires { AreBoth both.now }
    ensures { IfOk result (IsFoundIn both.now.own.now both.now.resolved.now both.now.grammar.now) }
{
    let holes = with_holes(alloc, both.resolved)?;
    // The numbers of the grammar are in range.
    holes.productions();
    let numbers = numbers_of(both.own.grammar, both.grammar);
    let count = holes.lookahead_count()?;
    let parts = both.resolved.parts();
    let images = images_of(alloc, parts, both.grammar, numbers.terminals, count)?;
    let new = new_of(alloc, both, &holes, &numbers, &images)?;
    Ok(Found {
        grammar: holes,
        numbers,
        images,
        new,
    })
}

// How many numbers the host has, and how many an extension adds.
fn numbers_of(host: &Grammar, both: &Grammar) -> Numbers
    requires terminals { host.now.terminals ≤ both.now.terminals }
    requires nonterminals { host.now.nonterminals ≤ both.now.nonterminals }
    requires productions { length host.now.productions ≤ length both.now.productions }
    ensures { result ≡ numbers_of host.now both.now }
{
    Numbers {
        terminals: Added {
            own: host.terminals(),
            more: both.terminals() - host.terminals(),
        },
        nonterminals: Added {
            own: host.nonterminals(),
            more: both.nonterminals() - host.nonterminals(),
        },
        productions: Added {
            own: host.productions(),
            more: both.productions() - host.productions(),
        },
    }
}

// The new kernels, beside those of the host.
fn new_of(
    alloc: Global,
    both: &Both,
    holes: &Grammar,
    numbers: &Numbers,
    images: &[Option<usize>],
) -> Result<NewKernels, AllocError>
    requires both { AreBoth both.now }
    requires are { AreFor both.now holes.now numbers.now images.now }
    ensures { IfOk result (AreNewKernels (kernels_in both.now.own.now) holes.now numbers.now images.now) }
{
    // The numbers of the grammar are in range.
    holes.productions();
    let parts = both.own.host.parts();
    let rules = production_numbers(alloc, holes)?;
    let made = NewKernels::find(
        alloc,
        &Beside {
            host: &parts.kernels,
            own: &parts.grammar,
            grammar: holes,
            numbers,
            images,
        },
        &rules,
    );
    drop(rules);
    made
}
