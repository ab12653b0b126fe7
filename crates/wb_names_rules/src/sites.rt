//! Of which nonterminal is a tree, and does an attribute occur there?
//!
//! A tree is the top, the forwarded one, or that of a label. What is read of names alone is in `reads`.

ghost use Rattle.std.specs.Prelude.{◌≡◌, ◌↔◌, IfOk, IsTrue, ℕ, List, option_map};
ghost use Rattle.wb_names_theory.specs.declared.declaration.Sort.TheVariants as sort;
ghost use Rattle.wb_names_theory.specs.Meaning as meaning;
ghost use Rattle.wb_names_rules.specs.Inner.Reads as spec;

use crate::NameIndex;
use crate::reads::{is_nonterminal, labelled_as, left_of, sort_of};
use std::alloc::{AllocError, Global};
use wb_base::Bytes;
use wb_names_theory::{Labelled, Site, Sort};

// The nonterminal of the tree at a site of a production, where it is one.
pub(crate) fn site_of<'a>(
    alloc: Global,
    index: &'a NameIndex,
    production: &[u8],
    site: &Site,
) -> Result<Option<&'a Bytes>, AllocError>
    requires { meaning.IsSymbol index.now production.now sort.Production }
    ensures { IfOk result (λ found. spec.IsSiteOf index.now production.now site.now (option_map (λ x. x.now) found)) }
{
    match site {
        Site::Top => top_of(alloc, index, production),
        Site::Label(label) => label_tree_of(alloc, index, production, label.as_slice()),
        Site::Forward => top_of(alloc, index, production),
    }
}

// The nonterminal on the left of a production, where it is one.
fn top_of<'a>(
    alloc: Global,
    index: &'a NameIndex,
    production: &[u8],
) -> Result<Option<&'a Bytes>, AllocError>
    ensures { IfOk result (λ found. spec.IsTopOf index.now production.now (option_map (λ x. x.now) found)) }
{
    match left_of(alloc, index, production)? {
        None => Ok(None),
        Some(left) => nonterminal_named(alloc, index, left),
    }
}

// The name, where it is a nonterminal's.
fn nonterminal_named<'a>(
    alloc: Global,
    index: &NameIndex,
    name: &'a Bytes,
) -> Result<Option<&'a Bytes>, AllocError>
    ensures { IfOk result (λ found. spec.IsNonterminalNamed index.now name.now (option_map (λ x. x.now) found)) }
{
    if is_nonterminal(alloc, index, name.as_slice())? {
        Ok(Some(name))
    } else {
        Ok(None)
    }
}

// The nonterminal of the tree of a label of a production, where it is one.
fn label_tree_of<'a>(
    alloc: Global,
    index: &'a NameIndex,
    production: &[u8],
    label: &[u8],
) -> Result<Option<&'a Bytes>, AllocError>
    requires { meaning.IsSymbol index.now production.now sort.Production }
    ensures { IfOk result (λ found. spec.IsLabelTreeOf index.now production.now label.now (option_map (λ x. x.now) found)) }
{
    match labelled_as(alloc, index, production, label)? {
        None => Ok(None),
        Some(is) => tree_of(alloc, index, is),
    }
}

// The nonterminal of which what has a label is a tree, where it is one.
pub(crate) fn tree_of<'a>(
    alloc: Global,
    index: &NameIndex,
    is: &'a Labelled,
) -> Result<Option<&'a Bytes>, AllocError>
    ensures { IfOk result (λ found. spec.IsTreeOf index.now is.now (option_map (λ x. x.now) found)) }
{
    match is {
        Labelled::Plain => Ok(None),
        Labelled::Child(name) => nonterminal_named(alloc, index, name),
        Labelled::Local(name) => nonterminal_named(alloc, index, name),
    }
}

// Whether what has a label is a child that is a terminal or marker.
pub(crate) fn is_lexeme(alloc: Global, index: &NameIndex, is: &Labelled) -> Result<bool, AllocError>
    ensures { IfOk result (λ b. IsTrue b ↔ meaning.IsLexeme index.now is.now) }
{
    match is {
        Labelled::Plain => Ok(false),
        Labelled::Child(name) => is_lexical(alloc, index, name.as_slice()),
        Labelled::Local(_) => Ok(false),
    }
}

// Whether a name is a terminal's or marker's.
fn is_lexical(alloc: Global, index: &NameIndex, name: &[u8]) -> Result<bool, AllocError>
    ensures { IfOk result (λ b. IsTrue b ↔ spec.IsLexicalName index.now name.now) }
{
    match sort_of(alloc, index, name)? {
        None => Ok(false),
        Some(sort) => Ok(is_lexical_sort(sort)),
    }
}

// Whether the sort is that of terminals or markers.
fn is_lexical_sort(is: Sort) -> bool
    ensures { IsTrue result ↔ spec.IsLexicalSort is }
{
    match is {
        Sort::Terminal => true,
        Sort::Marker => true,
        _ => false,
    }
}

// Whether an attribute occurs on a nonterminal.
pub(crate) fn occurs(
    alloc: Global,
    index: &NameIndex,
    attribute: &[u8],
    nonterminal: &[u8],
) -> Result<bool, AllocError>
    ensures { IfOk result (λ b. IsTrue b ↔ meaning.Occurs index.now attribute.now nonterminal.now) }
{
    Ok(index.occurrence(alloc, attribute, nonterminal)?.is_some())
}
