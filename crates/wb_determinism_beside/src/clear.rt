//! Has no new kernel a conflict or a clash?
//!
//! Each new kernel has an item of the extension, or the answer is `false`. So its layout is considered at each beside the host's.

ghost use Rattle.std.specs.Prelude.{◌≡◌, [], IfOk, IsTrue};
ghost use Rattle.wb_determinism_contexts.specs.Sets.{FitsGrammar, lent};
ghost use Rattle.wb_determinism_beside.specs.Inner.Found.{IsClearAtNew, IsFound, both_in, lexicon_for};
ghost use Rattle.wb_termset.specs.Sets.{IsEmpty};

use crate::considered::add_considered;
use crate::found::Found;
use std::alloc::{AllocError, Global};
use wb_determinism_contexts::Lexicon;
use wb_determinism_host::{LayoutOwner, expressions_of, layout_of, pairs_of};
use wb_lexical::find_clash;
use wb_syntax_resolved::ResolvedParts;
use wb_termset::TermSet;

// Whether none has, where so many of the terminals are scanned.
pub(crate) fn is_clear(
    alloc: Global,
    found: &Found,
    parts: &ResolvedParts,
    scanned: usize,
) -> Result<bool, AllocError>
    requires found { IsFound found.now }
    requires fits { FitsGrammar (both_in found.now).terminals (lexicon_for parts.now scanned) }
    ensures { IfOk result (λ answer. IsTrue answer → IsClearAtNew found.now (lexicon_for parts.now scanned)) }
{
    let layout = layout_of(alloc, parts.terminals.as_slice(), LayoutOwner::Any)?;
    let own_layout = layout_of(alloc, parts.terminals.as_slice(), LayoutOwner::Nobody)?;
    let expressions = expressions_of(alloc, parts.terminals.as_slice())?;
    let pairs = pairs_of(alloc, parts.preferences.as_slice())?;
    let lexicon = Lexicon {
        expressions: &expressions,
        scanned,
        layout: &layout,
        own_layout: &own_layout,
        own_productions: (0, 0),
        preferences: &pairs,
    };
    is_clear_for(alloc, found, parts, scanned, &lexicon)
}

// Like `is_clear`, where this is scanned.
fn is_clear_for(
    alloc: Global,
    found: &Found,
    parts: &ResolvedParts,
    scanned: usize,
    lexicon: &Lexicon,
) -> Result<bool, AllocError>
    requires found { IsFound found.now }
    requires fits { FitsGrammar (both_in found.now).terminals (lexicon_for parts.now scanned) }
    requires lexicon { lent lexicon.now ≡ lexicon_for parts.now scanned }
    ensures { IfOk result (λ answer. IsTrue answer → IsClearAtNew found.now (lexicon_for parts.now scanned)) }
{
    let mut sets = Vec::new(alloc);
    let answer = is_clear_by(alloc, found, lexicon, &mut sets);
    drop(sets);
    answer
}

// Whether none has, by the sets of what is considered, of which there are none yet.
fn is_clear_by(
    alloc: Global,
    found: &Found,
    lexicon: &Lexicon,
    sets: &mut Vec<TermSet>,
) -> Result<bool, AllocError>
    requires found { IsFound found.now }
    requires fits { FitsGrammar (both_in found.now).terminals (lent lexicon.now) }
    requires none_own { IsEmpty (lent lexicon.now).own_layout }
    requires none { sets.old.items ≡ [] }
    ensures { IfOk result (λ answer. IsTrue answer → IsClearAtNew found.now (lent lexicon.now)) }
{
    let decided = add_considered(alloc, found, lexicon, sets)?;
    if !decided {
        return Ok(false);
    }
    let Some(clash) = find_clash(alloc, lexicon.expressions, sets, lexicon.preferences)? else {
        return Ok(true);
    };
    drop(clash);
    Ok(false)
}
