//! Do two terminals that a scanner considers at one prefix match one text, with no preference between them?

ghost use Rattle.std.specs.Prelude.{◌≡◌, ◌<◌, ◌↔◌, IfOk, IfSome, IsNone};
ghost use Rattle.wb_items.specs.Kernels.{count_of};
ghost use Rattle.wb_lookahead.specs.Tables.{AreValidSets};
ghost use Rattle.wb_determinism_contexts.specs.Considered.{IsClashAt, HasNoClashAt};
ghost use Rattle.wb_determinism_contexts.specs.Sets.{AreConsideredSets, FitsGrammar, lent};

use crate::Lexicon;
use crate::considered::considered_sets;
use std::alloc::{AllocError, Global};
use wb_base::{Bytes, Sequence, Symbol};
use wb_items::Kernels;
use wb_lexical::{Clash, find_clash};
use wb_termset::TermSet;

/// Two terminals that are considered at a prefix and match a text, with no preference between them.
#[derive(Drop)]
pub struct ContextClash {
    /// The prefix.
    pub prefix: Sequence<Symbol>,
    /// The terminal with the lesser number.
    pub left: usize,
    /// The other.
    pub right: usize,
    /// A text that both match.
    pub text: Bytes,
}

/// Looks for two terminals that are considered at one prefix and match a common text, with no preference between them.
///
/// The valid terminals are those of each kernel by number. Which of several clashes is shown is left open.
pub fn clash_at(
    alloc: Global,
    kernels: &Kernels,
    valid: &[TermSet],
    lexicon: &Lexicon,
) -> Result<Option<ContextClash>, AllocError>
    requires valid { AreValidSets kernels.now valid.now }
    requires lexicon { FitsGrammar kernels.now.grammar.terminals (lent lexicon.now) }
    ensures clash { IfOk result (λ found. IfSome found (λ clash. IsClashAt kernels.now.grammar (lent lexicon.now) clash.prefix clash.left clash.right clash.text)) }
    ensures in_order { IfOk result (λ found. IfSome found (λ clash. clash.left < clash.right)) }
    ensures none { IfOk result (λ found. IsNone found → HasNoClashAt kernels.now.grammar (lent lexicon.now)) }
{
    let sets = considered_sets(alloc, kernels, valid, lexicon)?;
    clash_in(alloc, kernels, lexicon, &sets)
}

// Like `clash_at`, by the sets of what is considered.
fn clash_in(
    alloc: Global,
    kernels: &Kernels,
    lexicon: &Lexicon,
    sets: &[TermSet],
) -> Result<Option<ContextClash>, AllocError>
    requires { AreConsideredSets kernels.now (lent lexicon.now) (count_of kernels.now) sets.now }
    ensures clash { IfOk result (λ found. IfSome found (λ clash. IsClashAt kernels.now.grammar (lent lexicon.now) clash.prefix clash.left clash.right clash.text)) }
    ensures in_order { IfOk result (λ found. IfSome found (λ clash. clash.left < clash.right)) }
    ensures none { IfOk result (λ found. IsNone found → HasNoClashAt kernels.now.grammar (lent lexicon.now)) }
{
    let _count = kernels.count();
    match find_clash(alloc, lexicon.expressions, sets, lexicon.preferences)? {
        Some(clash) => {
            let prefix = Sequence::from_vec(kernels.prefix(alloc, clash.set)?);
            Ok(Some(ContextClash {
                prefix,
                left: clash.left,
                right: clash.right,
                text: clash.text,
            }))
        }
        None => Ok(None),
    }
}
