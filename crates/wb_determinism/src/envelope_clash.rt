//! Do two terminals that are considered at one new kernel of the host's items match one text, with no preference between them?

ghost use Rattle.std.specs.Prelude.{◌≡◌, IfErr, IfOk};
ghost use Rattle.wb_determinism_contexts.specs.Sets.{lent};
ghost use Rattle.wb_determinism.specs.EnvelopeClash.{HasNoEnvelopeClash};
ghost use Rattle.wb_determinism.specs.Inner.Clashes.{HasSets, IsClashRefusal};
ghost use Rattle.wb_determinism.specs.Inner.Contexts.{IsContext, both_of, host_of};

use crate::context::Context;
use std::alloc::Global;
use wb_base::Sequence;
use wb_determinism_contexts::Lexicon;
use wb_determinism_host::{DeterminismRefusal, EnvelopeFault};
use wb_lexical::find_clash;
use wb_termset::TermSet;

// Whether no two do, by the sets of what is considered.
pub(crate) fn test_clashes(
    alloc: Global,
    context: &Context,
    lexicon: &Lexicon,
    sets: &[TermSet],
) -> Result<(), DeterminismRefusal>
    requires context { IsContext context.now }
    requires scanned { lexicon.now.scanned ≡ context.now.numbers.now.own_terminals }
    requires sets { HasSets context.now lexicon.now.layout.now sets.now }
    ensures ok { IfOk result (λ done. HasNoEnvelopeClash (host_of context.now) (both_of context.now) context.now.numbers.now (lent lexicon.now)) }
    ensures refused { IfErr result (IsClashRefusal context.now (lent lexicon.now)) }
{
    match find_clash(alloc, lexicon.expressions, sets, lexicon.preferences)? {
        Some(clash) => {
            let prefix = Sequence::from_vec(context.both.prefix(alloc, clash.set)?);
            Err(DeterminismRefusal::Envelope {
                prefix,
                fault: EnvelopeFault::Clash {
                    left: clash.left,
                    right: clash.right,
                    text: clash.text,
                },
            })
        }
        None => Ok(()),
    }
}
