//! What does a session have in memory? Its text, the place of each leaf, and the stack before each of its tokens.

ghost use Rattle.std.specs.Prelude.{◌≡◌, ◌≤◌, ◌+◌, [], IfOk, OnErr, OnOk, length, take};
ghost use Rattle.wb_scan_theory.specs.Facts.{IsLanguage};
ghost use Rattle.wb_parser.specs.Parses.{Extends, IsParsed};
ghost use Rattle.wb_session_theory.specs.Edits.{edited};
ghost use Rattle.wb_session.specs.Places.{KeepsPlaces};
ghost use Rattle.wb_session.specs.Kept.{AreCommon, IsMemory};
ghost use Rattle.wb_session.specs.Inner.Memories.{IsNew};

use crate::checkpoint::Checkpoint;
use crate::edited_text::{add_rest, take_first};
use crate::going_on::go_on;
use crate::older::Older;
use crate::past::{Past, go_back};
use crate::stacks::Stacks;
use crate::{Edited, LeafPlace};
use std::alloc::{AllocError, Global};
use std::mem::swap;
use wb_base::push;
use wb_parser::Parsed;
use wb_parser_states::{Rule, rules_of};
use wb_scan::Language;

// The left sides and widths of productions; a text with the places of its leaves and checkpoints with their stacks; and of each list another,
// where the next version is made, with how many of the first elements are there already.
pub(crate) struct Memory {
    pub(crate) rules: Vec<Rule>,
    pub(crate) text: Vec<u8>,
    pub(crate) spare: Vec<u8>,
    pub(crate) common: usize,
    pub(crate) places: Vec<LeafPlace>,
    pub(crate) spare_places: Vec<LeafPlace>,
    pub(crate) common_places: usize,
    pub(crate) checkpoints: Vec<Checkpoint>,
    pub(crate) stacks: Stacks,
    pub(crate) past: Past,
}

impl Drop for Memory {
    fn drop(self) {
        let Memory {
            rules,
            text,
            spare,
            common: _,
            places,
            spare_places,
            common_places: _,
            checkpoints,
            stacks,
            past,
        } = self;
        drop(rules);
        drop(text);
        drop(spare);
        drop(places);
        drop(spare_places);
        drop(checkpoints);
        drop(stacks);
        drop(past);
    }
}

impl Memory {
    // Nothing yet.
    pub(crate) fn new(alloc: Global) -> Memory
        ensures { IsNew result }
    {
        Memory {
            rules: Vec::new(alloc),
            text: Vec::new(alloc),
            spare: Vec::new(alloc),
            common: 0,
            places: Vec::new(alloc),
            spare_places: Vec::new(alloc),
            common_places: 0,
            checkpoints: Vec::new(alloc),
            stacks: Stacks::new(alloc),
            past: Past::new(alloc),
        }
    }
}

// Reads a text from its beginning on.
pub(crate) fn read_text(
    alloc: Global,
    language: &Language,
    memory: &mut Memory,
    text: &[u8],
) -> Result<Parsed, AllocError>
    requires { IsNew memory.old }
    ensures text { OnOk result (memory.new.text.items ≡ text.now) }
    ensures memory { OnOk result (IsMemory language.now memory.new) }
    ensures common { OnOk result (AreCommon memory.new) }
    ensures parsed { IfOk result (IsParsed language.now.language text.now memory.new.stacks.store) }
    ensures language { OnOk result (IsLanguage language.now.language) }
{
    memory.rules = rules_of(alloc, language.grammar())?;
    memory.text.extend_from_slice(text)?;
    push(
        &mut memory.checkpoints,
        Checkpoint {
            at: 0,
            reach: 0,
            link: 0,
        },
    )?;
    let older = Older {
        checkpoints: &[],
        places: &[],
        entries: &[],
        shared: 0,
        to: 0,
        moved: 0,
        limit: memory.text.len(),
        terminals: language.grammar().terminals(),
    };
    let read = go_on(
        language,
        &memory.rules,
        &memory.text,
        &mut memory.checkpoints,
        &mut memory.stacks,
        &mut memory.places,
        &older,
    )?;
    Ok(read.parsed)
}

// The answer after an edit, and what was done for it.
#[derive(Clone, Copy)]
pub(crate) struct Reread {
    pub(crate) parsed: Parsed,
    pub(crate) edited: Edited,
}

// Edits the text, and reads it from the last checkpoint on up to which nothing that is edited was looked at. If memory runs out, the text is
// as before.
pub(crate) fn reread_text(
    language: &Language,
    memory: &mut Memory,
    from: usize,
    to: usize,
    with: &[u8],
) -> Result<Reread, AllocError>
    requires memory { IsMemory language.now memory.old }
    requires common { AreCommon memory.old }
    requires order { from ≤ to }
    requires within { to ≤ length memory.old.text.items }
    ensures text { OnOk result (memory.new.text.items ≡ edited memory.old.text.items from to with.now) }
    ensures err { OnErr result (memory.new.text.items ≡ memory.old.text.items) }
    ensures err_places { OnErr result (memory.new.places.items ≡ memory.old.places.items) }
    ensures memory { IsMemory language.now memory.new }
    ensures common { AreCommon memory.new }
    ensures parsed { IfOk result (λ reread. IsParsed language.now.language memory.new.text.items memory.new.stacks.store reread.parsed) }
    ensures store { Extends memory.old.stacks.store memory.new.stacks.store }
    ensures built { IfOk result (λ reread. length memory.new.stacks.store ≡ length memory.old.stacks.store + reread.edited.built) }
    ensures from { IfOk result (λ reread. (reread.edited.from ≤ from) × (reread.edited.to ≤ length memory.new.text.items)) }
    ensures kept { IfOk result (λ reread. KeepsPlaces reread.edited.kept memory.old.places.items memory.new.places.items) }
    ensures scanned { IfOk result (λ reread. reread.edited.scanned + reread.edited.kept + reread.edited.known ≡ length memory.new.places.items + 1) }
{
    take_first(&memory.text, &mut memory.spare, &mut memory.common, from)?;
    let moved = add_rest(&memory.text, &mut memory.spare, with, to)?;
    let before = memory.stacks.store.len();
    let point = go_back(
        &mut memory.checkpoints,
        &mut memory.stacks,
        &mut memory.past,
        from,
    )?;
    let kept = memory.checkpoints.len() - 1;
    take_first(
        &memory.places,
        &mut memory.spare_places,
        &mut memory.common_places,
        kept,
    )?;
    let older = Older {
        checkpoints: &memory.past.checkpoints,
        places: &memory.places,
        entries: &memory.past.entries,
        shared: memory.past.common_entries,
        to,
        moved,
        limit: memory.spare.len(),
        terminals: language.grammar().terminals(),
    };
    let read = go_on(
        language,
        &memory.rules,
        &memory.spare,
        &mut memory.checkpoints,
        &mut memory.stacks,
        &mut memory.spare_places,
        &older,
    )?;
    swap(&mut memory.text, &mut memory.spare);
    swap(&mut memory.places, &mut memory.spare_places);
    let edited = Edited {
        from: point.at,
        to: met_at(&memory.checkpoints, read.known, memory.text.len()),
        scanned: memory.checkpoints.len() - kept - read.known,
        built: memory.stacks.store.len() - before,
        kept,
        known: read.known,
    };
    Ok(Reread {
        parsed: read.parsed,
        edited,
    })
}

// Where the last leaves, so many of them, begin: at the checkpoint before them; and the end of the text, where there are none.
fn met_at(checkpoints: &[Checkpoint], known: usize, limit: usize) -> usize
    ensures { result ≤ limit }
{
    let count = checkpoints.len();
    if known == 0 || known >= count {
        return limit;
    }
    let at = checkpoints[count - 1 - known].at;
    if at < limit { at } else { limit }
}
