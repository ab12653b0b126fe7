//! From which pairs of places does no text go on, since both wait for something, and not for the same?
//!
//! Such a pair needn't be met. In a long choice most pairs of leaves are such.

ghost use Rattle.std.specs.Prelude.{◌≡◌, ◌<◌, ◌==◌, bit_and, length, not};
ghost use Rattle.wb_automata.specs.Inner.Pairs.{is_stuck, left_of};
ghost use Rattle.wb_automata.specs.Inner.Stuck.{are_stuck, is_read, share_byte, waits_without};

use wb_automata_positions::Place;

// Whether both places of a pair wait, and not for the same.
pub(crate) fn is_stuck(places: &[Place], pair: usize) -> bool
    requires { left_of places.now pair < length places.now }
    ensures { result ≡ is_stuck places.now pair }
{
    let count = places.len();
    are_stuck(places[pair / count], places[pair % count])
}

fn are_stuck(left: Place, right: Place) -> bool
    ensures { result ≡ are_stuck left right }
{
    match left {
        Place::Read(words, _) => waits_without(&words, right),
        Place::Go(_) => false,
        Place::Fork(_, _) => false,
        Place::End(_) => is_read(right),
    }
}

// Whether the place waits, but not for a byte of the set.
fn waits_without(lefts: &[u64; 4], place: Place) -> bool
    ensures { result ≡ waits_without lefts.now place }
{
    match place {
        Place::Read(rights, _) => !share_byte(lefts, &rights),
        Place::Go(_) => false,
        Place::Fork(_, _) => false,
        Place::End(_) => true,
    }
}

fn is_read(place: Place) -> bool
    ensures { result ≡ is_read place }
{
    match place {
        Place::Read(_, _) => true,
        Place::Go(_) => false,
        Place::Fork(_, _) => false,
        Place::End(_) => false,
    }
}

// Whether two sets of bytes have one in common.
fn share_byte(lefts: &[u64; 4], rights: &[u64; 4]) -> bool
    ensures { result ≡ share_byte lefts.now rights.now }
{
    share_word(lefts[0], rights[0])
        || share_word(lefts[1], rights[1])
        || share_word(lefts[2], rights[2])
        || share_word(lefts[3], rights[3])
}

fn share_word(left: u64, right: u64) -> bool
    ensures { result ≡ not (bit_and left right == 0) }
{
    left & right != 0
}
