//! Which bytes may both places of some pair read?

ghost use Rattle.std.specs.Prelude.{◌≡◌, ◌<◌, ℕ, Contains, length};
ghost use Rattle.wb_automata_positions.specs.Leaves.{has_byte};
ghost use Rattle.wb_automata_positions.specs.Places.{ReadsTo};
ghost use Rattle.wb_regex.specs.Matches.{HoldsByte};
ghost use Rattle.wb_automata.specs.Inner.Pairs.{ArePairs, HasCommonBytes, left_of};

use wb_automata_positions::Place;

// Adds the bytes that both places of some pair read.
pub(crate) fn add_common(places: &[Place], pairs: &[usize], words: &mut [u64; 4])
    requires { ArePairs places.now pairs.now }
    ensures { HasCommonBytes places.now pairs.now words.new }
{
    for pair in pairs {
        let count = places.len();
        add_both(places[*pair / count], places[*pair % count], words);
    }
}

// Adds the bytes that two places both read.
fn add_both(left: Place, right: Place, words: &mut [u64; 4])
    ensures kept { (b : ℕ) → HoldsByte words.old b → HoldsByte words.new b }
    ensures both { (b q r : ℕ) → ReadsTo left b q → ReadsTo right b r → HoldsByte words.new b }
{
    let Place::Read(lefts, _) = left else {
        return;
    };
    let Place::Read(rights, _) = right else {
        return;
    };
    add_shared(&lefts, &rights, words);
}

// Adds the bytes that two sets both have.
fn add_shared(lefts: &[u64; 4], rights: &[u64; 4], words: &mut [u64; 4])
    ensures kept { (b : ℕ) → HoldsByte words.old b → HoldsByte words.new b }
    ensures both { (b : ℕ) → HoldsByte lefts.now b → HoldsByte rights.now b → HoldsByte words.new b }
{
    *words = [
        words[0] | lefts[0] & rights[0],
        words[1] | lefts[1] & rights[1],
        words[2] | lefts[2] & rights[2],
        words[3] | lefts[3] & rights[3],
    ];
}

// Whether a set has the byte.
pub(crate) fn has_byte(words: &[u64; 4], byte: usize) -> bool
    requires { byte < 256 }
    ensures { result ≡ has_byte words.now byte }
{
    words[byte / 64] >> (byte % 64) & 1 == 1
}
