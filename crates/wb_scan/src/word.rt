//! How is what is known of a state kept? In one word, since a scan reads one at each byte.
//!
//! From its lowest digit on, a word says whether a form is accepted, whether no match goes on, and what wins. What doesn't fit isn't kept.

ghost use Rattle.std.specs.Prelude.{◌≡◌, ◌==◌, ◌<◌, ◌/◌, ◌%◌, IfSome, Some};
ghost use Rattle.wb_scan.specs.declared.won.Won.TheVariants.{Token};
ghost use Rattle.wb_scan.specs.Words.{accepts_in, ends_in, won_coded, won_in};

use crate::won::Won;

// Terminals from here on aren't kept.
const TERMINALS: usize = 4_294_967_296;

// Nor are prefixes of so many bytes.
const PREFIXES: usize = 268_435_456;

// Whether a form is accepted.
#[inline(always)]
pub(crate) fn accepts(word: u64) -> bool
    ensures { result ≡ accepts_in word }
{
    word % 2 == 1
}

// Whether no match goes on.
#[inline(always)]
pub(crate) fn ends(word: u64) -> bool
    ensures { result ≡ ends_in word }
{
    word / 2 % 2 == 1
}

// What wins, where it is kept.
#[inline(always)]
pub(crate) fn won(word: u64) -> Option<Won>
    ensures { result ≡ won_in word }
{
    let code = word / 2 / 2;
    let number = code / 4;
    match code % 4 {
        0 => Some(Won::Nothing),
        1 => Some(Won::Layout),
        2 => Some(Won::Token {
            terminal: (number % 4_294_967_296) as usize,
            prefix: (number / 4_294_967_296) as usize,
        }),
        _ => None,
    }
}

// The word that says so, where what wins is kept if it is known and fits.
pub(crate) fn word_of(accepts: bool, ends: bool, won: Option<Won>) -> u64
    ensures accepts { accepts_in result ≡ accepts }
    ensures ends { ends_in result ≡ ends }
    ensures won { IfSome (won_in result) (λ kept. won ≡ Some kept) }
{
    flagged(accepts, flagged(ends, code_of(won)))
}

// A number with a flag below it.
fn flagged(flag: bool, number: u64) -> u64
    requires { number < 9223372036854775808 }
    ensures flag { (result % 2 == 1) ≡ flag }
    ensures number { result / 2 ≡ number }
    ensures within { number < 4611686018427387904 → result < 9223372036854775808 }
{
    if flag { number * 2 + 1 } else { number * 2 }
}

// The code of what wins.
fn code_of(won: Option<Won>) -> u64
    ensures code { IfSome (won_coded result) (λ kept. won ≡ Some kept) }
    ensures within { result < 4611686018427387904 }
{
    match won {
        Some(Won::Nothing) => 0,
        Some(Won::Layout) => 1,
        Some(Won::Token { terminal, prefix }) => token_code(terminal, prefix),
        None => 3,
    }
}

// The code of a terminal and the length of a prefix, where they fit, and else that of what isn't kept.
fn token_code(terminal: usize, prefix: usize) -> u64
    ensures code { IfSome (won_coded result) (λ kept. kept ≡ Token terminal prefix) }
    ensures within { result < 4611686018427387904 }
{
    if terminal >= TERMINALS || prefix >= PREFIXES {
        return 3;
    }
    (prefix as u64 * 4_294_967_296 + terminal as u64) * 4 + 2
}
