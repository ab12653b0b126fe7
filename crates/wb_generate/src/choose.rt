//! Which production replaces a nonterminal? Only those of the nonterminal are looked at.
//!
//! Productions are told apart by the least counts of their right sides alone, so the grammar isn't looked at.

ghost use Rattle.std.specs.Prelude.{◌≡◌, ◌↔◌, ◌/◌, ◌%◌, ◌^◌, ◌==◌, true, cond, IsTrue, ◌<◌, ◌≤◌, ◌+◌, ◌&&◌, not, nat_le, ℕ, All, Some, length, slice_get, slice_index};
ghost use Rattle.wb_generate.specs.Inner.Choices.{between, is_between, low_of, number_of};

// The production that a number chooses, of those of a nonterminal that has at least so many leaves, where so many are to spare.
pub(crate) fn choose(
    numbers: &[usize],
    totals: &[u64],
    least: u64,
    spare: u64,
    number: u64,
) -> usize
    requires some { 0 < length (between totals.now 0 (spare + least) numbers.now) }
    requires known { All (λ p. p < length totals.now) numbers.now }
    requires few { spare + least ≤ 100000 }
    ensures { number_of totals.now least spare numbers.now number ≡ Some result }
{
    let high = spare + least;
    let growing = count(numbers, totals, least + 1, high);
    let low = lowest(growing, least, number);
    let many = count(numbers, totals, low, high);
    let place = place_of(number, many);
    find(numbers, totals, low, high, place)
}

// The least sum that a number chooses, where so many productions have more leaves than needed.
fn lowest(growing: u64, least: u64, number: u64) -> u64
    requires { least ≤ 100000 }
    ensures { result ≡ cond (not (growing == 0) && not (number % 4 == 0)) (least + 1) 0 }
{
    if growing != 0 && number % 4 != 0 {
        least + 1
    } else {
        0
    }
}

// The place that a number chooses.
fn place_of(number: u64, many: u64) -> u64
    requires { 0 < many }
    ensures is { result ≡ number / 4 % many }
    ensures below { result < many }
{
    number / 4 % many
}

// How many of the productions have a sum in the range.
fn count(numbers: &[usize], totals: &[u64], low: u64, high: u64) -> u64
    requires { All (λ p. p < length totals.now) numbers.now }
    ensures { result ≡ length (between totals.now low high numbers.now) }
{
    let mut many = 0;
    'numbers: for &number in numbers {
        many = next_count(many, is_within(totals[number], low, high));
    }
    many
}

// The production at a place among those that have a sum in the range.
fn find(numbers: &[usize], totals: &[u64], low: u64, high: u64, wanted: u64) -> usize
    requires known { All (λ p. p < length totals.now) numbers.now }
    requires place { wanted < length (between totals.now low high numbers.now) }
    ensures { slice_get (between totals.now low high numbers.now) wanted ≡ Some result }
{
    let mut passed = 0;
    'numbers: for &number in numbers {
        let may = is_within(totals[number], low, high);
        if is_found(may, passed, wanted) {
            return number;
        }
        passed = next_count(passed, may);
    }
    unreachable!()
}

// The count with one more, where it is one.
fn next_count(count: u64, more: bool) -> u64
    requires { count + 1 < 2 ^ 64 }
    ensures { result ≡ count + cond more 1 0 }
{
    if more { count + 1 } else { count }
}

// Whether it is the one at the place.
fn is_found(may: bool, passed: u64, place: u64) -> bool
    ensures { IsTrue result ↔ ((may ≡ true) × (passed ≡ place)) }
{
    may && passed == place
}

// Whether a sum is in the range.
fn is_within(total: u64, low: u64, high: u64) -> bool
    ensures { result ≡ (nat_le low total && nat_le total high) }
{
    low <= total && total <= high
}
