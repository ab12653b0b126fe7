//! Converts between the host's numbers and those of the host with an extension.
//!
//! What the host has of its own keeps its number. Holes, the end of a text, productions of holes and `S' -> S` come after the extension's.

ghost use Rattle.std.specs.Prelude.{◌≡◌, ◌≢◌, ◌<◌, ◌≤◌, ◌+◌, ◌-◌, ◌^◌, ℕ, MatchOption};
ghost use Rattle.wb_grammar_theory.specs.declared.item.Item.{Item};
ghost use Rattle.wb_determinism.specs.Numbers.{item_up, lifted, production_up, terminal_up};
ghost use Rattle.wb_determinism.specs.Inner.Numbers.{AreInTurn};

use wb_items::Item;

/// How many terminals and productions there are: those that a host has of its own, without holes; those of the host with holes; and those
/// of the host with an extension and holes.
#[derive(Clone, Copy)]
pub struct Numbers {
    pub own_terminals: usize,
    pub host_terminals: usize,
    pub both_terminals: usize,
    pub own_productions: usize,
    pub host_productions: usize,
    pub both_productions: usize,
}

// The host's item that has become this one.
pub(crate) fn item_down(numbers: &Numbers, item: Item) -> Option<Item>
    requires { AreInTurn numbers.now }
    ensures { MatchOption result ((own : Item) → item ≢ item_up numbers.now own) (λ own. item ≡ item_up numbers.now own) }
{
    let more = numbers.both_productions - numbers.host_productions;
    match down(numbers.own_productions, more, item.production) {
        Some(production) => Some(Item {
            production,
            dot: item.dot,
        }),
        None => None,
    }
}

// What the host's item has become.
pub(crate) fn item_after(numbers: &Numbers, item: Item) -> Item
    requires numbers { AreInTurn numbers.now }
    requires within { item.production ≤ numbers.now.host_productions }
    ensures { result ≡ item_up numbers.now item }
{
    Item {
        production: production_after(numbers, item.production),
        dot: item.dot,
    }
}

// The number that the host's production has become.
pub(crate) fn production_after(numbers: &Numbers, production: usize) -> usize
    requires numbers { AreInTurn numbers.now }
    requires within { production ≤ numbers.now.host_productions }
    ensures { result ≡ production_up numbers.now production }
{
    let more = numbers.both_productions - numbers.host_productions;
    up(numbers.own_productions, more, production)
}

// The number that the host's terminal has become.
pub(crate) fn terminal_after(numbers: &Numbers, terminal: usize) -> usize
    requires numbers { AreInTurn numbers.now }
    requires within { terminal ≤ numbers.now.host_terminals }
    ensures { result ≡ terminal_up numbers.now terminal }
{
    let more = numbers.both_terminals - numbers.host_terminals;
    up(numbers.own_terminals, more, terminal)
}

// The host's terminal that has become this one.
pub(crate) fn terminal_before(numbers: &Numbers, terminal: usize) -> Option<usize>
    requires { AreInTurn numbers.now }
    ensures { MatchOption result ((own : ℕ) → terminal ≢ terminal_up numbers.now own) (λ own. terminal ≡ terminal_up numbers.now own) }
{
    let more = numbers.both_terminals - numbers.host_terminals;
    down(numbers.own_terminals, more, terminal)
}

// The number, moved up by so many where it isn't among the first.
fn up(own: usize, more: usize, number: usize) -> usize
    requires { number + more < 2 ^ 64 }
    ensures { result ≡ lifted own more number }
{
    if number < own { number } else { number + more }
}

// The number that was moved to this one.
fn down(own: usize, more: usize, number: usize) -> Option<usize>
    ensures { MatchOption result ((n : ℕ) → number ≢ lifted own more n) (λ n. number ≡ lifted own more n) }
{
    if number < own {
        return Some(number);
    }
    if number - own < more {
        return None;
    }
    Some(number - more)
}
