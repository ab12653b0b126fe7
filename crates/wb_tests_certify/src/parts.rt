//! Does a part of a refusal have the expected name?
//!
//! Numbers are compared by the names that the file gives them, or that its grammar with holes does. An empty name matches any part.

use wb_base::Grammar;
use wb_flow::Vertex;
use wb_items::Item;
use wb_lookahead::Action;
use wb_syntax_resolved::Resolved;

// A part of a refusal.
#[derive(Clone, Copy)]
pub(crate) enum Part<'a> {
    // Nothing is shown.
    Nothing,
    // A name, or a text that is matched.
    Text(&'a [u8]),
    // What the file has from a position on.
    Place(usize),
    Terminal(usize),
    Nonterminal(usize),
    Production(usize),
    Attribute(usize),
    // A terminal of the grammar with holes.
    Lookahead(usize),
    Action(Action),
    // An item with the dot after its first symbol.
    Passed(Item),
    // The label of a child of a production.
    Label(usize, usize),
    // The reader of an attribute: an attribute, or the forwarded tree.
    Reader(Option<usize>),
    // Some of these terminals, nonterminals or vertices.
    Terminals(&'a [usize]),
    Nonterminals(&'a [usize]),
    Vertices(&'a [Vertex]),
}

// Whether a part of a refusal of the file with this text has the name.
pub(crate) fn has_name(resolved: &Resolved, text: &str, part: Part<'_>, name: &str) -> bool {
    match part {
        Part::Nothing => true,
        Part::Text(shown) => is_name(shown, name),
        Part::Place(place) => stands_at(text, place, name),
        Part::Terminal(number) => is_terminal(resolved, number, name),
        Part::Nonterminal(number) => is_nonterminal(resolved, number, name),
        Part::Production(number) => is_production(resolved, number, name),
        Part::Attribute(number) => is_attribute(resolved, number, name),
        Part::Lookahead(number) => is_lookahead(resolved, number, name),
        other => has_other_name(resolved, other, name),
    }
}

// Whether a part of several numbers has the name.
fn has_other_name(resolved: &Resolved, part: Part<'_>, name: &str) -> bool {
    match part {
        Part::Action(action) => is_action(resolved, action, name),
        Part::Passed(item) => item.dot == 1 && is_production(resolved, item.production, name),
        Part::Label(production, place) => is_label(resolved, production, place, name),
        Part::Reader(Some(attribute)) => is_attribute(resolved, attribute, name),
        Part::Reader(None) => name == "forward",
        Part::Terminals(numbers) => has_terminal(resolved, numbers, name),
        Part::Nonterminals(numbers) => has_nonterminal(resolved, numbers, name),
        Part::Vertices(vertices) => has_attribute(resolved, vertices, name),
        _ => false,
    }
}

// Whether a name is the expected one.
pub(crate) fn is_name(shown: &[u8], name: &str) -> bool {
    name.len() == 0 || shown == name.as_bytes()
}

// Whether the terminal or layout of this number has the name.
pub(crate) fn is_terminal(resolved: &Resolved, number: usize, name: &str) -> bool {
    let terminals = resolved.parts().terminals.as_slice();
    number < terminals.len() && is_name(terminals[number].name.as_slice(), name)
}

// Whether the nonterminal of this number has the name.
fn is_nonterminal(resolved: &Resolved, number: usize, name: &str) -> bool {
    let nonterminals = resolved.parts().attributes.parts().nonterminals.as_slice();
    number < nonterminals.len() && is_name(nonterminals[number].name.as_slice(), name)
}

// Whether the production of this number has the name.
fn is_production(resolved: &Resolved, number: usize, name: &str) -> bool {
    let productions = resolved.parts().attributes.parts().productions.as_slice();
    number < productions.len() && is_name(productions[number].name.as_slice(), name)
}

// Whether the attribute of this number has the name.
fn is_attribute(resolved: &Resolved, number: usize, name: &str) -> bool {
    let attributes = resolved.parts().attributes.parts().attributes.as_slice();
    number < attributes.len() && is_name(attributes[number].name.as_slice(), name)
}

// Whether the terminal of this number in the grammar with holes has the name. A hole is named by its nonterminal after `hole:`. The number
// after all terminals is `end`.
fn is_lookahead(resolved: &Resolved, number: usize, name: &str) -> bool {
    let terminals = terminals_in(&resolved.parts().grammar);
    if number < terminals {
        return is_terminal(resolved, number, name);
    }
    let extensible = resolved.parts().extensible.as_slice();
    let place = number - terminals;
    if place < extensible.len() {
        is_hole(resolved, extensible[place], name)
    } else {
        place == extensible.len() && name == "end"
    }
}

// Whether the name is that of the hole of this nonterminal.
fn is_hole(resolved: &Resolved, nonterminal: usize, name: &str) -> bool {
    match name.strip_prefix("hole:") {
        Some(rest) => is_nonterminal(resolved, nonterminal, rest),
        None => false,
    }
}

// How many terminals the grammar has.
fn terminals_in(grammar: &Option<Grammar>) -> usize {
    match grammar {
        Some(grammar) => grammar.terminals(),
        None => 0,
    }
}

// Whether a text has this from a position on.
fn stands_at(text: &str, place: usize, shown: &str) -> bool {
    let bytes = text.as_bytes();
    place <= bytes.len() && bytes[place..].starts_with(shown.as_bytes())
}

// Whether the child at this position has the label.
fn is_label(resolved: &Resolved, production: usize, place: usize, label: &str) -> bool {
    let productions = resolved.parts().attributes.parts().productions.as_slice();
    if production >= productions.len() {
        return false;
    }
    let children = productions[production].children.as_slice();
    place < children.len() && is_name(children[place].label.as_slice(), label)
}

// Whether it is a shift, or a reduction by the production of this name. An empty name matches any production.
fn is_action(resolved: &Resolved, action: Action, name: &str) -> bool {
    match action {
        Action::Shift(_) => name.len() == 0 || name == "shift",
        Action::Reduce(production) => is_production(resolved, production, name),
        Action::Accept => false,
        Action::None => false,
    }
}

// Whether some of these terminals has the name.
fn has_terminal(resolved: &Resolved, numbers: &[usize], name: &str) -> bool {
    'numbers: for number in numbers {
        if is_terminal(resolved, *number, name) {
            return true;
        }
    }
    false
}

// Whether some of these nonterminals has the name.
fn has_nonterminal(resolved: &Resolved, numbers: &[usize], name: &str) -> bool {
    'numbers: for number in numbers {
        if is_nonterminal(resolved, *number, name) {
            return true;
        }
    }
    false
}

// Whether some vertex is an attribute of this name.
fn has_attribute(resolved: &Resolved, vertices: &[Vertex], name: &str) -> bool {
    'vertices: for vertex in vertices {
        if is_vertex(resolved, *vertex, name) {
            return true;
        }
    }
    false
}

// Whether it is an attribute of this name.
fn is_vertex(resolved: &Resolved, vertex: Vertex, name: &str) -> bool {
    match vertex {
        Vertex::Top(attribute) => is_attribute(resolved, attribute, name),
        Vertex::Child(_, attribute) => is_attribute(resolved, attribute, name),
        Vertex::Local(_, attribute) => is_attribute(resolved, attribute, name),
        Vertex::Forward(attribute) => is_attribute(resolved, attribute, name),
        Vertex::LocalTree(_) => false,
        Vertex::ForwardTree => false,
    }
}
