//! Where in a file does a node of an expression begin?
//!
//! Each node begins with a token of its own, and in the order of the file a node comes before its parts. So the place is that of the token of
//! this number among those with which nodes begin. Nothing is proved of it.

use std::alloc::{AllocError, Global};
use wb_base::push;
use wb_syntax_resolved::Node;
use wb_text_predictive::Next;
use wb_text_tokens::{Dialect, Punctuation, Token, Word, next_token};

// The place in a file of the node at this place, where the equation of its expression begins at this offset. The offset, where none is found.
pub(crate) fn node_place(
    alloc: Global,
    contents: &[u8],
    offset: usize,
    nodes: &[Node],
    at: usize,
) -> Result<usize, AllocError> {
    let mut firsts = Vec::new(alloc);
    match push_firsts(&mut firsts, nodes) {
        Ok(()) => {
            let number = number_of(&firsts, at);
            drop(firsts);
            token_place(alloc, contents, offset, number)
        }
        Err(error) => {
            drop(firsts);
            Err(error)
        }
    }
}

// Appends for each node the place of the first node that is in it.
fn push_firsts(firsts: &mut Vec<usize>, nodes: &[Node]) -> Result<(), AllocError> {
    'nodes: for at in 0..nodes.len() {
        let first = match first_part(&nodes[at]) {
            Some(part) => first_at(firsts, part),
            None => at,
        };
        push(firsts, first)?;
    }
    Ok(())
}

// The place that is kept for a node.
fn first_at(firsts: &[usize], place: usize) -> usize {
    match firsts.get(place) {
        Some(first) => *first,
        None => place,
    }
}

// The place of the first part of a node.
fn first_part(node: &Node) -> Option<usize> {
    match node {
        Node::Build { children, .. } => first_of(children.as_slice()),
        Node::Call { arguments, .. } => first_of(arguments.as_slice()),
        Node::If { condition, .. } => Some(*condition),
        _ => None,
    }
}

// The first of some places.
fn first_of(places: &[usize]) -> Option<usize> {
    match places.first() {
        Some(place) => Some(*place),
        None => None,
    }
}

// How many nodes come before the node at a place in the order of the file: those before its first part, and those that it is in.
fn number_of(firsts: &[usize], at: usize) -> usize {
    let first = first_at(firsts, at);
    let mut number = first;
    'nodes: for place in at.saturating_add(1)..firsts.len() {
        if firsts[place] <= first {
            number = number.saturating_add(1);
        }
    }
    number
}

// What was met of an expression in a file.
#[derive(Clone, Copy)]
struct Met {
    // Whether the expression has begun.
    begun: bool,
    // Whether the next token belongs to the one before.
    joined: bool,
    // How many nodes are still to come before the one that is looked for.
    left: usize,
}

// The place of the token with which the node of this number begins.
fn token_place(
    alloc: Global,
    contents: &[u8],
    offset: usize,
    number: usize,
) -> Result<usize, AllocError> {
    let mut met = Met {
        begun: false,
        joined: false,
        left: number,
    };
    let mut from = offset;
    'tokens: for _ in 0..contents.len() {
        if from > contents.len() {
            return Ok(offset);
        }
        match next_token(alloc, contents, from, Dialect::FormatOne)? {
            Next::Found(placed) => {
                let begins = met.begun && !met.joined && begins_node(&placed.token);
                if begins && met.left == 0 {
                    return Ok(placed.at);
                }
                met = met_after(met, begins, &placed.token);
                from = placed.end;
            }
            _ => return Ok(offset),
        }
    }
    Ok(offset)
}

// What was met once this token is, too.
fn met_after(met: Met, begins: bool, token: &Token) -> Met {
    Met {
        begun: met.begun || begins_expression(token),
        joined: joins_next(token),
        left: if begins {
            met.left.saturating_sub(1)
        } else {
            met.left
        },
    }
}

// Whether the expression of an equation comes after this token.
fn begins_expression(token: &Token) -> bool {
    matches!(
        token,
        Token::Punctuation(Punctuation::Equals) | Token::Word(Word::To)
    )
}

// Whether the token after this one is no node's first.
fn joins_next(token: &Token) -> bool {
    matches!(
        token,
        Token::Punctuation(Punctuation::Dot) | Token::Punctuation(Punctuation::At)
    )
}

// Whether a node can begin with this token.
fn begins_node(token: &Token) -> bool {
    matches!(
        token,
        Token::Name(_)
            | Token::Int(_)
            | Token::Text(_)
            | Token::Punctuation(Punctuation::At)
            | Token::Word(Word::True | Word::False | Word::If | Word::Top | Word::Forward)
    )
}
