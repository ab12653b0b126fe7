//! How is the tree written that a parser builds by shifts and reductions?
//!
//! They are gone over from right to left, as a rightmost derivation is, so that each node's children come after its closing bracket.

use crate::Piece;
use crate::least::Choice;
use crate::symbols::length_of;
use std::alloc::{AllocError, Global};
use wb_base::{Grammar, Symbol};

// What a parser does. A nonterminal is shifted as its least tree.
#[derive(Clone, Copy)]
pub(crate) enum Task {
    // It shifts this symbol.
    Shift(Symbol),
    // It reduces by this production.
    Reduce(usize),
}

// A node whose children aren't all written yet.
#[derive(Clone, Copy)]
struct Frame {
    production: usize,
    left: usize,
}

// What is still to be written of a least tree.
#[derive(Clone, Copy)]
enum Todo {
    // The tree of this symbol.
    Tree(Symbol),
    // This production and an opening bracket.
    Node(usize),
}

// The most pieces of a tree.
const MOST: usize = 10_000;

// Puts what is written of these tasks into an empty list.
pub(crate) fn put_pieces(
    alloc: Global,
    grammar: &Grammar,
    choices: &[Choice],
    tasks: &[Task],
    pieces: &mut Vec<Piece>,
) -> Result<(), AllocError> {
    let mut frames = Vec::new(alloc);
    let answer = push_tasks(grammar, choices, tasks, pieces, &mut frames);
    drop(frames);
    pieces.reverse();
    answer
}

// Appends it from right to left.
fn push_tasks(
    grammar: &Grammar,
    choices: &[Choice],
    tasks: &[Task],
    pieces: &mut Vec<Piece>,
    frames: &mut Vec<Frame>,
) -> Result<(), AllocError> {
    'tasks: for after in 0..tasks.len() {
        match tasks[tasks.len() - 1 - after] {
            Task::Shift(symbol) => {
                push_least(grammar, choices, symbol, pieces)?;
                end_child(pieces, frames)?;
            }
            Task::Reduce(production) => push_node(grammar, production, pieces, frames)?,
        }
    }
    Ok(())
}

// Appends the closing bracket of a node.
fn push_node(
    grammar: &Grammar,
    production: usize,
    pieces: &mut Vec<Piece>,
    frames: &mut Vec<Frame>,
) -> Result<(), AllocError> {
    pieces.push(Piece::Close)?;
    let left = length_of(grammar, production);
    if left > 0 {
        frames.push(Frame { production, left })?;
        return Ok(());
    }
    pieces.push(Piece::Open(production))?;
    end_child(pieces, frames)
}

// Counts a child that is written, and opens each node whose children all are.
fn end_child(pieces: &mut Vec<Piece>, frames: &mut Vec<Frame>) -> Result<(), AllocError> {
    'frames: for _ in 0..MOST {
        let Some(mut frame) = frames.pop() else {
            break;
        };
        frame.left = frame.left.saturating_sub(1);
        if frame.left > 0 {
            frames.push(frame)?;
            break;
        }
        pieces.push(Piece::Open(frame.production))?;
    }
    Ok(())
}

// Appends the least tree of a symbol, from right to left.
fn push_least(
    grammar: &Grammar,
    choices: &[Choice],
    symbol: Symbol,
    pieces: &mut Vec<Piece>,
) -> Result<(), AllocError> {
    let mut todo = Vec::new(*pieces.allocator());
    let answer = push_todo(grammar, choices, symbol, pieces, &mut todo);
    drop(todo);
    answer
}

// The same, with a worklist.
fn push_todo(
    grammar: &Grammar,
    choices: &[Choice],
    symbol: Symbol,
    pieces: &mut Vec<Piece>,
    todo: &mut Vec<Todo>,
) -> Result<(), AllocError> {
    todo.push(Todo::Tree(symbol))?;
    'trees: for _ in 0..MOST {
        match todo.pop() {
            Some(Todo::Tree(Symbol::Terminal(terminal))) => pieces.push(Piece::Leaf(terminal))?,
            Some(Todo::Tree(Symbol::Nonterminal(number))) => {
                if let Some(choice) = choices.get(number) {
                    pieces.push(Piece::Close)?;
                    push_children(grammar, choice.production, todo)?;
                }
            }
            Some(Todo::Node(production)) => pieces.push(Piece::Open(production))?,
            None => break,
        }
    }
    Ok(())
}

// Adds a node and its children to the worklist, the last child on top.
fn push_children(
    grammar: &Grammar,
    production: usize,
    todo: &mut Vec<Todo>,
) -> Result<(), AllocError> {
    todo.push(Todo::Node(production))?;
    if production < grammar.productions() {
        'symbols: for &symbol in grammar.right(production) {
            todo.push(Todo::Tree(symbol))?;
        }
    }
    Ok(())
}
