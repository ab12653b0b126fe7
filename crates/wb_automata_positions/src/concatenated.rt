//! The nodes of several expressions, one after the other in one list: so a position belongs to one expression.

ghost use Rattle.std.specs.Prelude.{◌≡◌, ◌^◌, ◌<◌, ◌++◌, IfOk, length, map};
ghost use Rattle.wb_automata_positions.specs.Inner.Parts.{AreParts, PartsBelow};
ghost use Rattle.wb_automata_positions.specs.Inner.Concatenated.{AreConcatenated, AreAdded, raised};

use std::alloc::{AllocError, Global};
use wb_base::push;
use wb_regex::{Regex, RegexNode};

// All nodes, and the place of the last node of each expression.
#[derive(Drop)]
pub(crate) struct Concatenated {
    pub(crate) nodes: Vec<RegexNode>,
    pub(crate) roots: Vec<usize>,
}

pub(crate) fn concatenate(alloc: Global, terminals: &[Regex]) -> Result<Concatenated, AllocError>
    ensures { IfOk result (λ j. AreConcatenated terminals.now j.nodes.items j.roots.items (length terminals.now)) }
{
    let mut nodes = Vec::new(alloc);
    let mut roots = Vec::new(alloc);
    for regex in terminals {
        let root = add_nodes(&mut nodes, regex)?;
        push(&mut roots, root)?;
    }
    Ok(Concatenated { nodes, roots })
}

// Puts the nodes of an expression after the others, and answers the place of its last node.
fn add_nodes(nodes: &mut Vec<RegexNode>, regex: &Regex) -> Result<usize, AllocError>
    ensures { IfOk result (λ root. AreAdded nodes.old.items nodes.new.items regex.now root) }
{
    let more = regex.nodes();
    add_raised(nodes, more)?;
    Ok(nodes.len() - 1)
}

fn add_raised(nodes: &mut Vec<RegexNode>, more: &[RegexNode]) -> Result<(), AllocError>
    requires parts { AreParts more.now }
    ensures { IfOk result (λ _. nodes.new.items ≡ nodes.old.items ++ map (raised (length nodes.old.items)) more.now) }
{
    let start = nodes.len();
    for node in more {
        push(nodes, raised(start, *node))?;
    }
    Ok(())
}

fn raised(start: usize, node: RegexNode) -> RegexNode
    requires start { start < 2 ^ 63 }
    requires parts { PartsBelow (2 ^ 63) node }
    ensures { result ≡ raised start node }
{
    match node {
        RegexNode::Set(words) => RegexNode::Set(words),
        RegexNode::Sequence(i, j) => RegexNode::Sequence(start + i, start + j),
        RegexNode::Choice(i, j) => RegexNode::Choice(start + i, start + j),
        RegexNode::Star(i) => RegexNode::Star(start + i),
        RegexNode::Plus(i) => RegexNode::Plus(start + i),
        RegexNode::Maybe(i) => RegexNode::Maybe(start + i),
    }
}
