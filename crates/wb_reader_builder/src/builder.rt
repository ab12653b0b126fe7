//! What is read of a specification so far?
//!
//! Whole items in a list, and on stacks what an action will put together. Reserved words are read in `items`, since a place is kept of
//! those that begin one.

ghost use Rattle.std.specs.Prelude.{◌≡◌, OnOk};
ghost use Rattle.wb_reader_builder.specs.Builder.{empty, written_of, with_name, with_start, with_integer, with_text, with_pattern};

use std::alloc::{AllocError, Global};
use std::mem::replace;
use wb_base::{Bytes, List, Sequence, Stack};
use wb_syntax::{
    Child, Equation, Header, Item, NamedKind, Node, Production, Target, WrittenPattern, WrittenSpec,
};

/// A name, with the place of its first byte.
#[derive(Drop)]
pub struct PlacedBytes {
    /// The name.
    pub bytes: Bytes,
    /// The place, in bytes from the beginning of the file.
    pub at: usize,
}

/// What an equation is for, with the place of its first token.
#[derive(Drop)]
pub struct PlacedTarget {
    /// What the equation is for.
    pub target: Target,
    /// The place, in bytes from the beginning of the file.
    pub at: usize,
}

/// The parts of a specification. What is read first is taken last.
pub struct SpecBuilder {
    /// Names.
    pub names: Stack<PlacedBytes>,
    /// The places of words with which items, equations and reads begin.
    pub starts: Stack<usize>,
    /// Integers.
    pub integers: Stack<i64>,
    /// Strings.
    pub texts: Stack<Bytes>,
    /// Regular expressions, by the bytes between their slashes; the place is that of the first slash.
    pub patterns: Stack<WrittenPattern>,
    /// Kinds.
    pub kinds: Stack<NamedKind>,
    /// Lists of names.
    pub lists: Stack<List<Bytes>>,
    /// Flow types, where they are written.
    pub needs: Stack<Option<Sequence<Bytes>>>,
    /// Lists of children.
    pub children: Stack<List<Child>>,
    /// What equations are for.
    pub targets: Stack<PlacedTarget>,
    /// The nodes of expressions.
    pub nodes: Stack<List<Node>>,
    /// The places of parts of an expression among its nodes.
    pub roots: Stack<usize>,
    /// Lists of such places: the children of a tree, or an operation's arguments.
    pub arguments: Stack<List<usize>>,
    /// Lists of equations.
    pub equations: Stack<List<Equation>>,
    /// Productions.
    pub productions: Stack<Production>,
    /// The number of the format, and 0 before it is read.
    pub format: u32,
    /// The specification's name, and nothing before it is read.
    pub name: Bytes,
    /// The last header.
    pub header: Header,
    /// The whole items, in order.
    pub items: List<Item<WrittenPattern>>,
}

impl SpecBuilder {
    /// No parts.
    pub fn new(alloc: Global) -> SpecBuilder
        ensures { result ≡ empty }
    {
        SpecBuilder {
            names: Stack::new(alloc),
            starts: Stack::new(alloc),
            integers: Stack::new(alloc),
            texts: Stack::new(alloc),
            patterns: Stack::new(alloc),
            kinds: Stack::new(alloc),
            lists: Stack::new(alloc),
            needs: Stack::new(alloc),
            children: Stack::new(alloc),
            targets: Stack::new(alloc),
            nodes: Stack::new(alloc),
            roots: Stack::new(alloc),
            arguments: Stack::new(alloc),
            equations: Stack::new(alloc),
            productions: Stack::new(alloc),
            format: 0,
            name: Bytes::empty(),
            header: Header::Host,
            items: List::new(alloc),
        }
    }

    /// A name was read at this place.
    pub fn read_name(&mut self, bytes: Bytes, at: usize) -> Result<(), AllocError>
        ensures ok { OnOk result (self.new ≡ with_name bytes at self.old) }
    {
        self.names.push(PlacedBytes { bytes, at })
    }

    // A word that may begin an item, an equation or a read was read at this place.
    pub(crate) fn read_start(&mut self, at: usize) -> Result<(), AllocError>
        ensures ok { OnOk result (self.new ≡ with_start at self.old) }
    {
        self.starts.push(at)
    }

    /// An integer was read.
    pub fn read_integer(&mut self, value: i64) -> Result<(), AllocError>
        ensures ok { OnOk result (self.new ≡ with_integer value self.old) }
    {
        self.integers.push(value)
    }

    /// A string was read.
    pub fn read_text(&mut self, text: Bytes) -> Result<(), AllocError>
        ensures ok { OnOk result (self.new ≡ with_text text self.old) }
    {
        self.texts.push(text)
    }

    /// A regular expression was read at this place.
    pub fn read_pattern(&mut self, bytes: Bytes, at: usize) -> Result<(), AllocError>
        ensures ok { OnOk result (self.new ≡ with_pattern bytes at self.old) }
    {
        self.patterns.push(WrittenPattern { bytes, at })
    }

    /// The specification of the whole parts, which are taken out.
    pub fn take_written(&mut self, alloc: Global) -> WrittenSpec
        ensures { result ≡ written_of self.old }
    {
        let name = replace(&mut self.name, Bytes::empty());
        let header = replace(&mut self.header, Header::Host);
        let items = replace(&mut self.items, List::new(alloc));
        WrittenSpec {
            format: self.format,
            name,
            header,
            items: items.into_sequence(),
        }
    }
}

impl Drop for SpecBuilder {
    fn drop(self) {
        let SpecBuilder {
            names,
            starts,
            integers,
            texts,
            patterns,
            kinds,
            lists,
            needs,
            children,
            targets,
            nodes,
            roots,
            arguments,
            equations,
            productions,
            format: _,
            name,
            header,
            items,
        } = self;
        drop(names);
        drop(starts);
        drop(integers);
        drop(texts);
        drop(patterns);
        drop(kinds);
        drop(lists);
        drop(needs);
        drop(children);
        drop(targets);
        drop(nodes);
        drop(roots);
        drop(arguments);
        drop(equations);
        drop(productions);
        drop(name);
        drop(header);
        drop(items);
    }
}
