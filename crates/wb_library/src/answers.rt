//! What do calls write for C?

ghost use Rattle.std.specs.Prelude.{◌≡◌};
ghost use Rattle.wb_library.specs.Written.{child_of, edit_of, place_of};

use wb_session_library::{Child, Edited, LeafPlace};

/// A child of a node: the node of a number, or a leaf.
#[repr(C)]
#[derive(Clone, Copy)]
pub struct ChildOut {
    /// 0 for a node, 1 for a leaf.
    pub kind: u32,
    pub node: usize,
}

/// Where a leaf lies.
#[repr(C)]
#[derive(Clone, Copy)]
pub struct PlaceOut {
    pub terminal: usize,
    pub begin: usize,
    pub lexeme: usize,
    pub end: usize,
}

/// What an edit took.
#[repr(C)]
#[derive(Clone, Copy)]
pub struct EditOut {
    pub from: usize,
    pub to: usize,
    pub scanned: usize,
    pub built: usize,
    pub kept: usize,
    pub known: usize,
}

// What is written of a child.
pub(crate) fn child_out(child: Child) -> ChildOut
    ensures { result ≡ child_of child }
{
    match child {
        Child::Node(node) => ChildOut { kind: 0, node },
        Child::Leaf => ChildOut { kind: 1, node: 0 },
    }
}

// What is written of a leaf's place.
pub(crate) fn place_out(place: LeafPlace) -> PlaceOut
    ensures { result ≡ place_of place }
{
    PlaceOut {
        terminal: place.terminal,
        begin: place.begin,
        lexeme: place.lexeme,
        end: place.end,
    }
}

// What is written of an edit.
pub(crate) fn edit_out(done: Edited) -> EditOut
    ensures { result ≡ edit_of done }
{
    EditOut {
        from: done.from,
        to: done.to,
        scanned: done.scanned,
        built: done.built,
        kept: done.kept,
        known: done.known,
    }
}
