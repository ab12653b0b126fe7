//! As what is a name there? What it declares, or what it is used as.

use wb_text_tokens::Word;

/// As what a name is there.
#[derive(Clone, Copy, PartialEq)]
pub enum Role {
    /// The host itself.
    Host,
    /// The extension itself.
    Extension,
    /// The host of an extension.
    OtherHost,
    /// It declares a terminal.
    Terminal,
    /// It declares layout.
    Ignore,
    /// It declares a marker.
    Marking,
    /// It declares a nonterminal.
    Nonterminal,
    /// It declares a synthesized attribute.
    Synthesized,
    /// It declares an inherited attribute.
    Inherited,
    /// It declares a concrete production.
    Concrete,
    /// It declares an abstract production.
    Abstract,
    /// It is the start.
    Start,
    /// It is made extensible.
    Extensible,
    /// It is closed.
    Closed,
    /// It is the production of an aspect.
    Aspect,
    /// It is preferred.
    Preferred,
    /// It is what another terminal is preferred to.
    Second,
    /// The attribute of an occurrence.
    Occurring,
    /// The nonterminal of an occurrence.
    OccursOn,
    /// An attribute of a flow type.
    Needed,
    /// The nonterminal of a flow type of forwards.
    ForwardOn,
    /// The kind of an attribute.
    AttributeKind,
    /// The left side of a production.
    Left,
    /// The label of a child.
    ChildLabel,
    /// The kind of a child.
    ChildKind,
    /// The label of a local.
    LocalLabel,
    /// The kind of a local.
    LocalKind,
    /// An attribute of the left side that is given.
    GivenTop,
    /// An attribute of the forwarded tree that is given.
    GivenForward,
    /// The label of a tree to which an attribute is given.
    GivenLabel,
    /// The attribute that is given to it.
    Given,
    /// An attribute of the left side that is read.
    ReadTop,
    /// An attribute of the forwarded tree that is read.
    ReadForward,
    /// The label of a tree of which an attribute is read.
    ReadLabel,
    /// The attribute that is read of it.
    Read,
    /// The label of a child whose text is read.
    LexemeLabel,
    /// A label as a value.
    Value,
    /// A production of which a tree is made.
    Build,
    /// An operation.
    Operation,
}

/// Whether a name of this role is in an equation.
pub fn is_given(role: Role) -> bool {
    role == Role::GivenTop || role == Role::GivenForward || role == Role::Given
}

// Whether an attribute is read by a name of this role.
pub(crate) fn is_read(role: Role) -> bool {
    role == Role::ReadTop || role == Role::ReadForward || role == Role::Read
}

/// Whether a label is used by a name of this role.
pub fn is_label_use(role: Role) -> bool {
    match role {
        Role::GivenLabel => true,
        Role::ReadLabel => true,
        Role::LexemeLabel => true,
        Role::Value => true,
        _ => false,
    }
}

/// Whether a label is declared by a name of this role.
pub fn is_label(role: Role) -> bool {
    role == Role::ChildLabel || role == Role::LocalLabel
}

/// Whether a production is declared by a name of this role.
pub fn is_production(role: Role) -> bool {
    role == Role::Concrete || role == Role::Abstract
}

/// Whether an attribute is declared by a name of this role.
pub fn is_attribute(role: Role) -> bool {
    role == Role::Synthesized || role == Role::Inherited
}

/// Whether something other than an attribute or a label is declared by a name of this role.
pub fn is_symbol(role: Role) -> bool {
    match role {
        Role::Terminal => true,
        Role::Ignore => true,
        Role::Marking => true,
        Role::Nonterminal => true,
        Role::Concrete => true,
        Role::Abstract => true,
        _ => false,
    }
}

/// What a place for a name of this role asks for.
#[derive(Clone, Copy, PartialEq)]
pub enum Wanted {
    /// Nothing: the name declares something there, or names a file, a label or an operation.
    Nothing,
    /// A nonterminal.
    Nonterminal,
    /// A terminal, a marker or a nonterminal.
    Symbol,
    /// A terminal, a marker or layout.
    Lexical,
    /// A production.
    Production,
    /// An attribute.
    Attribute,
    /// A synthesized attribute.
    Synthesized,
    /// An inherited attribute.
    Inherited,
}

/// What the place of a name asks for, by its role and by the word of its item.
pub fn wanted_by(role: Role, item: Word) -> Wanted {
    match role {
        Role::ChildKind => child_wanted(item),
        Role::Preferred => Wanted::Lexical,
        Role::Second => Wanted::Lexical,
        Role::Aspect => Wanted::Production,
        Role::Build => Wanted::Production,
        _ => attribute_wanted(role),
    }
}

// What the kind of a child is.
fn child_wanted(item: Word) -> Wanted {
    if item == Word::Concrete {
        return Wanted::Symbol;
    }
    Wanted::Nonterminal
}

// What a place of an attribute or of a nonterminal asks for.
fn attribute_wanted(role: Role) -> Wanted {
    match role {
        Role::Occurring => Wanted::Attribute,
        Role::GivenTop => Wanted::Synthesized,
        Role::Read => Wanted::Synthesized,
        Role::ReadForward => Wanted::Synthesized,
        Role::Given => Wanted::Inherited,
        Role::GivenForward => Wanted::Inherited,
        Role::ReadTop => Wanted::Inherited,
        Role::Needed => Wanted::Inherited,
        _ => nonterminal_wanted(role),
    }
}

// What a place of a nonterminal asks for.
fn nonterminal_wanted(role: Role) -> Wanted {
    match role {
        Role::Start => Wanted::Nonterminal,
        Role::Extensible => Wanted::Nonterminal,
        Role::Closed => Wanted::Nonterminal,
        Role::OccursOn => Wanted::Nonterminal,
        Role::ForwardOn => Wanted::Nonterminal,
        Role::AttributeKind => Wanted::Nonterminal,
        Role::Left => Wanted::Nonterminal,
        Role::LocalKind => Wanted::Nonterminal,
        _ => Wanted::Nothing,
    }
}

/// Whether a place that wants this asks for an attribute.
pub fn wants_attribute(wanted: Wanted) -> bool {
    wanted == Wanted::Attribute || wanted == Wanted::Synthesized || wanted == Wanted::Inherited
}

/// Whether what is declared so may be where this is wanted.
pub fn suits(wanted: Wanted, role: Role) -> bool {
    match wanted {
        Wanted::Nothing => false,
        Wanted::Nonterminal => role == Role::Nonterminal,
        Wanted::Symbol => {
            role == Role::Nonterminal || role == Role::Terminal || role == Role::Marking
        }
        Wanted::Lexical => role == Role::Terminal || role == Role::Marking || role == Role::Ignore,
        Wanted::Production => is_production(role),
        Wanted::Attribute => is_attribute(role),
        Wanted::Synthesized => role == Role::Synthesized,
        Wanted::Inherited => role == Role::Inherited,
    }
}

/// What is wanted, in words.
pub fn wanted_words(wanted: Wanted) -> &'static str {
    match wanted {
        Wanted::Nothing => "something else",
        Wanted::Nonterminal => "a nonterminal",
        Wanted::Symbol => "a terminal, a marker or a nonterminal",
        Wanted::Lexical => "a terminal",
        Wanted::Production => "a production",
        Wanted::Attribute => "an attribute",
        Wanted::Synthesized => "a synthesized attribute",
        Wanted::Inherited => "an inherited attribute",
    }
}

/// What a name of this role declares, in words.
pub fn declared_words(role: Role) -> &'static str {
    match role {
        Role::Terminal => "a terminal",
        Role::Ignore => "layout",
        Role::Marking => "a marker",
        Role::Nonterminal => "a nonterminal",
        Role::Synthesized => "a synthesized attribute",
        Role::Inherited => "an inherited attribute",
        Role::Concrete => "a concrete production",
        Role::Abstract => "an abstract production",
        _ => "something else",
    }
}
