//! Which names has a file, and as what is each there?
//!
//! The tokens beside a name and the word with which its item begins tell its role. Of a file that isn't in the grammar the roles mean
//! nothing, and nothing goes wrong.

use crate::role::Role;
use std::alloc::{AllocError, Global};
use wb_reader_places::TokenPlace;
use wb_text_tokens::{Punctuation, TokenKind, Word};

/// A name of a file.
#[derive(Clone, Copy)]
pub struct Mention {
    /// The number of its token.
    pub token: usize,
    /// As what it is there.
    pub role: Role,
    /// The word with which its item begins.
    pub item: Word,
    /// The number of the token of the production or aspect that it is in; of a name in a flow type, of the nonterminal.
    pub owner: usize,
}

/// The names of a file, in their order.
pub fn mentions_of(alloc: Global, tokens: &[TokenPlace]) -> Result<Vec<Mention>, AllocError> {
    let mut mentions = Vec::new(alloc);
    match push_mentions(&mut mentions, tokens) {
        Ok(()) => Ok(mentions),
        Err(error) => {
            drop(mentions);
            Err(error)
        }
    }
}

// Appends the names of a file.
fn push_mentions(mentions: &mut Vec<Mention>, tokens: &[TokenPlace]) -> Result<(), AllocError> {
    let mut state = FIRST;
    'tokens: for number in 0..tokens.len() {
        let kind = tokens[number].kind;
        state = state_at(state, kind, number);
        if kind == TokenKind::Name {
            mentions.push(mention_at(state, tokens, number))?;
        }
    }
    Ok(())
}

// What is known of a token by those before it.
#[derive(Clone, Copy)]
struct State {
    // The word with which the item begins.
    item: Word,
    // How many names the item has so far, outside of braces.
    names: usize,
    // The first of them.
    first: usize,
    // The last of them.
    last: usize,
    // Whether it is in braces.
    is_inside: bool,
    // Whether it is on the right of an equation.
    is_value: bool,
}

// What is known before the first token.
static FIRST: State = State {
    item: Word::Format,
    names: 0,
    first: 0,
    last: 0,
    is_inside: false,
    is_value: false,
};

// What is known at a token, itself included.
fn state_at(state: State, kind: TokenKind, number: usize) -> State {
    match kind {
        TokenKind::Word(word) => after_word(state, word),
        TokenKind::Mark(mark) => after_mark(state, mark),
        TokenKind::Name => after_name(state, number),
        _ => state,
    }
}

// What is known at a reserved word.
fn after_word(state: State, word: Word) -> State {
    if state.is_inside || !begins_item(word) {
        return state;
    }
    State {
        item: word,
        names: 0,
        first: 0,
        last: 0,
        is_inside: false,
        is_value: false,
    }
}

// Whether an item or the first line begins with this word.
fn begins_item(word: Word) -> bool {
    for other in &ITEMS {
        if *other == word {
            return true;
        }
    }
    false
}

// The words with which items and first lines begin.
static ITEMS: [Word; 17] = [
    Word::Host,
    Word::Extension,
    Word::Terminal,
    Word::Ignore,
    Word::Marking,
    Word::Concrete,
    Word::Abstract,
    Word::Aspect,
    Word::Prefer,
    Word::Nonterminal,
    Word::Start,
    Word::Extensible,
    Word::Closed,
    Word::Syn,
    Word::Inh,
    Word::Occurs,
    Word::Forward,
];

// What is known at a mark.
fn after_mark(state: State, mark: Punctuation) -> State {
    match mark {
        Punctuation::OpenBrace => in_braces(state, true, false),
        Punctuation::CloseBrace => in_braces(state, false, false),
        Punctuation::Equals => in_braces(state, state.is_inside, true),
        Punctuation::Semicolon => in_braces(state, state.is_inside, false),
        _ => state,
    }
}

// The same, in braces or not, and on the right of an equation or not.
fn in_braces(state: State, is_inside: bool, is_value: bool) -> State {
    State {
        item: state.item,
        names: state.names,
        first: state.first,
        last: state.last,
        is_inside,
        is_value,
    }
}

// What is known at a name.
fn after_name(state: State, number: usize) -> State {
    if state.is_inside {
        return state;
    }
    State {
        item: state.item,
        names: state.names.saturating_add(1),
        first: first_name(state, number),
        last: number,
        is_inside: false,
        is_value: state.is_value,
    }
}

// The first name of the item.
fn first_name(state: State, number: usize) -> usize {
    if state.names == 0 {
        number
    } else {
        state.first
    }
}

// The name that is this token.
fn mention_at(state: State, tokens: &[TokenPlace], number: usize) -> Mention {
    Mention {
        token: number,
        role: role_at(state, tokens, number),
        item: state.item,
        owner: owner_of(state),
    }
}

// The token of the production, or of the nonterminal of a flow type.
fn owner_of(state: State) -> usize {
    if state.item == Word::Occurs || state.item == Word::Forward {
        return state.last;
    }
    state.first
}

// The role of a name, by where it is in its item.
fn role_at(state: State, tokens: &[TokenPlace], number: usize) -> Role {
    if !state.is_inside {
        return item_role(state, tokens, number);
    }
    if state.item == Word::Occurs || state.item == Word::Forward {
        return Role::Needed;
    }
    if state.is_value {
        return value_role(tokens, number);
    }
    target_role(tokens, number)
}

// The role of a name of an item, outside of braces.
fn item_role(state: State, tokens: &[TokenPlace], number: usize) -> Role {
    let is_first = state.names < 2;
    match state.item {
        Word::Extension => either(is_first, Role::Extension, Role::OtherHost),
        Word::Syn => either(is_first, Role::Synthesized, Role::AttributeKind),
        Word::Inh => either(is_first, Role::Inherited, Role::AttributeKind),
        Word::Occurs => either(is_first, Role::Occurring, Role::OccursOn),
        Word::Prefer => either(is_first, Role::Preferred, Role::Second),
        Word::Concrete => production_role(is_first, Role::Concrete, tokens, number),
        Word::Abstract => production_role(is_first, Role::Abstract, tokens, number),
        _ => only_role(state.item),
    }
}

// One role, or the other.
fn either(is_first: bool, first: Role, second: Role) -> Role {
    if is_first { first } else { second }
}

// The role of the only name of an item.
fn only_role(item: Word) -> Role {
    match item {
        Word::Terminal => Role::Terminal,
        Word::Ignore => Role::Ignore,
        Word::Marking => Role::Marking,
        Word::Nonterminal => Role::Nonterminal,
        Word::Start => Role::Start,
        Word::Extensible => Role::Extensible,
        Word::Closed => Role::Closed,
        Word::Forward => Role::ForwardOn,
        Word::Aspect => Role::Aspect,
        _ => Role::Host,
    }
}

// The role of a name of a production, before its equations.
fn production_role(is_first: bool, first: Role, tokens: &[TokenPlace], number: usize) -> Role {
    if is_first {
        return first;
    }
    if !is_mark(before(tokens, number, 1), Punctuation::Colon) {
        return Role::ChildLabel;
    }
    if is_mark(after(tokens, number, 1), Punctuation::Becomes) {
        return Role::Left;
    }
    Role::ChildKind
}

// The role of a name on the left of an equation.
fn target_role(tokens: &[TokenPlace], number: usize) -> Role {
    let previous = before(tokens, number, 1);
    if previous == TokenKind::Word(Word::Local) {
        return Role::LocalLabel;
    }
    if is_mark(previous, Punctuation::Colon) {
        return Role::LocalKind;
    }
    if !is_mark(previous, Punctuation::Dot) {
        return Role::GivenLabel;
    }
    match before(tokens, number, 2) {
        TokenKind::Word(Word::Top) => Role::GivenTop,
        TokenKind::Word(_) => Role::GivenForward,
        _ => Role::Given,
    }
}

// The role of a name on the right of an equation.
fn value_role(tokens: &[TokenPlace], number: usize) -> Role {
    let previous = before(tokens, number, 1);
    if is_mark(previous, Punctuation::At) {
        return Role::Operation;
    }
    if is_mark(previous, Punctuation::Dot) {
        return read_role(before(tokens, number, 2));
    }
    let next = after(tokens, number, 1);
    if is_mark(next, Punctuation::OpenParenthesis) {
        return Role::Build;
    }
    if !is_mark(next, Punctuation::Dot) {
        return Role::Value;
    }
    if after(tokens, number, 2) == TokenKind::Word(Word::Lexeme) {
        return Role::LexemeLabel;
    }
    Role::ReadLabel
}

// The role of an attribute that is read, by what is before the dot.
fn read_role(owner: TokenKind) -> Role {
    match owner {
        TokenKind::Word(Word::Top) => Role::ReadTop,
        TokenKind::Word(_) => Role::ReadForward,
        _ => Role::Read,
    }
}

// Whether a token is this mark.
pub(crate) fn is_mark(kind: TokenKind, mark: Punctuation) -> bool {
    kind == TokenKind::Mark(mark)
}

// The kind of the token so many before another, or the end.
pub(crate) fn before(tokens: &[TokenPlace], number: usize, count: usize) -> TokenKind {
    if number < count {
        return TokenKind::End;
    }
    kind_of(tokens, number - count)
}

/// The kind of the token so many after another, or the end.
pub fn after(tokens: &[TokenPlace], number: usize, count: usize) -> TokenKind {
    kind_of(tokens, number.saturating_add(count))
}

// The kind of a token, or the end.
pub(crate) fn kind_of(tokens: &[TokenPlace], number: usize) -> TokenKind {
    if number < tokens.len() {
        return tokens[number].kind;
    }
    TokenKind::End
}
