//! What is a right side of a grammar made of?
//!
//! Tables keep rules in statics, so a rule borrows its kinds and its symbols. Which rules a table has to have is in `table`.

/// A symbol of a right side: `K` are the kinds of tokens, `N` the nonterminals, `A` the actions.
#[derive(Clone, Copy)]
pub enum Symbol<K, N, A> {
    /// A token of this kind.
    Token(K),
    /// What this nonterminal derives.
    Nonterminal(N),
    /// No token: here this action is done on the values that were made so far.
    Act(A),
}

/// A right side of a nonterminal, as a table keeps it.
pub struct Rule<'a, K, N, A> {
    /// It is chosen where the next token has one of these kinds, the kind of the end among them
    /// where the text may end. No order matters.
    pub kinds: &'a [K],
    /// Its symbols, from left to right.
    pub right: &'a [Symbol<K, N, A>],
}
