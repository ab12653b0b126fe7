//! What does a format give so that its texts can be read?
//!
//! A trait, so that the parser is proved once for all formats. What a table's test computes is in `specs/Entries.antt`; `nested` is a
//! small example.

ghost use Rattle.std.specs.Prelude.{◌≡◌, ◌≤◌, ◌<◌, ℕ, true, false, length, IfOk, OnOk};
ghost use Rattle.wb_text_predictive.specs.Rules.{rights_of, kinds_of};

use crate::symbol::Rule;
use std::alloc::{AllocError, Global};

/// A token with its place in a text, in bytes.
#[derive(Drop)]
pub struct Placed<X> {
    pub token: X,
    /// The place of its first byte.
    pub at: usize,
    /// The place after its last byte.
    pub end: usize,
}

/// What is next after a place of a text, once layout is skipped.
#[derive(Drop)]
pub enum Next<X> {
    /// A token.
    Found(Placed<X>),
    /// The end of the text. The error of a text that ends too early is at this place.
    End { at: usize },
    /// Bytes that no token begins, from this place on.
    NoToken { at: usize },
}

/// A format of texts: its tokens, its grammar with what is made of a text, and what decides between
/// right sides.
///
/// The types are a crate's own: enums of kinds, nonterminals and actions, a type of tokens, and a
/// type of the values that a reading makes. The kind of the end is a kind that no right side names,
/// so a text that ends too early has its error like any other. The members below the functions are
/// facts that an impl proves; `decided` and `ends` compute.
pub trait Table {
    ghost use Rattle.std.specs.Prelude.{List, Bool, ◌↔◌};
    ghost use Rattle.wb_text_predictive.specs.declared.table.Next.{Next};
    ghost use Rattle.wb_text_predictive.specs.declared.table.Next.TheVariants.{Found};
    ghost use Rattle.wb_text_predictive.specs.declared.table.Placed.{Placed};
    ghost use Rattle.wb_text_predictive.specs.Grammar.{Grammar};
    ghost use Rattle.wb_text_predictive.specs.Entries.{Entry, is_decided};
    ghost use Rattle.wb_text_predictive.specs.Kinds.{is_member};

    /// The kinds of tokens, and one more for the end of a text.
    type Kind: Copy + PartialEq;
    /// The nonterminals.
    type Nonterminal: Copy;
    /// The actions.
    type Action: Copy;
    /// The tokens.
    type Token: Drop;
    /// What a reading makes: a stack or a builder that tokens and actions change.
    type Values: Drop;

    /// The grammar, and what it makes of a text.
    ghost grammar: { Grammar Self.Kind Self.Nonterminal Self.Action Self.Token Self.Values };

    /// The kind of the end.
    ghost end_kind: { Self.Kind };

    /// What is given of each nonterminal, and only checked.
    ghost entries: { Self.Nonterminal → Entry Self.Kind };

    /// By the table, this is next after a place of the text.
    ghost IsNext: { Self → List ℕ → ℕ → Next Self.Token → Type 0 };

    /// The nonterminal that derives whole texts.
    fn start(&self) -> Self::Nonterminal
        ensures { result ≡ grammar.start };

    /// The kind of the end.
    fn end(&self) -> Self::Kind
        ensures { result ≡ end_kind };

    /// The kind of a token.
    fn kind(&self, token: &Self::Token) -> Self::Kind
        ensures { result ≡ grammar.kind_of token.now };

    /// The rules of a nonterminal, in the grammar's order.
    fn rules(
        &self,
        nonterminal: Self::Nonterminal,
    ) -> &[Rule<'_, Self::Kind, Self::Nonterminal, Self::Action>]
        ensures rights { rights_of result.now ≡ grammar.rights nonterminal }
        ensures kinds { let entry = entries nonterminal in kinds_of result.now ≡ entry.kinds };

    /// What is next after a place.
    fn next(&self, alloc: Global, text: &[u8], from: usize) -> Result<Next<Self::Token>, AllocError>
        requires { from ≤ length text.now }
        ensures ok { IfOk result (λ next. IsNext self.now text.now from next) };

    /// Changes the values by a token, which begins at `at` and ends before `end`. If memory runs out, the values may be anything.
    fn shift(
        &self,
        alloc: Global,
        token: Self::Token,
        at: usize,
        end: usize,
        values: &mut Self::Values,
    ) -> Result<(), AllocError>
        ensures ok { OnOk result (values.new ≡ grammar.shift token at end values.old) };

    /// Changes the values by an action. If memory runs out, the values may be anything.
    fn act(
        &self,
        alloc: Global,
        action: Self::Action,
        values: &mut Self::Values,
    ) -> Result<(), AllocError>
        ensures ok { OnOk result (values.new ≡ grammar.act action values.old) };

    /// Kinds are equal exactly where they are one value.
    ghost same: { (a b : Self.Kind) → (Self.Kind.eq a b ≡ true) ↔ (a ≡ b) };

    /// Each kind but the end has a token.
    ghost sampled: { (kind : Self.Kind) → Self.Kind.eq kind end_kind ≡ false →
        (token : Self.Token) × (grammar.kind_of token ≡ kind) };

    /// One thing is next.
    ghost one_next: { (table : Self) (text : List ℕ) (from : ℕ) (a b : Next Self.Token) →
        IsNext table text from a → IsNext table text from b → a ≡ b };

    /// A token ends after the place and within the text.
    ghost advances: { (table : Self) (text : List ℕ) (from : ℕ) (x : Placed Self.Token) → from ≤ length text →
        IsNext table text from (Found x) → (from < x.end) × (x.end ≤ length text) };

    /// One token of lookahead decides between the right sides of each nonterminal.
    ghost decided: { (n : Self.Nonterminal) →
        is_decided Self.Kind.eq end_kind entries grammar.rights n ≡ true };

    /// The end can follow what the start derives.
    ghost ends: { let entry = entries grammar.start in
        is_member Self.Kind.eq end_kind entry.follow ≡ true };
}
