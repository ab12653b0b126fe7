//! How are items written?
//!
//! Each form has its tokens in their order; kinds, flow types, children and equations are in `parts`.

ghost use Rattle.std.specs.Prelude.{◌≡◌, [], ◌∷◌, ◌++◌, List, OnOk};
ghost use Rattle.wb_text_tokens.specs.declared.token.Token.{Token};
ghost use Rattle.wb_text_tokens.specs.declared.token.Token.TheVariants as t;
ghost use Rattle.wb_text_tokens.specs.declared.punctuation.Punctuation.TheVariants as p;
ghost use Rattle.wb_text_tokens.specs.declared.word.Word.TheVariants as w;
ghost use Rattle.wb_reader_printer.specs.Inner.Output.{after};
ghost use Rattle.wb_reader_printer.specs.Inner.ItemTokens.{named, pair_tokens, pattern_tokens, attribute_tokens, role_word, production_word, plain_tokens, production_tokens, AreItemTokens};
ghost use Rattle.wb_reader_printer.specs.Inner.PartTokens.{needs_tokens, optional_needs_tokens, block_tokens, AreEquationTokens};

use crate::line::Line;
use crate::parts::{write_block, write_children, write_kind, write_needs};
use std::alloc::{AllocError, Global};
use wb_base::{Bytes, Sequence};
use wb_syntax::{
    Equation, Item, ItemForm, NamedKind, Pattern, PlainForm, Production, ProductionRole, Role,
};
use wb_text_tokens::{Punctuation, Word};

// Writes a word, a name and the end of an item.
pub(crate) fn write_named(line: &mut Line, word: Word, name: &[u8]) -> Result<(), AllocError>
    ensures { OnOk result (line.new ≡ after line.old (named word name.now)) }
{
    line.word(word)?;
    line.name(name)?;
    line.mark(Punctuation::Semicolon)
}

// Writes two words with a name after each, and the end of an item.
pub(crate) fn write_pair(
    line: &mut Line,
    word: Word,
    name: &[u8],
    second_word: Word,
    second: &[u8],
) -> Result<(), AllocError>
    ensures { OnOk result (line.new ≡ after line.old (pair_tokens word name.now second_word second.now)) }
{
    line.word(word)?;
    line.name(name)?;
    write_named(line, second_word, second)
}

// Writes an item with a regular expression.
fn write_pattern(line: &mut Line, word: Word, name: &[u8], bytes: &[u8]) -> Result<(), AllocError>
    ensures { OnOk result (line.new ≡ after line.old (pattern_tokens word name.now bytes.now)) }
{
    line.word(word)?;
    line.name(name)?;
    line.regex(bytes)?;
    line.mark(Punctuation::Semicolon)
}

// Writes an attribute with its kind.
fn write_attribute(
    line: &mut Line,
    word: Word,
    name: &[u8],
    kind: &NamedKind,
) -> Result<(), AllocError>
    ensures { OnOk result (line.new ≡ after line.old (attribute_tokens word name.now kind.now)) }
{
    line.word(word)?;
    line.name(name)?;
    line.mark(Punctuation::Colon)?;
    write_kind(line, kind)?;
    line.mark(Punctuation::Semicolon)
}

// Writes needs where they are written.
fn write_optional_needs(line: &mut Line, needs: &Option<Sequence<Bytes>>) -> Result<(), AllocError>
    ensures { OnOk result (line.new ≡ after line.old (optional_needs_tokens needs.now)) }
{
    match needs {
        Some(names) => write_needs(line, names.as_slice()),
        None => Ok(()),
    }
}

// Writes that an attribute occurs on a nonterminal.
fn write_occurrence(
    line: &mut Line,
    attribute: &[u8],
    nonterminal: &[u8],
    needs: &Option<Sequence<Bytes>>,
) -> Result<(), AllocError>
    ensures { OnOk result (line.new ≡ after line.old (t.Word w.Occurs ∷ t.Name attribute.now ∷ t.Word w.On ∷ t.Name nonterminal.now
        ∷ (optional_needs_tokens needs.now ++ t.Punctuation p.Semicolon ∷ []))) }
{
    line.word(Word::Occurs)?;
    line.name(attribute)?;
    line.word(Word::On)?;
    line.name(nonterminal)?;
    write_optional_needs(line, needs)?;
    line.mark(Punctuation::Semicolon)
}

// Writes the needs of what the productions of a nonterminal forward to.
fn write_forward_on(line: &mut Line, nonterminal: &[u8], needs: &[Bytes]) -> Result<(), AllocError>
    ensures { OnOk result (line.new ≡ after line.old (t.Word w.Forward ∷ t.Word w.On ∷ t.Name nonterminal.now
        ∷ (needs_tokens needs.now ++ t.Punctuation p.Semicolon ∷ []))) }
{
    line.word(Word::Forward)?;
    line.word(Word::On)?;
    line.name(nonterminal)?;
    write_needs(line, needs)?;
    line.mark(Punctuation::Semicolon)
}

// Writes a production after the word that it begins with.
fn write_production(
    alloc: Global,
    line: &mut Line,
    word: Word,
    production: &Production,
) -> Result<(), AllocError>
    requires { (tokens : List Token) × AreEquationTokens production.now.equations tokens }
    ensures { OnOk result ((tokens : List Token) → AreEquationTokens production.now.equations tokens
        → line.new ≡ after line.old (t.Word word ∷ production_tokens production.now tokens)) }
{
    line.word(word)?;
    line.name(production.name.as_slice())?;
    line.mark(Punctuation::Colon)?;
    line.name(production.left.as_slice())?;
    line.mark(Punctuation::Becomes)?;
    write_children(line, production.children.as_slice())?;
    write_block(alloc, line, production.equations.as_slice())
}

// Writes further equations of a production.
fn write_aspect(
    alloc: Global,
    line: &mut Line,
    name: &[u8],
    equations: &[Equation],
) -> Result<(), AllocError>
    requires { (tokens : List Token) × AreEquationTokens equations.now tokens }
    ensures { OnOk result ((tokens : List Token) → AreEquationTokens equations.now tokens
        → line.new ≡ after line.old (t.Word w.Aspect ∷ t.Name name.now ∷ block_tokens tokens)) }
{
    line.word(Word::Aspect)?;
    line.name(name)?;
    write_block(alloc, line, equations)
}

// Writes an item of names alone.
fn write_plain(line: &mut Line, form: &PlainForm) -> Result<(), AllocError>
    ensures { OnOk result (line.new ≡ after line.old (plain_tokens form.now)) }
{
    match form {
        PlainForm::Prefer { first, second } => {
            write_pair(
                line,
                Word::Prefer,
                first.as_slice(),
                Word::Over,
                second.as_slice(),
            )
        }
        PlainForm::Nonterminal(name) => write_named(line, Word::Nonterminal, name.as_slice()),
        PlainForm::Start(name) => write_named(line, Word::Start, name.as_slice()),
        PlainForm::Extensible(name) => write_named(line, Word::Extensible, name.as_slice()),
        PlainForm::Closed(name) => write_named(line, Word::Closed, name.as_slice()),
        PlainForm::Synthesized { name, kind } => {
            write_attribute(line, Word::Syn, name.as_slice(), kind)
        }
        PlainForm::Inherited { name, kind } => {
            write_attribute(line, Word::Inh, name.as_slice(), kind)
        }
        PlainForm::Occurs {
            attribute,
            nonterminal,
            needs,
        } => write_occurrence(line, attribute.as_slice(), nonterminal.as_slice(), needs),
        PlainForm::ForwardOn { nonterminal, needs } => {
            write_forward_on(line, nonterminal.as_slice(), needs.as_slice())
        }
    }
}

// The word of a role.
fn role_word(role: Role) -> Word
    ensures { result ≡ role_word role }
{
    match role {
        Role::Terminal => Word::Terminal,
        Role::Ignore => Word::Ignore,
        Role::Marking => Word::Marking,
    }
}

// The word of a production's role.
fn production_word(role: ProductionRole) -> Word
    ensures { result ≡ production_word role }
{
    match role {
        ProductionRole::Concrete => Word::Concrete,
        ProductionRole::Abstract => Word::Abstract,
    }
}

// Writes an item.
pub(crate) fn write_item(
    alloc: Global,
    line: &mut Line,
    item: &Item<Pattern>,
) -> Result<(), AllocError>
    requires { (tokens : List Token) × AreItemTokens item.now tokens }
    ensures { OnOk result ((tokens : List Token) → AreItemTokens item.now tokens → line.new ≡ after line.old tokens) }
{
    match &item.form {
        ItemForm::Lexical {
            role,
            name,
            pattern,
        } => {
            let bytes = pattern.bytes.as_slice();
            write_pattern(line, role_word(*role), name.as_slice(), bytes)
        }
        ItemForm::Plain(form) => write_plain(line, form),
        ItemForm::Production { role, production } => {
            write_production(alloc, line, production_word(*role), production)
        }
        ItemForm::Aspect { name, equations } => {
            write_aspect(alloc, line, name.as_slice(), equations.as_slice())
        }
    }
}
