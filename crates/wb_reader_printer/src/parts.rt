//! How are kinds, names, children and equations written?
//!
//! Each has its tokens in their order. Expressions are in `expressions`.

ghost use Rattle.std.specs.Prelude.{◌≡◌, [], ◌∷◌, ◌++◌, List, OnOk};
ghost use Rattle.wb_syntax.specs.declared.expression.Target.TheVariants as g;
ghost use Rattle.wb_syntax.specs.Expression.{Expression};
ghost use Rattle.wb_syntax_expressions.specs.Expression.{nodes_of};
ghost use Rattle.wb_text_tokens.specs.declared.token.Token.{Token};
ghost use Rattle.wb_text_tokens.specs.declared.token.Token.TheVariants as t;
ghost use Rattle.wb_text_tokens.specs.declared.punctuation.Punctuation.TheVariants as p;
ghost use Rattle.wb_reader_printer.specs.Inner.Output.{put, after};
ghost use Rattle.wb_reader_printer.specs.Inner.ExpressionTokens.{expression_tokens};
ghost use Rattle.wb_reader_printer.specs.Inner.PartTokens.{kind_token, further_names, names_tokens, needs_tokens, children_tokens, target_tokens, AreEquationTokens, block_tokens};

use crate::expressions::write_expression;
use crate::line::Line;
use std::alloc::{AllocError, Global};
use wb_base::Bytes;
use wb_syntax::{Child, Equation, NamedKind, Target};
use wb_text_tokens::{Punctuation, Word};

// Writes a kind.
pub(crate) fn write_kind(line: &mut Line, kind: &NamedKind) -> Result<(), AllocError>
    ensures { OnOk result (line.new ≡ put line.old (kind_token kind.now)) }
{
    match kind {
        NamedKind::Int => line.word(Word::Int),
        NamedKind::Bool => line.word(Word::Bool),
        NamedKind::Text => line.word(Word::Text),
        NamedKind::Name(name) => line.name(name.as_slice()),
    }
}

// Writes names with a comma before each.
fn write_further_names(line: &mut Line, names: &[Bytes]) -> Result<(), AllocError>
    ensures { OnOk result (line.new ≡ after line.old (further_names names.now)) }
{
    'names: for name in names {
        line.mark(Punctuation::Comma)?;
        line.name(name.as_slice())?;
    }
    Ok(())
}

// Writes names with commas between them.
fn write_names(line: &mut Line, names: &[Bytes]) -> Result<(), AllocError>
    ensures { OnOk result (line.new ≡ after line.old (names_tokens names.now)) }
{
    match names {
        [] => Ok(()),
        [first, others @ ..] => {
            line.name(first.as_slice())?;
            write_further_names(line, others)
        }
    }
}

// Writes the needs of these names.
pub(crate) fn write_needs(line: &mut Line, names: &[Bytes]) -> Result<(), AllocError>
    ensures { OnOk result (line.new ≡ after line.old (needs_tokens names.now)) }
{
    line.word(Word::Needs)?;
    line.mark(Punctuation::OpenBrace)?;
    write_names(line, names)?;
    line.mark(Punctuation::CloseBrace)
}

// Writes the children of a production.
pub(crate) fn write_children(line: &mut Line, children: &[Child]) -> Result<(), AllocError>
    ensures { OnOk result (line.new ≡ after line.old (children_tokens children.now)) }
{
    'children: for child in children {
        line.name(child.label.as_slice())?;
        line.mark(Punctuation::Colon)?;
        write_kind(line, &child.kind)?;
    }
    Ok(())
}

// Writes an attribute of what comes before it, and what comes before its expression.
fn write_assigned(line: &mut Line, attribute: &[u8]) -> Result<(), AllocError>
    ensures { OnOk result (line.new ≡ after line.old (t.Punctuation p.Dot ∷ t.Name attribute.now ∷ t.Punctuation p.Equals ∷ [])) }
{
    line.mark(Punctuation::Dot)?;
    line.name(attribute)?;
    line.mark(Punctuation::Equals)
}

// Writes what comes before the expression of an equation.
fn write_target(line: &mut Line, target: &Target) -> Result<(), AllocError>
    ensures { OnOk result (line.new ≡ after line.old (target_tokens target.now)) }
{
    match target {
        Target::Top(attribute) => {
            line.word(Word::Top)?;
            write_assigned(line, attribute.as_slice())
        }
        Target::Label { label, attribute } => {
            line.name(label.as_slice())?;
            write_assigned(line, attribute.as_slice())
        }
        Target::Forward(attribute) => {
            line.word(Word::Forward)?;
            write_assigned(line, attribute.as_slice())
        }
        Target::Local { label, nonterminal } => {
            write_local(line, label.as_slice(), nonterminal.as_slice())
        }
        Target::ForwardsTo => {
            line.word(Word::Forwards)?;
            line.word(Word::To)
        }
    }
}

// Writes what comes before the tree of a local.
fn write_local(line: &mut Line, label: &[u8], nonterminal: &[u8]) -> Result<(), AllocError>
    ensures { OnOk result (line.new ≡ after line.old (target_tokens (g.Local label.now nonterminal.now))) }
{
    line.word(Word::Local)?;
    line.name(label)?;
    line.mark(Punctuation::Colon)?;
    line.name(nonterminal)?;
    line.mark(Punctuation::Equals)
}

// Writes an equation.
fn write_equation(alloc: Global, line: &mut Line, equation: &Equation) -> Result<(), AllocError>
    requires { (e : Expression) × (equation.now.nodes ≡ nodes_of e) }
    ensures { OnOk result ((e : Expression) → equation.now.nodes ≡ nodes_of e
        → line.new ≡ put (after (after line.old (target_tokens equation.now.target)) (expression_tokens e)) (t.Punctuation p.Semicolon)) }
{
    write_target(line, &equation.target)?;
    write_expression(alloc, line, equation.nodes.as_slice())?;
    line.mark(Punctuation::Semicolon)
}

// Writes equations.
fn write_equations(alloc: Global, line: &mut Line, equations: &[Equation]) -> Result<(), AllocError>
    requires { (tokens : List Token) × AreEquationTokens equations.now tokens }
    ensures { OnOk result ((tokens : List Token) → AreEquationTokens equations.now tokens → line.new ≡ after line.old tokens) }
{
    'equations: for equation in equations {
        write_equation(alloc, line, equation)?;
    }
    Ok(())
}

// Writes equations with their braces.
pub(crate) fn write_block(
    alloc: Global,
    line: &mut Line,
    equations: &[Equation],
) -> Result<(), AllocError>
    requires { (tokens : List Token) × AreEquationTokens equations.now tokens }
    ensures { OnOk result ((tokens : List Token) → AreEquationTokens equations.now tokens → line.new ≡ after line.old (block_tokens tokens)) }
{
    line.mark(Punctuation::OpenBrace)?;
    write_equations(alloc, line, equations)?;
    line.mark(Punctuation::CloseBrace)
}
