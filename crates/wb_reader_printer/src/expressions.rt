//! How is an expression written?
//!
//! From its last node down, with a stack of what is still to come, so that nothing recurses.

ghost use Rattle.std.specs.Prelude.{◌≡◌, [], ◌∷◌, List, ℕ, IfOk, OnOk, MatchOption, true, false};
ghost use Rattle.wb_syntax.specs.Expression.{Node};
ghost use Rattle.wb_syntax.specs.Expression.{Expression};
ghost use Rattle.wb_syntax_expressions.specs.Expression.{nodes_of};
ghost use Rattle.wb_reader_printer.specs.Inner.Output.{put, after};
ghost use Rattle.wb_reader_printer.specs.Inner.ExpressionTokens.{truth_token, dotted, expression_tokens};
ghost use Rattle.wb_syntax_expressions.specs.Places.{HasNode};
ghost use Rattle.wb_reader_printer.specs.Inner.Walk.{separator, Continues};
ghost use Rattle.wb_reader_printer.specs.declared.expressions.Waiting.TheVariants.{Whole, Arguments, Then};
ghost use Rattle.wb_text_tokens.specs.declared.token.Token.TheVariants as t;
ghost use Rattle.wb_text_tokens.specs.declared.word.Word.TheVariants as w;
ghost use Rattle.wb_text_tokens.specs.declared.punctuation.Punctuation.TheVariants as p;

use crate::line::Line;
use std::alloc::{AllocError, Global};
use wb_base::Stack;
use wb_syntax::Node;
use wb_text_tokens::{Punctuation, Word};

// What is still to come of an expression.
#[derive(Clone, Copy)]
pub(crate) enum Waiting<'a> {
    /// All of the one at this place.
    Whole(usize),
    /// The arguments at these places, with a comma before the first unless it is the first of all, and the closing parenthesis.
    Arguments { first: bool, places: &'a [usize] },
    /// The word `then`, the one at the first place, the word `else` and the one at the second.
    Then { holds: usize, fails: usize },
    /// The word `else` and the one at this place.
    Else { fails: usize },
}

// The word of a truth value.
fn write_truth(line: &mut Line, truth: bool) -> Result<(), AllocError>
    ensures { OnOk result (line.new ≡ put line.old (truth_token truth)) }
{
    if truth {
        line.word(Word::True)
    } else {
        line.word(Word::False)
    }
}

// A label and an attribute of it.
fn write_read(line: &mut Line, label: &[u8], attribute: &[u8]) -> Result<(), AllocError>
    ensures { OnOk result (line.new ≡ after line.old (dotted (t.Name label.now) (t.Name attribute.now))) }
{
    line.name(label)?;
    line.mark(Punctuation::Dot)?;
    line.name(attribute)
}

// A label and the word `lexeme`.
fn write_lexeme(line: &mut Line, label: &[u8]) -> Result<(), AllocError>
    ensures { OnOk result (line.new ≡ after line.old (dotted (t.Name label.now) (t.Word w.Lexeme))) }
{
    line.name(label)?;
    line.mark(Punctuation::Dot)?;
    line.word(Word::Lexeme)
}

// An attribute of what the word says.
fn write_attribute(line: &mut Line, word: Word, attribute: &[u8]) -> Result<(), AllocError>
    ensures { OnOk result (line.new ≡ after line.old (dotted (t.Word word) (t.Name attribute.now))) }
{
    line.word(word)?;
    line.mark(Punctuation::Dot)?;
    line.name(attribute)
}

// A name and the opening parenthesis; its arguments are then to come.
fn begin_arguments<'a>(
    line: &mut Line,
    stack: &mut Stack<Waiting<'a>>,
    name: &[u8],
    places: &'a [usize],
) -> Result<(), AllocError>
    ensures { OnOk result ((line.new ≡ after line.old (t.Name name.now ∷ t.Punctuation p.OpenParenthesis ∷ []))
        × (stack.new ≡ Arguments true places.entry ∷ stack.old)) }
{
    line.name(name)?;
    line.mark(Punctuation::OpenParenthesis)?;
    stack.push(Waiting::Arguments {
        first: true,
        places,
    })
}

// The word `if`; the condition and the rest are then to come.
fn begin_if(
    line: &mut Line,
    stack: &mut Stack<Waiting<'_>>,
    condition: usize,
    holds: usize,
    fails: usize,
) -> Result<(), AllocError>
    ensures { OnOk result ((line.new ≡ put line.old (t.Word w.If)) × (stack.new ≡ Whole condition ∷ Then holds fails ∷ stack.old)) }
{
    line.word(Word::If)?;
    stack.push(Waiting::Then { holds, fails })?;
    stack.push(Waiting::Whole(condition))
}

// A node: all of it, or what comes before its parts, which are then to come.
fn visit<'a>(
    line: &mut Line,
    stack: &mut Stack<Waiting<'a>>,
    node: &'a Node,
) -> Result<(), AllocError>
    ensures { OnOk result ((nodes : List Node) (at : ℕ) → HasNode nodes at node.now
        → Continues nodes line.old (Whole at ∷ stack.old) line.new stack.new 1) }
{
    match node {
        Node::Int(value) => line.int(*value),
        Node::Text(text) => line.string(text.as_slice()),
        Node::Bool(truth) => write_truth(line, *truth),
        Node::Label(label) => line.name(label.as_slice()),
        Node::Read { label, attribute } => {
            write_read(line, label.as_slice(), attribute.as_slice())
        }
        Node::Lexeme(label) => write_lexeme(line, label.as_slice()),
        Node::Top(attribute) => write_attribute(line, Word::Top, attribute.as_slice()),
        Node::Forward(attribute) => write_attribute(line, Word::Forward, attribute.as_slice()),
        Node::Build {
            production,
            children,
        } => begin_arguments(line, stack, production.as_slice(), children.as_slice()),
        Node::Call {
            operation,
            arguments,
        } => {
            line.mark(Punctuation::At)?;
            begin_arguments(line, stack, operation.as_slice(), arguments.as_slice())
        }
        Node::If {
            condition,
            holds,
            fails,
        } => begin_if(line, stack, *condition, *holds, *fails),
    }
}

// What comes before an argument.
fn write_separator(line: &mut Line, first: bool) -> Result<(), AllocError>
    ensures { OnOk result (line.new ≡ after line.old (separator first)) }
{
    if first {
        Ok(())
    } else {
        line.mark(Punctuation::Comma)
    }
}

// The next argument, which is then to come, or the closing parenthesis.
fn next_argument<'a>(
    line: &mut Line,
    stack: &mut Stack<Waiting<'a>>,
    first: bool,
    places: &'a [usize],
) -> Result<Option<usize>, AllocError>
    ensures { IfOk result (λ next. (nodes : List Node) → MatchOption next
        (Continues nodes line.old (Arguments first places.entry ∷ stack.old) line.new stack.old 0 × (stack.new ≡ stack.old))
        (λ at. Continues nodes line.old (Arguments first places.entry ∷ stack.old) line.new (Whole at ∷ stack.new) 0)) }
{
    let [place, others @ ..] = places else {
        line.mark(Punctuation::CloseParenthesis)?;
        return Ok(None);
    };
    write_separator(line, first)?;
    stack.push(Waiting::Arguments {
        first: false,
        places: others,
    })?;
    Ok(Some(*place))
}

// Writes what comes before the next whole expression, where there is one, of what is to come first.
fn resume<'a>(
    line: &mut Line,
    stack: &mut Stack<Waiting<'a>>,
    waiting: Waiting<'a>,
) -> Result<Option<usize>, AllocError>
    ensures { IfOk result (λ next. (nodes : List Node) → MatchOption next
        (Continues nodes line.old (waiting.entry ∷ stack.old) line.new stack.old 0 × (stack.new ≡ stack.old))
        (λ at. Continues nodes line.old (waiting.entry ∷ stack.old) line.new (Whole at ∷ stack.new) 0)) }
{
    match waiting {
        Waiting::Whole(place) => Ok(Some(place)),
        Waiting::Arguments { first, places } => next_argument(line, stack, first, places),
        Waiting::Then { holds, fails } => {
            line.word(Word::Then)?;
            stack.push(Waiting::Else { fails })?;
            Ok(Some(holds))
        }
        Waiting::Else { fails } => {
            line.word(Word::Else)?;
            Ok(Some(fails))
        }
    }
}

// Writes what comes before the next whole expression, or all that is to come where there is none.
fn next_whole(line: &mut Line, stack: &mut Stack<Waiting<'_>>) -> Result<Option<usize>, AllocError>
    ensures { IfOk result (λ next. (nodes : List Node) → MatchOption next
        (Continues nodes line.old stack.old line.new [] 0)
        (λ at. Continues nodes line.old stack.old line.new (Whole at ∷ stack.new) 0)) }
{
    'waiting: while let Some(waiting) = stack.pop() {
        if let Some(place) = resume(line, stack, waiting)? {
            return Ok(Some(place));
        }
    }
    Ok(None)
}

// Writes the expression whose nodes these are.
pub(crate) fn write_expression(
    alloc: Global,
    line: &mut Line,
    nodes: &[Node],
) -> Result<(), AllocError>
    requires { (e : Expression) × (nodes.now ≡ nodes_of e) }
    ensures { OnOk result ((e : Expression) → nodes.now ≡ nodes_of e → line.new ≡ after line.old (expression_tokens e)) }
{
    let mut stack = Stack::new(alloc);
    let mut place = nodes.len() - 1;
    'visits: for _visited in 0..nodes.len() {
        visit(line, &mut stack, &nodes[place])?;
        let Some(next) = next_whole(line, &mut stack)? else {
            return Ok(());
        };
        place = next;
    }
    Ok(())
}
