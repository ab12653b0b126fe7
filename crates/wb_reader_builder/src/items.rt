//! What do actions make of the parts of headers, items and productions?
//!
//! Each does nothing more where a part is missing, which no reading meets. Kinds, flow types, children and equations are in `parts`.

ghost use Rattle.std.specs.Prelude.{◌≡◌, OnOk};
ghost use Rattle.wb_syntax.specs.declared.item.ItemForm.TheVariants as f;
ghost use Rattle.wb_syntax.specs.declared.item.PlainForm.TheVariants as i;
ghost use Rattle.wb_reader_builder.specs.Items.{word_shift, item_act, format_of, with_begin, with_header, with_host, with_extension, last_start, without_start, with_item, with_named, with_pair, with_role, with_attribute, with_occurs, with_forward_on, with_production, with_production_item, with_aspect};

use crate::builder::SpecBuilder;
use crate::stacks::take_two;
use std::alloc::{AllocError, Global};
use wb_base::{Bytes, List};
use wb_syntax::{
    Header, Item, ItemForm, PlainForm, Production, ProductionRole, Role, WrittenPattern,
};
use wb_text_tokens::Word;

/// What is done where a part of a header, an item or a production is whole.
#[derive(Clone, Copy)]
pub enum ItemAction {
    Begin,
    Host,
    Extension,
    Lexical(Role),
    Prefer,
    Nonterminal,
    Start,
    Extensible,
    Closed,
    Synthesized,
    Inherited,
    Occurs,
    ForwardOn,
    ProductionItem(ProductionRole),
    Aspect,
    BeginChildren,
    Production,
}

// What an action on headers, items and productions does.
pub(crate) fn item_act(
    alloc: Global,
    action: ItemAction,
    values: &mut SpecBuilder,
) -> Result<(), AllocError>
    ensures ok { OnOk result (values.new ≡ item_act action values.old) }
{
    match action {
        ItemAction::Begin => {
            values.begin();
            Ok(())
        },
        ItemAction::Host => {
            values.add_host();
            Ok(())
        }
        ItemAction::Extension => {
            values.add_extension();
            Ok(())
        }
        ItemAction::Lexical(role) => values.add_lexical(role),
        ItemAction::Prefer => values.add_prefer(),
        ItemAction::Nonterminal => values.add_nonterminal(),
        ItemAction::Start => values.add_start(),
        ItemAction::Extensible => values.add_extensible(),
        ItemAction::Closed => values.add_closed(),
        ItemAction::Synthesized => values.add_synthesized(),
        ItemAction::Inherited => values.add_inherited(),
        ItemAction::Occurs => values.add_occurs(),
        ItemAction::ForwardOn => values.add_forward_on(),
        ItemAction::ProductionItem(role) => values.add_production_item(role),
        ItemAction::Aspect => values.add_aspect(),
        ItemAction::BeginChildren => values.children.push(List::new(alloc)),
        ItemAction::Production => values.add_production(),
    }
}

// The format of this number.
fn format_of(value: i64) -> u32
    ensures { result ≡ format_of value }
{
    if value == 1 {
        1
    } else if value == 2 {
        2
    } else {
        0
    }
}

impl SpecBuilder {
    /// A reserved word was read at this place, which is kept where it may begin an item, an equation or a read.
    pub fn read_word(&mut self, word: Word, at: usize) -> Result<(), AllocError>
        ensures ok { OnOk result (self.new ≡ word_shift word at self.old) }
    {
        match word {
            Word::Abstract => self.read_start(at),
            Word::Aspect => self.read_start(at),
            Word::Closed => self.read_start(at),
            Word::Concrete => self.read_start(at),
            Word::Extensible => self.read_start(at),
            Word::Forward => self.read_start(at),
            Word::Forwards => self.read_start(at),
            Word::Ignore => self.read_start(at),
            Word::Inh => self.read_start(at),
            Word::Local => self.read_start(at),
            Word::Marking => self.read_start(at),
            Word::Nonterminal => self.read_start(at),
            Word::Occurs => self.read_start(at),
            Word::Prefer => self.read_start(at),
            Word::Start => self.read_start(at),
            Word::Syn => self.read_start(at),
            Word::Terminal => self.read_start(at),
            Word::Top => self.read_start(at),
            _ => Ok(()),
        }
    }

    // The number of the format was read.
    fn begin(&mut self)
        ensures { self.new ≡ with_begin self.old }
    {
        let Some(value) = self.integers.pop() else {
            return;
        };
        self.format = format_of(value);
    }

    // The specification has this name and this header.
    fn set_header(&mut self, name: Bytes, header: Header)
        ensures { self.new ≡ with_header name header self.old }
    {
        self.name = name;
        self.header = header;
    }

    // A host's header is whole.
    fn add_host(&mut self)
        ensures { self.new ≡ with_host self.old }
    {
        let Some(name) = self.names.pop() else {
            return;
        };
        self.set_header(name.bytes, Header::Host);
    }

    // An extension's header is whole.
    fn add_extension(&mut self)
        ensures { self.new ≡ with_extension self.old }
    {
        let Some((name, host)) = take_two(&mut self.names) else {
            return;
        };
        self.set_header(name.bytes, Header::Extension { host: host.bytes });
    }

    // The last start, or 0 where there is none, which no reading meets.
    fn take_start(&mut self) -> usize
        ensures start { result ≡ last_start self.old }
        ensures rest { self.new ≡ without_start self.old }
    {
        let Some(at) = self.starts.pop() else {
            return 0;
        };
        at
    }

    // An item is whole.
    fn add_item(&mut self, form: ItemForm<WrittenPattern>) -> Result<(), AllocError>
        ensures ok { OnOk result (self.new ≡ with_item form self.old) }
    {
        let offset = self.take_start();
        self.items.push(Item { offset, form })
    }

    // An item with a regular expression is whole.
    fn add_lexical(&mut self, role: Role) -> Result<(), AllocError>
        ensures ok { OnOk result (self.new ≡ with_role role self.old) }
    {
        let Some(pattern) = self.patterns.pop() else {
            return Ok(());
        };
        let Some(name) = self.names.pop() else {
            return Ok(());
        };
        self.add_item(ItemForm::Lexical {
            role,
            name: name.bytes,
            pattern,
        })
    }

    // A preference is whole.
    fn add_prefer(&mut self) -> Result<(), AllocError>
        ensures ok { OnOk result (self.new ≡ with_pair (λ first second. f.Plain (i.Prefer first second)) self.old) }
    {
        let Some((first, second)) = take_two(&mut self.names) else {
            return Ok(());
        };
        self.add_item(ItemForm::Plain(PlainForm::Prefer {
            first: first.bytes,
            second: second.bytes,
        }))
    }

    // A nonterminal's declaration is whole.
    fn add_nonterminal(&mut self) -> Result<(), AllocError>
        ensures ok { OnOk result (self.new ≡ with_named (λ name. f.Plain (i.Nonterminal name)) self.old) }
    {
        let Some(name) = self.names.pop() else {
            return Ok(());
        };
        self.add_item(ItemForm::Plain(PlainForm::Nonterminal(name.bytes)))
    }

    // The start's declaration is whole.
    fn add_start(&mut self) -> Result<(), AllocError>
        ensures ok { OnOk result (self.new ≡ with_named (λ name. f.Plain (i.Start name)) self.old) }
    {
        let Some(name) = self.names.pop() else {
            return Ok(());
        };
        self.add_item(ItemForm::Plain(PlainForm::Start(name.bytes)))
    }

    // A permission to extend is whole.
    fn add_extensible(&mut self) -> Result<(), AllocError>
        ensures ok { OnOk result (self.new ≡ with_named (λ name. f.Plain (i.Extensible name)) self.old) }
    {
        let Some(name) = self.names.pop() else {
            return Ok(());
        };
        self.add_item(ItemForm::Plain(PlainForm::Extensible(name.bytes)))
    }

    // A nonterminal is closed.
    fn add_closed(&mut self) -> Result<(), AllocError>
        ensures ok { OnOk result (self.new ≡ with_named (λ name. f.Plain (i.Closed name)) self.old) }
    {
        let Some(name) = self.names.pop() else {
            return Ok(());
        };
        self.add_item(ItemForm::Plain(PlainForm::Closed(name.bytes)))
    }

    // A synthesized attribute is whole.
    fn add_synthesized(&mut self) -> Result<(), AllocError>
        ensures ok { OnOk result (self.new ≡ with_attribute (λ name kind. i.Synthesized name kind) self.old) }
    {
        let Some(kind) = self.kinds.pop() else {
            return Ok(());
        };
        let Some(name) = self.names.pop() else {
            return Ok(());
        };
        self.add_item(ItemForm::Plain(PlainForm::Synthesized {
            name: name.bytes,
            kind,
        }))
    }

    // An inherited attribute is whole.
    fn add_inherited(&mut self) -> Result<(), AllocError>
        ensures ok { OnOk result (self.new ≡ with_attribute (λ name kind. i.Inherited name kind) self.old) }
    {
        let Some(kind) = self.kinds.pop() else {
            return Ok(());
        };
        let Some(name) = self.names.pop() else {
            return Ok(());
        };
        self.add_item(ItemForm::Plain(PlainForm::Inherited {
            name: name.bytes,
            kind,
        }))
    }

    // An occurrence is whole.
    fn add_occurs(&mut self) -> Result<(), AllocError>
        ensures ok { OnOk result (self.new ≡ with_occurs self.old) }
    {
        let Some(needs) = self.needs.pop() else {
            return Ok(());
        };
        let Some((attribute, nonterminal)) = take_two(&mut self.names) else {
            return Ok(());
        };
        self.add_item(ItemForm::Plain(PlainForm::Occurs {
            attribute: attribute.bytes,
            nonterminal: nonterminal.bytes,
            needs,
        }))
    }

    // A flow type of forwarded trees is whole.
    fn add_forward_on(&mut self) -> Result<(), AllocError>
        ensures ok { OnOk result (self.new ≡ with_forward_on self.old) }
    {
        let Some(needs) = self.lists.pop() else {
            return Ok(());
        };
        let Some(name) = self.names.pop() else {
            return Ok(());
        };
        self.add_item(ItemForm::Plain(PlainForm::ForwardOn {
            nonterminal: name.bytes,
            needs: needs.into_sequence(),
        }))
    }

    // An item with a production is whole.
    fn add_production_item(&mut self, role: ProductionRole) -> Result<(), AllocError>
        ensures ok { OnOk result (self.new ≡ with_production_item role self.old) }
    {
        let Some(production) = self.productions.pop() else {
            return Ok(());
        };
        self.add_item(ItemForm::Production { role, production })
    }

    // Further equations of a production are whole.
    fn add_aspect(&mut self) -> Result<(), AllocError>
        ensures ok { OnOk result (self.new ≡ with_aspect self.old) }
    {
        let Some(equations) = self.equations.pop() else {
            return Ok(());
        };
        let Some(name) = self.names.pop() else {
            return Ok(());
        };
        self.add_item(ItemForm::Aspect {
            name: name.bytes,
            equations: equations.into_sequence(),
        })
    }

    // A production is whole.
    fn add_production(&mut self) -> Result<(), AllocError>
        ensures ok { OnOk result (self.new ≡ with_production self.old) }
    {
        let Some(equations) = self.equations.pop() else {
            return Ok(());
        };
        let Some(children) = self.children.pop() else {
            return Ok(());
        };
        let Some((name, left)) = take_two(&mut self.names) else {
            return Ok(());
        };
        self.productions.push(Production {
            name: name.bytes,
            left: left.bytes,
            children: children.into_sequence(),
            equations: equations.into_sequence(),
        })
    }
}
