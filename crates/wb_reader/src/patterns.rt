//! What do the regular expressions of a written specification say?
//!
//! They are read after all else, so that what isn't in the grammar is refused first.

ghost use Rattle.std.specs.Prelude.{All, IfOk, IfErr};
ghost use Rattle.std.specs.List.{AllZip};
ghost use Rattle.wb_syntax.specs.SpecText.{IsReadForm, IsReadAs};
ghost use Rattle.wb_reader.specs.Inner.Patterns.{IsPlacedForm, IsPlaced, OnForm, OnItem, OnItems};

use crate::refusal::SpecRefusal;
use std::alloc::Global;
use wb_base::push;
use wb_regex::{RegexRefusal, read_regex};
use wb_syntax::{Item, ItemForm, Pattern, WrittenPattern};

// The form with its regular expression read. The refusals are `BadRegex`, `MatchesEmpty` and out of memory.
fn read_form(
    alloc: Global,
    form: ItemForm<WrittenPattern>,
) -> Result<ItemForm<Pattern>, SpecRefusal>
    requires placed { IsPlacedForm form }
    ensures ok { IfOk result (λ read. IsReadForm form read) }
    ensures refused { IfErr result (OnForm form) }
{
    match form {
        ItemForm::Plain(plain) => Ok(ItemForm::Plain(plain)),
        ItemForm::Production { role, production } => Ok(ItemForm::Production { role, production }),
        ItemForm::Aspect { name, equations } => Ok(ItemForm::Aspect { name, equations }),
        ItemForm::Lexical {
            role,
            name,
            pattern,
        } => match read_regex(alloc, pattern.bytes.as_slice()) {
            Ok(regex) => {
                let bytes = pattern.bytes;
                Ok(ItemForm::Lexical {
                    role,
                    name,
                    pattern: Pattern { bytes, regex },
                })
            }
            Err(RegexRefusal::Bad(fault)) => Err(SpecRefusal::BadRegex(pattern.at + 1 + fault)),
            Err(RegexRefusal::MatchesEmpty) => Err(SpecRefusal::MatchesEmpty(name)),
            Err(RegexRefusal::NoMemory(error)) => Err(SpecRefusal::NoMemory(error)),
        },
    }
}

// The item with its regular expression read. The refusals are those of its form.
fn read_item(alloc: Global, item: Item<WrittenPattern>) -> Result<Item<Pattern>, SpecRefusal>
    requires placed { IsPlaced item }
    ensures ok { IfOk result (λ read. IsReadAs item read) }
    ensures refused { IfErr result (OnItem item) }
{
    let offset = item.offset;
    let form = read_form(alloc, item.form)?;
    Ok(Item { offset, form })
}

// The items with their regular expressions read, or the refusal of the first that isn't taken.
pub(crate) fn read_items(
    alloc: Global,
    items: Vec<Item<WrittenPattern>>,
) -> Result<Vec<Item<Pattern>>, SpecRefusal>
    requires placed { All IsPlaced items.items }
    ensures ok { IfOk result (λ read. AllZip IsReadAs items.items read.items) }
    ensures refused { IfErr result (OnItems items.items) }
{
    let mut made = Vec::new(alloc);
    for item in items {
        let read = read_item(alloc, item)?;
        push(&mut made, read)?;
    }
    Ok(made)
}
