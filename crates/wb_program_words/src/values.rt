//! Which values do the options of a row have?
//!
//! Each slot is read by the form that its option has in the table. Values are had by their places in the row.

ghost use Rattle.std.specs.Prelude.{◌≡◌, ◌≤◌, ℕ, List, IfSome, IfNone, length, map, take};
ghost use Rattle.wb_program_words.specs.OptionValues.{number_at, text_at};
ghost use Rattle.wb_program_words.specs.Rows.{form_of, name_of};
ghost use Rattle.wb_program_words.specs.Inner.Values.{AreValuesOf, HasNoValue, HaveNoValues, IsValueOf, value_in};

use crate::numbers::number_in;
use crate::rows::{Form, MOST_OPTIONS, OptionName, form_of};

// The value of an option.
#[derive(Clone, Copy)]
pub(crate) enum Value<'a> {
    Word(&'a str),
    Number(u64),
}

// The values of the options of a row, in its order.
#[derive(Clone, Copy)]
pub(crate) struct Values<'a> {
    pub list: [Value<'a>; MOST_OPTIONS],
}

// The values of these options, whose slots are in their order.
pub(crate) fn values_of<'a>(
    names: &[OptionName],
    slots: &[Option<&'a str>; MOST_OPTIONS],
) -> Option<Values<'a>>
    requires { length names.now ≤ 3 }
    ensures some { IfSome result (λ values. AreValuesOf names.now slots.now (take (length names.now) values.list)) }
    ensures none { IfNone result (HaveNoValues names.now slots.now) }
{
    let mut list = [Value::Number(0); MOST_OPTIONS];
    'names: for place in 0..names.len() {
        let value = value_of(names[place], slots[place])?;
        list[place] = value;
    }
    Some(Values { list })
}

// The value of an option with this slot.
fn value_of(option: OptionName, slot: Option<&str>) -> Option<Value<'_>>
    ensures some { IfSome result (IsValueOf (form_of option) (name_of option) slot.entry) }
    ensures none { IfNone result (HasNoValue (form_of option) (name_of option) slot.entry) }
{
    value_by(form_of(option), slot)
}

// The value of this form in a slot.
fn value_by(form: Form, slot: Option<&str>) -> Option<Value<'_>>
    ensures some { IfSome result (λ value. (name : List ℕ) → IsValueOf form name slot.entry value) }
    ensures none { IfNone result ((name : List ℕ) → HasNoValue form name slot.entry) }
{
    match form {
        Form::Word => {
            let text = slot?;
            Some(Value::Word(text))
        }
        Form::Number { least, most } => {
            let text = slot?;
            let number = number_in(text, least, most)?;
            Some(Value::Number(number))
        }
        Form::NumberOr {
            least,
            most,
            otherwise,
        } => match slot {
            Some(text) => {
                let number = number_in(text, least, most)?;
                Some(Value::Number(number))
            }
            None => Some(Value::Number(otherwise)),
        },
    }
}

// The word at a place.
pub(crate) fn text_at<'a>(values: &[Value<'a>], place: usize) -> &'a str
    ensures { result.now ≡ text_at (map value_in values.now) place }
{
    match values.get(place) {
        Some(Value::Word(text)) => text,
        Some(Value::Number(_)) => "",
        None => "",
    }
}

// The number at a place.
pub(crate) fn number_at(values: &[Value<'_>], place: usize) -> u64
    ensures { result ≡ number_at (map value_in values.now) place }
{
    match values.get(place) {
        Some(Value::Number(number)) => *number,
        Some(Value::Word(_)) => 0,
        None => 0,
    }
}
