//! Which options are before the positional words, and with which values?
//!
//! Each option of a row has a slot by its place there; an option that is given twice or isn't of the row leaves no answer.

ghost use Rattle.std.specs.Prelude.{◌≡◌, ◌≤◌, ◌<◌, ◌++◌, ◌↔◌, IsTrue, IfSome, IfNone, Some, Contains, All, drop, length, map, string_bytes, slice_get};
ghost use lib.Chars.{codes};
ghost use Rattle.wb_base.specs.Different.{Differ};
ghost use Rattle.wb_program_words.specs.Options.{IsOptionName, IsPositional};
ghost use Rattle.wb_program_words.specs.Rows.{name_of};
ghost use Rattle.wb_program_words.specs.Asked.{texts};
ghost use Rattle.wb_program_words.specs.Inner.Parts.{EndsWithin, HasNoSplit, IsPart, IsSplit};

use crate::rows::{MOST_OPTIONS, OptionName, name_of};

// The values of options, each in its slot.
#[derive(Clone, Copy)]
pub(crate) struct Options<'a> {
    pub(crate) slots: [Option<&'a str>; MOST_OPTIONS],
    // From this place on the words are positional.
    pub(crate) rest: usize,
}

// What is at a place of the words.
#[derive(Clone, Copy)]
pub(crate) enum Part<'a> {
    // An option with its value, and then what is at this place.
    Option {
        name: &'a str,
        value: &'a str,
        next: usize,
    },
    // Positional words alone, up to the end.
    Positional,
    // Neither.
    Neither,
}

// The options of these names with their values, and the place from which on the words are positional.
pub(crate) fn options_of<'a>(words: &'a [String], names: &[OptionName]) -> Option<Options<'a>>
    requires few { length names.now ≤ 3 }
    requires apart { Differ (map name_of names.now) }
    ensures some { IfSome result (λ options. IsSplit (map name_of names.now) (texts words.now) (drop options.rest (texts words.now)) options.slots × (options.rest ≤ length words.now)) }
    ensures none { IfNone result (HasNoSplit (map name_of names.now) (texts words.now)) }
{
    let mut slots = [None; MOST_OPTIONS];
    let mut rest = 0;
    'parts: loop {
        match part_at(words, rest) {
            Part::Positional => return Some(Options { slots, rest }),
            Part::Neither => return None,
            Part::Option { name, value, next } => {
                let slot = slot_of(names, name)?;
                if slots[slot].is_some() {
                    return None;
                }
                slots[slot] = Some(value);
                rest = next;
            }
        }
    }
}

// What is at a place.
fn part_at(words: &[String], at: usize) -> Part<'_>
    requires { at ≤ length words.now }
    ensures part { IsPart (texts words.now) at result }
    ensures within { EndsWithin at (length words.now) result }
{
    if at == words.len() {
        return Part::Positional;
    }
    match words[at].as_str().strip_prefix("--") {
        Some(option) => option_at(words, at, option),
        None => {
            if are_positional(&words[at..]) {
                Part::Positional
            } else {
                Part::Neither
            }
        }
    }
}

// What is at the place of this option, which is without its dashes.
fn option_at<'a>(words: &'a [String], at: usize, option: &'a str) -> Part<'a>
    requires at { at < length words.now }
    requires there { slice_get (texts words.now) at ≡ Some (codes "--" ++ option.now) }
    ensures part { IsPart (texts words.now) at result }
    ensures within { EndsWithin at (length words.now) result }
{
    match cut(option) {
        Some((name, value)) => {
            if is_positional(value) {
                let next = at + 1;
                return Part::Option { name, value, next };
            }
            Part::Neither
        }
        None => option_apart(words, at, option),
    }
}

// What is at the place of the name of an option, whose value is the next word.
fn option_apart<'a>(words: &'a [String], at: usize, name: &'a str) -> Part<'a>
    requires at { at < length words.now }
    requires there { slice_get (texts words.now) at ≡ Some (codes "--" ++ name.now) }
    requires name { IsOptionName name.now }
    ensures part { IsPart (texts words.now) at result }
    ensures within { EndsWithin at (length words.now) result }
{
    if words.len() - at == 1 {
        return Part::Neither;
    }
    let value = words[at + 1].as_str();
    if is_positional(value) {
        let next = at + 2;
        return Part::Option { name, value, next };
    }
    Part::Neither
}

// What is before and after the first '='.
fn cut(option: &str) -> Option<(&str, &str)>
    ensures some { IfSome result (λ (name, value). IsOptionName name.now × (option.now ≡ name.now ++ (codes "=" ++ value.now))) }
    ensures none { IfNone result (IsOptionName option.now) }
{
    option.split_once('=')
}

// The place of the option of this name.
fn slot_of(names: &[OptionName], name: &str) -> Option<usize>
    ensures some { IfSome result (λ slot. (slot < length names.now) × (slice_get (map name_of names.now) slot ≡ Some name.now)) }
    ensures none { IfNone result (¬ Contains (map name_of names.now) name.now) }
{
    'names: for slot in 0..names.len() {
        if name_of(names[slot]) == name {
            return Some(slot);
        }
    }
    None
}

// Whether each word can be a file.
fn are_positional(words: &[String]) -> bool
    ensures { IsTrue result ↔ All (λ word. IsPositional (string_bytes word)) words.now }
{
    words.iter().all(|word| is_positional(word.as_str()))
}

// Whether a word can be a file or a name: options begin with a dash.
fn is_positional(word: &str) -> bool
    ensures { IsTrue result ↔ IsPositional word.now }
{
    match word.as_bytes() {
        [] => false,
        [first, ..] => *first != b'-',
    }
}
