//! Which number is a text of decimal digits?

ghost use Rattle.std.specs.Prelude.{◌≡◌, ◌≤◌, ℕ, IfSome, IfNone};
ghost use Rattle.std.specs.Str.Parse.{IsNumeral, digits_value};
ghost use Rattle.wb_program_words.specs.Inner.Numbers.{IsNumberFrom};

// The number that decimal digits write, without a sign, where it is from least to most.
pub(crate) fn number_in(text: &str, least: u64, most: u64) -> Option<u64>
    ensures some { IfSome result (IsNumberFrom text.now least most) }
    ensures none { IfNone result ((number : ℕ) → ¬ IsNumberFrom text.now least most number) }
{
    if text.as_bytes().first() == Some(&b'+') {
        return None;
    }
    match text.parse::<u64>() {
        Ok(number) if least <= number && number <= most => Some(number),
        _ => None,
    }
}
