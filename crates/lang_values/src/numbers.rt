// Numbers as texts, and texts as numbers.
ghost use Rattle.std.specs.Prelude.{◌≡◌, pos, min, IfOk};
ghost use Rattle.lang_base.specs.Characters.{digits_value};
ghost use Rattle.lang_values.specs.Numbers.{signed_text, is_digits, negative, in_i64, signed_number};

use lang_base::all_digits;
use lang_core::{NoMemory, Text};
use std::alloc::Global;

const LEAST: u64 = 9223372036854775808;

/// A number in decimal, with a minus sign where it is below 0.
pub fn signed_text(alloc: Global, n: i64) -> Result<Text, NoMemory>
    ensures { IfOk result (λ text. text ≡ signed_text n) }
{
    let text = format!(in alloc; "{n}")?;
    Text::shared(text)
}

fn is_digits(text: &[u8]) -> bool
    ensures { result ≡ is_digits text.now }
{
    !text.is_empty() && all_digits(text)
}

// The number that decimal digits spell, up to the greatest u64.
fn digits_value(digits: &[u8]) -> u64
    ensures { result ≡ min (digits_value digits.now) 18446744073709551615 }
{
    let mut value: u64 = 0;
    for digit in digits {
        let units = u64::from(digit.saturating_sub(b'0'));
        value = value.saturating_mul(10).saturating_add(units);
    }
    value
}

fn positive(n: u64) -> Option<i64>
    ensures { result ≡ in_i64 (pos n) }
{
    if n < LEAST { Some(n as i64) } else { None }
}

fn negative(n: u64) -> Option<i64>
    ensures { result ≡ in_i64 (negative n) }
{
    if n < LEAST {
        Some(-(n as i64))
    } else if n == LEAST {
        Some(i64::MIN)
    } else {
        None
    }
}

/// The number that a text spells, an optional minus sign and digits; None exactly where it is no signed number of
/// 64 bits.
pub fn signed_number(text: &[u8]) -> Option<i64>
    ensures { result ≡ signed_number text.now }
{
    match text {
        [] => None,
        [b'-', digits @ ..] => {
            if is_digits(digits) {
                negative(digits_value(digits))
            } else {
                None
            }
        }
        _ => {
            if is_digits(text) {
                positive(digits_value(text))
            } else {
                None
            }
        }
    }
}
