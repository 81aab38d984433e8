// The length of a body.
ghost use Rattle.std.specs.Prelude.{◌≡◌, ◌≤◌, codes, length, IfOk, IsErrOf, IsTrue};
ghost use Rattle.std.specs.List.{list_all};
ghost use Rattle.lang_base.specs.Characters.{digits_value, is_digit};
ghost use Rattle.http_header.specs.HeaderMap.{get_all};
ghost use Rattle.http_front.specs.Lengths.{is_length, length_given, body_length, is_value, within_limit};

use crate::message::FrontRefused;
use http_header::{HeaderMap, HeaderValue, ValueIter};
use lang_base::all_digits;

/// The most bytes of a body.
pub const LONGEST_BODY: u64 = 65536;

fn is_length(text: &[u8]) -> bool
    ensures { result ≡ is_length text.now }
{
    !text.is_empty() && text.len() <= 19 && all_digits(text)
}

// The number that at most 19 digits spell.
fn number_of(text: &[u8]) -> u64
    requires few { length text.now ≤ 19 }
    requires digits { IsTrue (list_all is_digit text.now) }
    ensures { result ≡ digits_value text.now }
{
    let mut number = 0;
    for digit in text {
        number = number * 10 + u64::from(*digit - b'0');
    }
    number
}

fn are_all(values: ValueIter<'_, HeaderValue>, text: &[u8]) -> bool
    ensures { result ≡ list_all (is_value text.now) values.entry }
{
    let mut left = values;
    left.all(|value| text == value.as_bytes())
}

fn length_given(head: &HeaderMap) -> Option<u64>
    ensures { result ≡ length_given (get_all head.now (codes "content-length")) }
{
    let mut values = head.get_all("content-length").iter();
    let Some(first) = values.next() else {
        return Some(0);
    };
    let text = first.as_bytes();
    if is_length(text) && are_all(values, text) {
        Some(number_of(text))
    } else {
        None
    }
}

fn within_limit(given: Option<u64>) -> Result<u64, FrontRefused>
    ensures answer { result ≡ within_limit given }
    ensures short { IfOk result (λ length. length ≤ 65536) }
    ensures unread { ¬ (IsErrOf result FrontRefused.ReadFault) }
{
    match given {
        None => Err(FrontRefused::BadLength),
        Some(length) if length > LONGEST_BODY => Err(FrontRefused::BodyTooLong),
        Some(length) => Ok(length),
    }
}

/// The length of the body that a head announces, or why its message is refused.
pub fn body_length(head: &HeaderMap) -> Result<u64, FrontRefused>
    ensures answer { result ≡ body_length head.now }
    ensures short { IfOk result (λ length. length ≤ 65536) }
    ensures unread { ¬ (IsErrOf result FrontRefused.ReadFault) }
{
    match head.get("transfer-encoding") {
        Some(_) => Err(FrontRefused::Coding),
        None => within_limit(length_given(head)),
    }
}
