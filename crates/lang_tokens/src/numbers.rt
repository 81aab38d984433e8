// Integers.
ghost use Rattle.std.specs.Prelude.{◌≡◌, ◌≤◌, true, length};
ghost use Rattle.std.specs.Char.{is_ascii_digit};
ghost use Rattle.std.specs.List.{prefix_len, list_all};
ghost use Rattle.lang_tokens.specs.Lexing.{is_numeral, number};

use crate::token::Token;

/// How many digits stand in front.
pub(crate) fn digits_len(bytes: &[u8]) -> usize
    ensures len { result ≡ prefix_len is_ascii_digit bytes.now }
    ensures within { result ≤ length bytes.now }
{
    let mut len: usize = 0;
    for byte in bytes {
        if !byte.is_ascii_digit() {
            return len;
        }
        len += 1;
    }
    len
}

fn is_numeral(digits: &[u8]) -> bool
    ensures { result ≡ is_numeral digits.now }
{
    match digits {
        [] => false,
        [_] => true,
        [first, ..] => *first != b'0',
    }
}

#[tactic(auto, using(crate::proofs::DigitLemmas::parsed))]
fn number_of(digits: &str) -> Token
    requires digits { list_all is_ascii_digit digits.now ≡ true }
    requires numeral { is_numeral digits.now ≡ true }
    ensures { result ≡ number digits.now }
{
    match digits.parse::<i64>() {
        Ok(n) => Token::Integer(n),
        Err(_) => Token::BadNumber,
    }
}

/// The token of a run of digits.
#[tactic(auto, using(crate::proofs::DigitLemmas::digits_are_text))]
pub(crate) fn number(digits: &[u8]) -> Token
    requires { list_all is_ascii_digit digits.now ≡ true }
    ensures { result ≡ number digits.now }
{
    if !is_numeral(digits) {
        return Token::BadNumber;
    }
    match str::from_utf8(digits) {
        Ok(text) => number_of(text),
        Err(_) => Token::BadNumber,
    }
}
