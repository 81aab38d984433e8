// Decimal numbers.
ghost use Rattle.std.specs.Prelude.{◌≡◌};
ghost use Rattle.std.specs.Char.{is_ascii_digit};
ghost use Rattle.std.specs.List.{list_all};
ghost use Rattle.request_names.specs.Numbers.{begins_well, number_of};

fn all_digits(bytes: &[u8]) -> bool
    ensures { result ≡ list_all is_ascii_digit bytes.now }
{
    bytes.iter().all(|b| b.is_ascii_digit())
}

fn begins_well(bytes: &[u8]) -> bool
    ensures { result ≡ begins_well bytes.now }
{
    match bytes {
        [] => false,
        [_] => true,
        [first, ..] => *first != b'0',
    }
}

/// The number that a text spells in decimal digits; None exactly where it has a sign or anything else that is no
/// digit, is empty, begins with a 0 before another digit, or spells more than a u64 holds.
pub fn read_number(text: &str) -> Option<u64>
    ensures { result ≡ number_of text.now }
{
    if !all_digits(text.as_bytes()) || !begins_well(text.as_bytes()) {
        return None;
    }
    text.parse::<u64>().ok()
}
