// Tests of bytes, as characters of ASCII.
ghost use Rattle.std.specs.Prelude.{◌≡◌};
ghost use Rattle.std.specs.List.{list_all};
ghost use Rattle.lang_base.specs.Characters.{is_digit, is_visible};

fn is_visible(byte: u8) -> bool
    ensures { result ≡ is_visible byte }
{
    0x21 <= byte && byte <= 0x7e
}

/// Whether each byte is a visible character of ASCII, which a space isn't.
pub fn all_visible(bytes: &[u8]) -> bool
    ensures { result ≡ list_all is_visible bytes.now }
{
    bytes.iter().all(|b| is_visible(*b))
}

fn is_digit(byte: u8) -> bool
    ensures { result ≡ is_digit byte }
{
    byte.is_ascii_digit()
}

/// Whether each byte is a decimal digit.
pub fn all_digits(bytes: &[u8]) -> bool
    ensures { result ≡ list_all is_digit bytes.now }
{
    bytes.iter().all(|b| is_digit(*b))
}
