// Where the head of a message ends.
ghost use Rattle.std.specs.Prelude.{◌≡◌, ◌||◌};
ghost use Rattle.std.specs.List.{list_any};
ghost use Rattle.http_front.specs.Ends.{is_of_line, ends_head, ends_with_blank_line};

fn ends_with_blank_line(bytes: &[u8]) -> bool
    ensures { result ≡ ends_with_blank_line bytes.now }
{
    bytes.ends_with(b"\n\n") || bytes.ends_with(b"\n\r\n")
}

/// Whether a line has begun after one more byte: it had, or the byte is neither CR nor LF.
pub fn has_begun(begun: bool, byte: u8) -> bool
    ensures { result ≡ (begun || is_of_line byte) }
{
    begun || (byte != b'\r' && byte != b'\n')
}

/// Whether a head ends with these bytes: LF LF or LF CR LF stands last, behind a byte that is neither CR nor LF. Whether
/// there is such a byte is handed in, so that a head of blank lines isn't looked through again at each of them.
#[tactic(auto, unfolding(crate::specs::Ends::ends_head))]
pub fn ends_head(bytes: &[u8], begun: bool) -> bool
    requires { begun ≡ list_any is_of_line bytes.now }
    ensures { result ≡ ends_head bytes.now }
{
    ends_with_blank_line(bytes) && begun
}
