// The forms that texts of a program have.
ghost use Rattle.std.specs.Prelude.{◌≡◌};
ghost use Rattle.std.specs.List.{list_all};
ghost use Rattle.lang_tree.specs.Forms.{is_word_byte, begins_with_digit, is_reserved, is_word, is_path, is_literal_byte, is_literal};

use lang_base::{Text, all_visible};

/// The most bytes of a path.
pub const LONGEST_PATH: u64 = 1024;

/// The most bytes of a variable's or a table's name.
pub const LONGEST_WORD: u64 = 32;

/// The most bytes of a body, a row or a text of a handler.
pub const LONGEST_TEXT: u64 = 65536;

/// Whether a text is a path: from 1 to 1,024 visible ASCII characters, the first a slash.
pub fn is_path(text: &Text) -> bool
    ensures { result ≡ is_path text.now }
{
    let bytes = text.as_bytes();
    bytes.starts_with(b"/") && text.len() <= LONGEST_PATH && all_visible(bytes)
}

fn is_word_byte(byte: u8) -> bool
    ensures { result ≡ is_word_byte byte }
{
    byte.is_ascii_alphanumeric() || byte == b'_'
}

fn all_word_bytes(bytes: &[u8]) -> bool
    ensures { result ≡ list_all is_word_byte bytes.now }
{
    bytes.iter().all(|b| is_word_byte(*b))
}

fn begins_with_digit(bytes: &[u8]) -> bool
    ensures { result ≡ begins_with_digit bytes.now }
{
    match bytes {
        [] => false,
        [first, ..] => first.is_ascii_digit(),
    }
}

fn is_reserved(word: &str) -> bool
    ensures { result ≡ is_reserved word.now }
{
    match word {
        "route"
        | "let"
        | "get"
        | "put"
        | "drop"
        | "each"
        | "in"
        | "if"
        | "else"
        | "call"
        | "now"
        | "random"
        | "reply"
        | "nothing"
        | "body"
        | "who"
        | "path"
        | "part"
        | "number"
        | "text"
        | "GET"
        | "PUT"
        | "POST"
        | "DELETE" => true,
        _ => false,
    }
}

/// Whether a text may name a variable or a table: from 1 to 32 letters, digits and `_`, no digit first, and no word
/// of the language itself.
pub fn is_word(text: &Text) -> bool
    ensures { result ≡ is_word text.now }
{
    let bytes = text.as_bytes();
    !bytes.is_empty()
        && text.len() <= LONGEST_WORD
        && all_word_bytes(bytes)
        && !begins_with_digit(bytes)
        && !is_reserved(text.as_str())
}

fn is_literal_byte(byte: u8) -> bool
    ensures { result ≡ is_literal_byte byte }
{
    byte == b'\n' || 0x20 <= byte && byte != 0x7f
}

fn all_literal_bytes(bytes: &[u8]) -> bool
    ensures { result ≡ list_all is_literal_byte bytes.now }
{
    bytes.iter().all(|b| is_literal_byte(*b))
}

/// Whether a text may be a program's literal: at most 65,536 bytes, and no control character but the line feed.
pub fn is_literal(text: &Text) -> bool
    ensures { result ≡ is_literal text.now }
{
    text.len() <= LONGEST_TEXT && all_literal_bytes(text.as_bytes())
}
