// Tokens as they are written.
ghost use Rattle.std.specs.Prelude.{◌≡◌, ◌∷◌, [], ◌++◌, true, encode_utf8, IfOk, IsOk, OnOk, flat_map};
ghost use Rattle.std.specs.Fmt.{signed_decimal};
ghost use Rattle.std.specs.List.{list_all};
ghost use Rattle.std.specs.String.{string_bytes};
ghost use Rattle.lang_tokens.specs.Spelling.{ends_line, escaped, gap, is_held, is_small, plain, printed, spelling, written};

use crate::token::Token;
use lang_base::{NoMemory, Text};
use lang_tree::method_word;
use std::alloc::Global;

fn ends_line(token: &Token) -> bool
    ensures { result ≡ ends_line token.now }
{
    match token {
        Token::Open | Token::Close | Token::Semicolon => true,
        _ => false,
    }
}

fn gap(token: &Token) -> &'static str
    ensures { result.now ≡ gap token.now ∷ [] }
{
    if ends_line(token) { "\n" } else { " " }
}

#[tactic(auto, using(crate::proofs::SpellingLemmas::character_escaped))]
fn put_character(out: &mut String, character: char) -> Result<(), NoMemory>
    ensures { OnOk result (string_bytes out.new ≡ string_bytes out.old ++ flat_map escaped (encode_utf8 character)) }
{
    match character {
        '"' => out.push_str("\\\"")?,
        '\\' => out.push_str("\\\\")?,
        '\n' => out.push_str("\\n")?,
        other => out.push(other)?,
    }
    Ok(())
}

fn put_characters(out: &mut String, text: &str) -> Result<(), NoMemory>
    ensures { OnOk result (string_bytes out.new ≡ string_bytes out.old ++ flat_map escaped text.now) }
{
    for character in text.chars() {
        put_character(out, character)?;
    }
    Ok(())
}

fn plain(token: &Token) -> &'static str
    ensures { result.now ≡ plain token.now }
{
    match token {
        Token::Route => "route",
        Token::Let => "let",
        Token::Get => "get",
        Token::Put => "put",
        Token::Drop => "drop",
        Token::Each => "each",
        Token::In => "in",
        Token::If => "if",
        Token::Else => "else",
        Token::Call => "call",
        Token::Now => "now",
        Token::Random => "random",
        Token::Reply => "reply",
        Token::Nothing => "nothing",
        Token::Body => "body",
        Token::Who => "who",
        Token::Path => "path",
        Token::Part => "part",
        Token::Number => "number",
        Token::AsText => "text",
        Token::Open => "{",
        Token::Close => "}",
        Token::Left => "(",
        Token::Right => ")",
        Token::Comma => ",",
        Token::Semicolon => ";",
        Token::Equals => "=",
        Token::Less => "<",
        Token::Plus => "+",
        Token::Join => "++",
        Token::Minus => "-",
        Token::Star => "*",
        _ => "",
    }
}

#[tactic(auto, using(crate::proofs::SpellingLemmas::signed_small))]
fn put_integer(alloc: Global, out: &mut String, n: i64) -> Result<(), NoMemory>
    ensures spelled { OnOk result (string_bytes out.new ≡ string_bytes out.old ++ signed_decimal n) }
    ensures small { is_small n ≡ true }
{
    let digits = format!(in alloc; "{n}")?;
    out.push_str(&digits)?;
    Ok(())
}

#[tactic(auto, using(crate::proofs::SpellingLemmas::appends, crate::proofs::TextLemmas::utf8_true))]
fn put_spelling(alloc: Global, out: &mut String, token: &Token) -> Result<(), NoMemory>
    ensures spelled { OnOk result (string_bytes out.new ≡ string_bytes out.old ++ spelling token.now) }
    ensures held { OnOk result (is_held token.now ≡ true) }
{
    match token {
        Token::Integer(n) => put_integer(alloc, out, *n)?,
        Token::Str(text) => {
            out.push_str("\"")?;
            put_characters(out, text.as_str())?;
            out.push_str("\"")?;
        }
        Token::Word(name) => out.push_str(name.as_str())?,
        Token::Method(method) => out.push_str(method_word(*method))?,
        other => out.push_str(plain(other))?,
    }
    Ok(())
}

#[tactic(auto, using(crate::proofs::SpellingLemmas::appends))]
fn put_token(alloc: Global, out: &mut String, token: &Token) -> Result<(), NoMemory>
    ensures written { OnOk result (string_bytes out.new ≡ string_bytes out.old ++ written token.now) }
    ensures held { OnOk result (is_held token.now ≡ true) }
{
    put_spelling(alloc, out, token)?;
    out.push_str(gap(token))?;
    Ok(())
}

/// The tokens as they are written: behind each a space, or where it ends a line, as `;`, `{` and `}` do, a line feed.
pub fn write_tokens(alloc: Global, tokens: &[Token]) -> Result<Text, NoMemory>
    ensures written { IfOk result (λ text. text ≡ printed tokens.now) }
    // Each integer has 64 bits with its sign, and the text of each string is UTF-8, since their types say so.
    ensures held { OnOk result (list_all is_held tokens.now ≡ true) }
{
    let mut out = String::new(alloc);
    for token in tokens {
        put_token(alloc, &mut out, token)?;
    }
    Text::shared(out)
}
