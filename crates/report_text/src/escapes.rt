// Bodies and keys with their escapes.
ghost use Rattle.std.specs.Prelude.{◌≡◌, ◌++◌, OnOk, string_bytes};
ghost use Rattle.std.specs.Char.{encode_utf8};
ghost use Rattle.std.specs.List.{flat_map};
ghost use Rattle.report_text.specs.Reports.{body_behind, body_byte, escaped_body, escaped_key, key_byte};

use lang_core::NoMemory;

// A character beyond ASCII has no byte that has an escape.
#[tactic(auto, using(crate::proofs::Characters::body_char))]
fn push_body_char(text: &mut String, character: char) -> Result<(), NoMemory>
    ensures { OnOk result (string_bytes text.new ≡ string_bytes text.old ++ flat_map body_byte (encode_utf8 character)) }
{
    match character {
        '\\' => text.push_str("\\\\")?,
        '\n' => text.push_str("\\n")?,
        '\r' => text.push_str("\\r")?,
        other => text.push(other)?,
    }
    Ok(())
}

#[tactic(auto, using(crate::proofs::Characters::body_char, crate::proofs::Characters::key_char))]
fn push_key_char(text: &mut String, character: char) -> Result<(), NoMemory>
    ensures { OnOk result (string_bytes text.new ≡ string_bytes text.old ++ flat_map key_byte (encode_utf8 character)) }
{
    if character == ' ' {
        text.push_str("\\s")?;
        return Ok(());
    }
    push_body_char(text, character)
}

// Puts a body last, with its escapes.
fn push_body(text: &mut String, body: &str) -> Result<(), NoMemory>
    ensures { OnOk result (string_bytes text.new ≡ string_bytes text.old ++ escaped_body body.now) }
{
    for character in body.chars() {
        push_body_char(text, character)?;
    }
    Ok(())
}

/// Puts a key last, with its escapes.
pub fn push_key(text: &mut String, key: &str) -> Result<(), NoMemory>
    ensures { OnOk result (string_bytes text.new ≡ string_bytes text.old ++ escaped_key key.now) }
{
    for character in key.chars() {
        push_key_char(text, character)?;
    }
    Ok(())
}

/// Puts a body last, behind a space; an empty one leaves out its space.
pub fn push_body_behind(text: &mut String, body: &str) -> Result<(), NoMemory>
    ensures { OnOk result (string_bytes text.new ≡ string_bytes text.old ++ body_behind body.now) }
{
    if body.is_empty() {
        return Ok(());
    }
    text.push_str(" ")?;
    push_body(text, body)
}
