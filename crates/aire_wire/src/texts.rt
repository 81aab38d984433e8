// Parts of the texts of header fields.
ghost use Rattle.std.specs.Prelude.{◌≡◌, ◌==◌, map, All, IfOk, IsTrue};
ghost use Rattle.std.specs.List.{slice_split};
ghost use Rattle.request_names.specs.Numbers.{number_of};
ghost use Rattle.lang_core.specs.Names.{is_name};
ghost use Rattle.wire_fields.specs.Forms.{is_chain};
ghost use Rattle.wire_fields.specs.Rows.{text_at};
ghost use Rattle.aire_wire.specs.Incoming.{ends_with_name, is_behind_comma, names_in, or_get, who_or_anyone};
ghost use Rattle.lang_tree.specs.Methods.{method_named};

use http_front::AireHeader;
use http_header::HeaderMap;
use lang_core::{Method, Names, NoMemory, ThinSeq, method_named};
use request_names::read_number;
use std::alloc::{AllocError, Global};
use wire_fields::{name_of, text_at};

/// The number in a field, where there is one.
pub fn number_at(head: &HeaderMap, header: AireHeader) -> Option<u64>
    ensures { result ≡ number_of (text_at head.now header) }
{
    read_number(text_at(head, header))
}

/// The method of a word, GET where it names none.
pub fn method_in(text: &str) -> Method
    ensures { result ≡ or_get (method_named text.now) }
{
    match method_named(text.as_bytes()) {
        Some(method) => method,
        None => Method::Get,
    }
}

/// The name of who asks from outside.
pub fn who_or_anyone(who: &str) -> &str
    ensures { result.now ≡ who_or_anyone who.now }
{
    if who.is_empty() { "anyone" } else { who }
}

fn is_behind_comma(front: &[u8]) -> bool
    ensures { result ≡ is_behind_comma front.now }
{
    front.is_empty() || front.ends_with(b",")
}

/// Whether this is a chain's last name.
pub fn ends_with_name(chain: &str, name: &str) -> bool
    ensures { result ≡ ends_with_name chain.now name.now }
{
    let chain = chain.as_bytes();
    let name = name.as_bytes();
    chain.ends_with(name) && is_behind_comma(&chain[..chain.len() - name.len()])
}

fn pieces_of(alloc: Global, chain: &str) -> Result<Vec<&str>, AllocError>
    ensures { IfOk result (λ pieces. map (λ x. x.now) pieces.items ≡ slice_split (λ b. b == 44) chain.now) }
{
    chain.split(',').collect(alloc)
}

fn names_of(alloc: Global, pieces: &[&str]) -> Result<Names, NoMemory>
    requires { All (λ piece. IsTrue (is_name piece.now)) pieces.now }
    ensures { IfOk result (λ names. names ≡ map (λ x. x.now) pieces.now) }
{
    let mut names = ThinSeq::new(alloc);
    for piece in pieces {
        names.push(name_of(alloc, piece)?)?;
    }
    Ok(names)
}

/// The names of a chain.
pub fn names_in(alloc: Global, chain: &str) -> Result<Names, NoMemory>
    requires { IsTrue (is_chain chain.now) }
    ensures { IfOk result (λ names. names ≡ names_in chain.now) }
{
    let pieces = pieces_of(alloc, chain)?;
    names_of(alloc, &pieces)
}
