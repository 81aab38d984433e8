// Requests and responses, read.
ghost use Rattle.std.specs.Prelude.{◌≡◌, ◌≤◌, ℕ, List, Some, length, IsErrOf};
ghost use Rattle.std.specs.Option.{ForSome};
ghost use Rattle.io_edge.specs.Edge.{TookUpTo, ReadFails};
ghost use Rattle.http_front.specs.Answers.{UnlessInterrupted};
ghost use Rattle.http_front.specs.Reading.{RequestBehind, ResponseBehind, SpellsRequest, SpellsResponse, request_with, response_with};

use crate::message::{FrontRefused, WireRequest, WireResponse};
use crate::reading::{read_body, read_head};
use crate::request_head::{RequestStart, request_start};
use crate::response_head::{ResponseStart, response_start};
use io_edge::Source;
use lang_base::Text;
use std::alloc::Global;

fn request_with(
    start: RequestStart,
    body: Result<Text, FrontRefused>,
) -> Result<WireRequest, FrontRefused>
    ensures { result ≡ request_with start body }
{
    match body {
        Err(why) => Err(why),
        Ok(body) => Ok(WireRequest {
            method: start.method,
            path: start.path,
            head: start.head,
            body,
        }),
    }
}

fn response_with(
    start: ResponseStart,
    body: Result<Text, FrontRefused>,
) -> Result<WireResponse, FrontRefused>
    ensures { result ≡ response_with start body }
{
    match body {
        Err(why) => Err(why),
        Ok(body) => Ok(WireResponse {
            status: start.status,
            head: start.head,
            body,
        }),
    }
}

fn request_behind<S: Source>(
    alloc: Global,
    source: &mut S,
    head: &[u8],
) -> Result<WireRequest, FrontRefused>
    requires { length head.now ≤ 16384 }
    ensures request { UnlessInterrupted result (ForSome (S.reads source.old).left (λ behind.
        (rest : List ℕ) × ((S.reads source.new).left ≡ Some rest) × RequestBehind head.now behind result rest)) }
    ensures taken { TookUpTo 65536 (S.reads source.old) (S.reads source.new) }
    ensures whole { (S.reads source.new).whole ≡ (S.reads source.old).whole }
    ensures beside { S.beside source.new ≡ S.beside source.old }

    ensures counted { (S.reads source.old).faults ≤ (S.reads source.new).faults }
    ensures fault { IsErrOf result FrontRefused.ReadFault → ReadFails (S.reads source.old) (S.reads source.new) }
{
    match request_start(alloc, head) {
        Err(why) => Err(why),
        Ok(start) => {
            let body = read_body(alloc, source, head.len() as u64, start.length);
            request_with(start, body)
        }
    }
}

fn response_behind<S: Source>(
    alloc: Global,
    source: &mut S,
    head: &[u8],
) -> Result<WireResponse, FrontRefused>
    requires { length head.now ≤ 16384 }
    ensures response { UnlessInterrupted result (ForSome (S.reads source.old).left (λ behind.
        (rest : List ℕ) × ((S.reads source.new).left ≡ Some rest) × ResponseBehind head.now behind result rest)) }
    ensures taken { TookUpTo 65536 (S.reads source.old) (S.reads source.new) }
    ensures whole { (S.reads source.new).whole ≡ (S.reads source.old).whole }
    ensures beside { S.beside source.new ≡ S.beside source.old }

    ensures counted { (S.reads source.old).faults ≤ (S.reads source.new).faults }
    ensures fault { IsErrOf result FrontRefused.ReadFault → ReadFails (S.reads source.old) (S.reads source.new) }
{
    match response_start(alloc, head) {
        Err(why) => Err(why),
        Ok(start) => {
            let body = read_body(alloc, source, head.len() as u64, start.length);
            response_with(start, body)
        }
    }
}

/// Reads one request, and nothing behind it.
///
/// The head ends with the first LF LF or LF CR LF behind a byte that is neither CR nor LF, and has at most 16,384 bytes.
/// The body has the length that `Content-Length` says, 0 without one, and at most 65,536 bytes. A refusal is the first of:
/// `Cut` or `HeadTooLong` where no head ends; `BadHead`; `Method`; `Coding`; `BadLength`; `BodyTooLong`; `Cut` within the
/// body; `NotText`. `NoMemory` and `ReadFault` may come at any time, and then a front of the bytes is gone, of 81,920 at most.
pub fn read_request<S: Source>(alloc: Global, source: &mut S) -> Result<WireRequest, FrontRefused>
    ensures request { UnlessInterrupted result (ForSome (S.reads source.old).left (λ bytes.
        (rest : List ℕ) × ((S.reads source.new).left ≡ Some rest) × SpellsRequest bytes result rest)) }
    ensures taken { TookUpTo 81920 (S.reads source.old) (S.reads source.new) }
    ensures whole { (S.reads source.new).whole ≡ (S.reads source.old).whole }
    ensures beside { S.beside source.new ≡ S.beside source.old }

    ensures counted { (S.reads source.old).faults ≤ (S.reads source.new).faults }
    ensures fault { IsErrOf result FrontRefused.ReadFault → ReadFails (S.reads source.old) (S.reads source.new) }
{
    match read_head(alloc, source) {
        Err(why) => Err(why),
        Ok(head) => request_behind(alloc, source, head.as_slice()),
    }
}

/// Reads one response, and nothing behind it, as `read_request` reads a request. There is no `Method` among its refusals.
pub fn read_response<S: Source>(alloc: Global, source: &mut S) -> Result<WireResponse, FrontRefused>
    ensures response { UnlessInterrupted result (ForSome (S.reads source.old).left (λ bytes.
        (rest : List ℕ) × ((S.reads source.new).left ≡ Some rest) × SpellsResponse bytes result rest)) }
    ensures taken { TookUpTo 81920 (S.reads source.old) (S.reads source.new) }
    ensures whole { (S.reads source.new).whole ≡ (S.reads source.old).whole }
    ensures beside { S.beside source.new ≡ S.beside source.old }

    ensures counted { (S.reads source.old).faults ≤ (S.reads source.new).faults }
    ensures fault { IsErrOf result FrontRefused.ReadFault → ReadFails (S.reads source.old) (S.reads source.new) }
{
    match read_head(alloc, source) {
        Err(why) => Err(why),
        Ok(head) => response_behind(alloc, source, head.as_slice()),
    }
}
