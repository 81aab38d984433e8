// Requests and responses.
ghost use Rattle.std.specs.Prelude.{◌≡◌};
ghost use Rattle.lang_core.specs.Names.{is_who};

use crate::ids::Names;
use lang_tree::{Copied, Method, NoMemory, Same, Text, ThinSeq, all_visible, both};
use std::alloc::Global;

/// The most bytes of a user's name or a token.
pub const LONGEST_WHO: u64 = 64;

/// Whether a text may name a user or be a token: from 1 to 64 visible ASCII characters.
pub fn is_who(text: &Text) -> bool
    ensures { result ≡ is_who text.now }
{
    let bytes = text.as_bytes();
    !bytes.is_empty() && text.len() <= LONGEST_WHO && all_visible(bytes)
}

/// A request, with the user that it came for and the services that called for it, outermost first.
pub struct Request {
    pub method: Method,
    pub path: Text,
    pub body: Text,
    pub who: Text,
    pub chain: Names,
}

impl Drop for Request {
    fn drop(self) {
        let Self {
            method: _,
            path: _,
            body: _,
            who: _,
            chain: _,
        } = self;
    }
}

impl Copied for Request {
    fn copied(&self, alloc: Global) -> Result<Request, NoMemory> {
        let texts = both(self.path.copied(alloc), self.body.copied(alloc));
        let sent = both(self.who.copied(alloc), self.chain.copied(alloc));
        let (texts, sent) = both(texts, sent)?;
        Ok(Request {
            method: self.method,
            path: texts.0,
            body: texts.1,
            who: sent.0,
            chain: sent.1,
        })
    }
}

impl Same for Request {
    fn is(&self, other: &Request) -> bool {
        self.method == other.method
            && self.path.is(&other.path)
            && self.body.is(&other.body)
            && self.who.is(&other.who)
            && self.chain.is(&other.chain)
    }
}

/// A response: a status of HTTP and a body.
pub struct Response {
    pub status: u16,
    pub body: Text,
}

impl Drop for Response {
    fn drop(self) {
        let Self { status: _, body: _ } = self;
    }
}

impl Copied for Response {
    fn copied(&self, alloc: Global) -> Result<Response, NoMemory> {
        Ok(Response {
            status: self.status,
            body: self.body.copied(alloc)?,
        })
    }
}

impl Same for Response {
    fn is(&self, other: &Response) -> bool {
        self.status == other.status && self.body.is(&other.body)
    }
}

/// The answers of a request's calls, in the order of the calls.
pub type Answers = ThinSeq<Response>;
