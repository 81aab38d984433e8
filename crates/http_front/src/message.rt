// Messages over HTTP, and why one isn't read or written.
ghost use Rattle.http_front.specs.declared.message.FrontRefused.TheVariants.{NoMemory as NoRoom, ReadFault};
ghost use Rattle.http_front.specs.declared.message.WriteRefused.TheVariants.{NoMemory as NoRoomToWrite, WriteFault};
ghost use Rattle.std.specs.Prelude.{◌≡◌, IfOk};

use http_header::{HeaderMap, HeaderMapError, HeaderNameError, HeaderValueError};
use io_edge::Failed;
use lang_base::{Copied, NoMemory, Text, both};
use lang_tree::Method;
use std::alloc::{AllocError, AllocFailed, Global};

/// A request as it comes or goes over the wire.
pub struct WireRequest {
    pub method: Method,
    /// The target, which is a path.
    pub path: Text,
    /// The fields of the head, under their names in lower case.
    pub head: HeaderMap,
    pub body: Text,
}

impl Drop for WireRequest {
    fn drop(self) {
        let Self {
            method: _,
            path: _,
            head: _,
            body: _,
        } = self;
    }
}

/// A response as it comes or goes over the wire.
pub struct WireResponse {
    pub status: u16,
    /// The fields of the head, under their names in lower case.
    pub head: HeaderMap,
    pub body: Text,
}

impl Drop for WireResponse {
    fn drop(self) {
        let Self {
            status: _,
            head: _,
            body: _,
        } = self;
    }
}

// An equal map of fields.
#[tactic(auto, using(crate::proofs::CopyLemmas::map_same))]
fn head_copied(head: &HeaderMap) -> Result<HeaderMap, NoMemory>
    ensures { IfOk result (λ copy. copy ≡ head.now) }
{
    match head.clone() {
        Ok(copy) => Ok(copy),
        Err(_) => Err(NoMemory),
    }
}

impl Copied for WireRequest {
    fn copied(&self, alloc: Global) -> Result<WireRequest, NoMemory> {
        let texts = both(self.path.copied(alloc), self.body.copied(alloc));
        let ((path, body), head) = both(texts, head_copied(&self.head))?;
        Ok(WireRequest {
            method: self.method,
            path,
            head,
            body,
        })
    }
}

impl Copied for WireResponse {
    fn copied(&self, alloc: Global) -> Result<WireResponse, NoMemory> {
        let (body, head) = both(self.body.copied(alloc), head_copied(&self.head))?;
        Ok(WireResponse {
            status: self.status,
            head,
            body,
        })
    }
}

/// Why no message was read.
#[derive(Clone, Copy, Debug, PartialEq, Eq)]
pub enum FrontRefused {
    /// No memory for it.
    NoMemory,
    /// A read failed, and the source's count of faults rose.
    ReadFault,
    /// The source ended within the message, after so many bytes.
    Cut(u64),
    /// What stands up to the head's end is no head of HTTP/1.0 or HTTP/1.1 with at most 64 fields, or a request's target
    /// is no path.
    BadHead,
    /// The first 16,384 bytes hold no end of a head.
    HeadTooLong,
    /// The body has more than 65,536 bytes.
    BodyTooLong,
    /// The body would have another coding: there is a field `Transfer-Encoding`.
    Coding,
    /// A `Content-Length` isn't 1 to 19 digits, or two of them differ.
    BadLength,
    /// The body isn't UTF-8.
    NotText,
    /// The method is none of the four.
    Method,
}

/// Why a message wasn't written whole.
#[derive(Clone, Copy, Debug, PartialEq, Eq)]
pub enum WriteRefused {
    /// No memory for its bytes.
    NoMemory,
    /// A write failed, and the sink's count of faults rose.
    WriteFault,
}

impl From<AllocError> for FrontRefused {
    ghost from_gives = { λ _ e. e ≡ NoRoom };

    fn from(_: AllocError) -> Self {
        FrontRefused::NoMemory
    }
}

impl<T: Drop> From<AllocFailed<T>> for FrontRefused {
    ghost from_gives = { λ _ e. e ≡ NoRoom };

    fn from(_: AllocFailed<T>) -> Self {
        FrontRefused::NoMemory
    }
}

impl From<NoMemory> for FrontRefused {
    ghost from_gives = { λ _ e. e ≡ NoRoom };

    fn from(_: NoMemory) -> Self {
        FrontRefused::NoMemory
    }
}

impl From<Failed> for FrontRefused {
    ghost from_gives = { λ _ e. e ≡ ReadFault };

    fn from(_: Failed) -> Self {
        FrontRefused::ReadFault
    }
}

impl From<AllocError> for WriteRefused {
    ghost from_gives = { λ _ e. e ≡ NoRoomToWrite };

    fn from(_: AllocError) -> Self {
        WriteRefused::NoMemory
    }
}

impl From<Failed> for WriteRefused {
    ghost from_gives = { λ _ e. e ≡ WriteFault };

    fn from(_: Failed) -> Self {
        WriteRefused::WriteFault
    }
}
