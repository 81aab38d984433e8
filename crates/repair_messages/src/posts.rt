// What a service sends by itself, apart from live requests.
use crate::messages::{Fetch, SetMessage, TokenMessage};
use lang_core::{Copied, NoMemory, Same};
use std::alloc::Global;

/// A message that a service posts, until it is acknowledged or confirmed, or an answer came of it.
pub enum Post {
    /// A version of one of its calls.
    Set(SetMessage),
    /// That one of its entries has another answer.
    Token(TokenMessage),
    /// For an answer to one of its calls that was announced.
    Fetch(Fetch),
}

impl Drop for Post {
    fn drop(self) {
        match self {
            Self::Set(_) | Self::Token(_) | Self::Fetch(_) => {}
        }
    }
}

/// Which post of a service.
#[derive(Clone, Copy, PartialEq, Eq)]
pub enum PostName {
    /// That of a call, by the service's number for it.
    Call(u64),
    /// The token of an answer, by its entry's number.
    Reply(u64),
    /// The fetch of an answer, by the service's number for the call.
    Fetch(u64),
}

impl Copied for Post {
    fn copied(&self, alloc: Global) -> Result<Post, NoMemory> {
        match self {
            Post::Set(set) => Ok(Post::Set(set.copied(alloc)?)),
            Post::Token(token) => Ok(Post::Token(token.copied(alloc)?)),
            Post::Fetch(fetch) => Ok(Post::Fetch(fetch.copied(alloc)?)),
        }
    }
}

impl Same for Post {
    fn is(&self, other: &Post) -> bool {
        match (self, other) {
            (Post::Set(left), Post::Set(right)) => left.is(right),
            (Post::Token(left), Post::Token(right)) => left.is(right),
            (Post::Fetch(left), Post::Fetch(right)) => left.is(right),
            _ => false,
        }
    }
}

impl Copied for PostName {
    fn copied(&self, _alloc: Global) -> Result<PostName, NoMemory> {
        Ok(*self)
    }
}

impl Same for PostName {
    fn is(&self, other: &PostName) -> bool {
        *self == *other
    }
}
