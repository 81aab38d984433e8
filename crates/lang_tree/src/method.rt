// Methods of requests, and their words.
ghost use Rattle.std.specs.Prelude.{◌≡◌, Some};
ghost use Rattle.lang_tree.specs.Methods.{method_named, method_word};

use lang_base::{Copied, NoMemory, Same};
use std::alloc::Global;

/// What a request asks for.
#[derive(Clone, Copy, PartialEq, Eq)]
pub enum Method {
    Get,
    Put,
    Post,
    Delete,
}

impl Copied for Method {
    fn copied(&self, _alloc: Global) -> Result<Method, NoMemory> {
        Ok(*self)
    }
}

impl Same for Method {
    fn is(&self, other: &Method) -> bool {
        *self == *other
    }
}

/// The method with this word, which is tested with regard to case.
pub fn method_named(word: &[u8]) -> Option<Method>
    ensures { result ≡ method_named word.now }
{
    if word == b"GET".as_slice() {
        Some(Method::Get)
    } else if word == b"PUT".as_slice() {
        Some(Method::Put)
    } else if word == b"POST".as_slice() {
        Some(Method::Post)
    } else if word == b"DELETE".as_slice() {
        Some(Method::Delete)
    } else {
        None
    }
}

/// The method's word, which names it.
pub fn method_word(method: Method) -> &'static str
    ensures word { result.now ≡ method_word method }
    ensures named { method_named (method_word method) ≡ Some method }
{
    match method {
        Method::Get => "GET",
        Method::Put => "PUT",
        Method::Post => "POST",
        Method::Delete => "DELETE",
    }
}
