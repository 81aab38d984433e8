// Names of services, and the names of requests and calls.
ghost use Rattle.std.specs.Prelude.{◌≡◌, ◌↔◌, IfOk, IsTrue, if◌then◌else◌};
ghost use Rattle.std.specs.List.{list_all};
ghost use Rattle.lang_core.specs.Names.{is_name_byte, is_name};

use lang_tree::{Copied, NoMemory, Same, Text, ThinSeq};
use std::alloc::Global;
use std::marker::Model;

/// The most bytes of a name.
pub const LONGEST_NAME: u64 = 32;

/// The name of a service, from 1 to 32 of a-z, 0-9 and `_`, seen as its bytes.
pub struct Name {
    text: Text,
}

impl Drop for Name {
    fn drop(self) {
        let Self { text: _ } = self;
    }
}

impl Model for Name {
    ghost use Rattle.std.specs.Prelude.{ℕ, List, IsTrue};
    ghost use Rattle.lang_core.specs.Names.{is_name};

    ghost Value = { List ℕ };

    ghost view = { λ name. name.text };

    ghost invariant = { λ name. IsTrue (is_name name.text) };
}

/// Whether a name may have this byte.
pub fn is_name_byte(byte: u8) -> bool
    ensures { result ≡ is_name_byte byte }
{
    byte.is_ascii_lowercase() || byte.is_ascii_digit() || byte == b'_'
}

fn all_name_bytes(bytes: &[u8]) -> bool
    ensures { result ≡ list_all is_name_byte bytes.now }
{
    bytes.iter().all(|b| is_name_byte(*b))
}

/// Whether these bytes are the name of a service.
pub fn is_name(bytes: &[u8]) -> bool
    ensures { result ≡ is_name bytes.now }
{
    !bytes.is_empty() && bytes.len() as u64 <= LONGEST_NAME && all_name_bytes(bytes)
}

impl Name {
    /// The name with this text, which is handed back exactly where it is no name.
    pub fn new(text: Text) -> Result<Name, Text>
        ensures { result ≡ (if is_name text then Ok text else Err text) }
    {
        if is_name(text.as_bytes()) {
            Ok(Name { text })
        } else {
            Err(text)
        }
    }

    /// The name as a text.
    pub fn text(&self) -> &Text
        ensures text { result.now ≡ self.now }
        ensures name { IsTrue (is_name self.now) }
    {
        &self.text
    }

    /// The characters.
    pub fn as_str(&self) -> &str
        ensures { result.now ≡ self.now }
    {
        self.text.as_str()
    }
}

impl Copied for Name {
    fn copied(&self, alloc: Global) -> Result<Name, NoMemory> {
        let text = self.text.copied(alloc)?;
        Ok(Name { text })
    }
}

impl Same for Name {
    fn is(&self, other: &Name) -> bool {
        self.text.is(&other.text)
    }
}

/// Names of services, in order.
pub type Names = ThinSeq<Name>;

/// A request, by the service that logged it and its number there, from 1.
pub struct RequestId {
    pub service: Name,
    pub number: u64,
}

impl Drop for RequestId {
    fn drop(self) {
        let Self {
            service: _,
            number: _,
        } = self;
    }
}

/// A call, by the service that made it and its number there, from 1.
pub struct CallId {
    pub service: Name,
    pub number: u64,
}

impl Drop for CallId {
    fn drop(self) {
        let Self {
            service: _,
            number: _,
        } = self;
    }
}

impl Copied for RequestId {
    fn copied(&self, alloc: Global) -> Result<RequestId, NoMemory> {
        Ok(RequestId {
            service: self.service.copied(alloc)?,
            number: self.number,
        })
    }
}

impl Copied for CallId {
    fn copied(&self, alloc: Global) -> Result<CallId, NoMemory> {
        Ok(CallId {
            service: self.service.copied(alloc)?,
            number: self.number,
        })
    }
}

/// Where a request comes from.
pub enum Origin {
    /// A user.
    Outside,
    /// A call, by the service that made it and its number there, from 1.
    Call { caller: Name, number: u64 },
}

impl Drop for Origin {
    fn drop(self) {
        match self {
            Self::Outside
            | Self::Call {
                caller: _,
                number: _,
            } => {}
        }
    }
}

impl Copied for Origin {
    fn copied(&self, alloc: Global) -> Result<Origin, NoMemory> {
        match self {
            Origin::Outside => Ok(Origin::Outside),
            Origin::Call { caller, number } => Ok(Origin::Call {
                caller: caller.copied(alloc)?,
                number: *number,
            }),
        }
    }
}

impl Same for Origin {
    fn is(&self, other: &Origin) -> bool {
        match (self, other) {
            (Origin::Outside, Origin::Outside) => true,
            (
                Origin::Call { caller, number },
                Origin::Call {
                    caller: other_caller,
                    number: other_number,
                },
            ) => caller.is(other_caller) && *number == *other_number,
            _ => false,
        }
    }
}
