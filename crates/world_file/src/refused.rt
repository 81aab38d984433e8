// Why a file is refused as a world.
ghost use Rattle.std.specs.Prelude.{◌≡◌};
ghost use Rattle.world_file.specs.Numbers.{refusal_number};

use crate::field::{Field, FieldFault};
use authorise_rules::RulesRefused;
use handler_lang::ProgramRefused;
use lang_core::{Name, NoMemory};
use order_texts::{line_refused, place_refused};
use std::fmt;

/// Why the bytes of a file are refused as a world. Tests come in this order: JSON, the list of services, how many they are,
/// and then for each service in turn its fields, its name among the earlier ones, its program, and its rules. The first is the refusal.
#[derive(Drop)]
pub enum WorldRefused {
    /// Memory ran out. Nothing is known of the file.
    NoMemory,
    /// The bytes aren't one JSON value, or nest more than 127 deep.
    NotJson,
    /// A field isn't there.
    Missing(Field),
    /// A field isn't of its form, or is outside its limits.
    BadField(Field),
    /// An earlier service has this name.
    Twice(Name),
    /// There are more services than a world may have.
    TooMany,
    /// The program of the service of this name is refused.
    Program(Name, ProgramRefused),
    /// The rules of the service of this name are refused.
    Rules(Name, RulesRefused),
}

impl WorldRefused {
    /// The refusal's number, from 1 to 7; 0 for want of memory.
    pub fn number(&self) -> u64
        ensures { result ≡ refusal_number self.now }
    {
        match self {
            WorldRefused::NoMemory => 0,
            WorldRefused::NotJson => 1,
            WorldRefused::Missing(_) => 2,
            WorldRefused::BadField(_) => 3,
            WorldRefused::Twice(_) => 4,
            WorldRefused::TooMany => 5,
            WorldRefused::Program(_, _) => 6,
            WorldRefused::Rules(_, _) => 7,
        }
    }
}

/// The refusal's number, and what it is about: a field, or a service's name, or that name, the number of its program's or
/// its rules' refusal, and the byte or the line of the text where that stands.
impl fmt::Display for WorldRefused {
    ghost use Rattle.std.specs.Prelude.{Some};
    ghost use Rattle.world_file.specs.Numbers.{refusal_text};

    ghost output = { λ why. Some (refusal_text why) };

    fn fmt<W: fmt::Write>(&self, f: &mut fmt::Formatter<W>) -> fmt::Result {
        match self {
            WorldRefused::NoMemory => write!(f, "0"),
            WorldRefused::NotJson => write!(f, "1"),
            WorldRefused::Missing(field) => {
                let field = field.as_str();
                write!(f, "2 {field}")
            }
            WorldRefused::BadField(field) => {
                let field = field.as_str();
                write!(f, "3 {field}")
            }
            WorldRefused::Twice(name) => {
                let name = name.as_str();
                write!(f, "4 {name}")
            }
            WorldRefused::TooMany => write!(f, "5"),
            WorldRefused::Program(name, refused) => {
                let name = name.as_str();
                let number = refused.number();
                let place = place_refused(*refused);
                write!(f, "6 {name} {number} {place}")
            }
            WorldRefused::Rules(name, refused) => {
                let name = name.as_str();
                let number = refused.number();
                let line = line_refused(*refused);
                write!(f, "7 {name} {number} {line}")
            }
        }
    }
}

impl From<NoMemory> for WorldRefused {
    ghost use Rattle.world_file.specs.declared.refused.WorldRefused.{WorldRefused};

    ghost from_gives = { λ _ why. why ≡ WorldRefused.NoMemory };

    fn from(_: NoMemory) -> WorldRefused {
        WorldRefused::NoMemory
    }
}

impl From<FieldFault> for WorldRefused {
    ghost use Rattle.world_file.specs.Worlds.{refusal_of};

    ghost from_gives = { λ fault why. why ≡ refusal_of fault };

    fn from(fault: FieldFault) -> WorldRefused {
        match fault {
            FieldFault::Missing(field) => WorldRefused::Missing(field),
            FieldFault::Bad(field) => WorldRefused::BadField(field),
        }
    }
}
