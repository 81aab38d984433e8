// The fields of a world file, by name, and what can be wrong with one.
ghost use Rattle.std.specs.Prelude.{◌≡◌};
ghost use Rattle.world_file.specs.Fields.{field_word};

/// A field of a world file.
#[derive(Clone, Copy, PartialEq, Eq, Debug)]
pub enum Field {
    /// The list of services.
    Services,
    /// A service's name.
    Name,
    /// The text of its program.
    Program,
    /// The text of its rules.
    Rules,
    /// The secret that seals its messages.
    Secret,
    /// The secret that seals console requests.
    Console,
    /// The address that it listens at.
    Door,
    /// How many workers serve requests.
    Workers,
    /// How heavy its journal may grow.
    Weight,
    /// How many entries are never folded by the service itself.
    Keep,
}

impl Field {
    /// The field's name in the file.
    pub fn as_str(self) -> &'static str
        ensures { result.now ≡ field_word self }
    {
        match self {
            Field::Services => "services",
            Field::Name => "name",
            Field::Program => "program",
            Field::Rules => "rules",
            Field::Secret => "secret",
            Field::Console => "console",
            Field::Door => "door",
            Field::Workers => "workers",
            Field::Weight => "weight",
            Field::Keep => "keep",
        }
    }
}

/// What is wrong with a field.
#[derive(Clone, Copy, PartialEq, Eq, Debug)]
pub enum FieldFault {
    /// It isn't there.
    Missing(Field),
    /// It is there, and isn't of its form or outside its limits.
    Bad(Field),
}
