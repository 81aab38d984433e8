// What a line prints.
ghost use Rattle.std.specs.Prelude.{◌≡◌};
ghost use Rattle.std.specs.String.{string_bytes};

use lang_core::Text;
use std::marker::Model;

/// In which form it was made: a line that becomes a text needs one block more.
#[derive(Drop)]
enum Form {
    Line(String),
    Report(Text),
}

/// What a line prints, seen as its bytes.
#[derive(Drop)]
pub struct Printed {
    form: Form,
}

impl Model for Printed {
    ghost use Rattle.std.specs.Prelude.{ℕ, List};

    ghost Value = { List ℕ };

    ghost use Rattle.script_run.specs.Printing.{form_bytes};

    ghost view = { λ printed. form_bytes printed.form };
}

impl Printed {
    /// A line that was made of what happened.
    pub(crate) fn line(line: String) -> Printed
        ensures { result ≡ string_bytes line }
    {
        Printed {
            form: Form::Line(line),
        }
    }

    /// A report of what stands in a world.
    pub(crate) fn report(text: Text) -> Printed
        ensures { result ≡ text }
    {
        Printed {
            form: Form::Report(text),
        }
    }

    /// Its bytes.
    pub fn as_bytes(&self) -> &[u8]
        ensures { result.now ≡ self.now }
    {
        match &self.form {
            Form::Line(line) => line.as_bytes(),
            Form::Report(text) => text.as_bytes(),
        }
    }
}
