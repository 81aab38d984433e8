// What an order is about, as a text.
ghost use Rattle.std.specs.Prelude.{◌≡◌, ◌++◌, OnOk, string_bytes};
ghost use Rattle.report_text.specs.Abouts.{about_text};

use crate::holds::push_post_name;
use journal_rows::About;
use lang_core::{Name, NoMemory};
use request_names::push_id;

/// Puts what an order of the service of this name is about last: `S/N`, `call:N` or `reply:N`, `program:N` or `rules`.
pub fn push_about(text: &mut String, service: &Name, about: About) -> Result<(), NoMemory>
    ensures { OnOk result (string_bytes text.new ≡ string_bytes text.old ++ about_text service.now about) }
{
    match about {
        About::Request(id) => push_id(text, service, id),
        About::Post(name) => push_post_name(text, name),
        About::Program(number) => {
            write!(text, "program:{number}")?;
            Ok(())
        }
        About::Rules => {
            text.push_str("rules")?;
            Ok(())
        }
    }
}
