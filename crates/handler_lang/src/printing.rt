// Programs, printed as texts.
ghost use Rattle.std.specs.Prelude.{◌≡◌, ◌≤◌, Ok, IfOk, length};
ghost use Rattle.lang_grammar.specs.Printing.{text_of};
ghost use Rattle.handler_lang.specs.Reading.{read_of};
ghost use Rattle.handler_lang.specs.Spelled.{Spells};

use lang_base::{NoMemory, Text};
use lang_grammar::print_routes;
use lang_tree::Program;
use std::alloc::Global;

/// The one text that is printed of a program: its tokens with one space between two, and behind each `;`, `{` and `}` a
/// line feed in place of the space.
#[tactic(auto, using(crate::proofs::Spelled::printed_spells, crate::proofs::Spelled::read_again))]
pub fn print_program(alloc: Global, program: &Program) -> Result<Text, NoMemory>
    ensures text { IfOk result (λ text. text ≡ text_of program.now) }
    // It spells the program, however long it is.
    ensures spells { IfOk result (λ text. Spells text program.now) }
    // It reads back to the same program, where it isn't too long.
    ensures back { IfOk result (λ text. length text ≤ 65536 → read_of text ≡ Ok program.now) }
{
    print_routes(alloc, program.routes())
}
