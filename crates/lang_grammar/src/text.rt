// The text of a program's routes.
ghost use Rattle.std.specs.Prelude.{◌≡◌, true, IfOk, OnOk};
ghost use Rattle.std.specs.List.{list_all};
ghost use Rattle.lang_tokens.specs.Spelling.{is_held};
ghost use Rattle.lang_grammar.specs.Grammar.{program_tokens};
ghost use Rattle.lang_grammar.specs.Printing.{text_of};

use crate::program::tokens_of;
use lang_base::{NoMemory, Text};
use lang_tokens::write_tokens;
use lang_tree::Route;
use std::alloc::Global;

/// The one text that is printed of routes: their tokens with one space between two, and behind each `;`, `{` and `}` a
/// line feed in place of the space.
pub fn print_routes(alloc: Global, routes: &[Route]) -> Result<Text, NoMemory>
    ensures text { IfOk result (λ text. text ≡ text_of routes.now) }
    // Each integer has 64 bits with its sign, and the text of each string is UTF-8, since their types say so.
    ensures held { OnOk result (list_all is_held (program_tokens routes.now) ≡ true) }
{
    let tokens = tokens_of(alloc, routes)?;
    write_tokens(alloc, &tokens)
}
