// Programs, kept as the text that is printed of them.
ghost use Rattle.std.specs.Prelude.{◌≡◌, ◌↔◌, Some, None, true, IfOk, IsTrue, if◌then◌else◌};
ghost use Rattle.lang_tree.specs.Depths.{routes_fit};
ghost use Rattle.handler_lang.specs.HandedOn.{text_of};
ghost use Rattle.lang_programs.specs.Printed.{IsKept, is_long, kept_program, program_in};

use crate::stmts::same_routes;
use handler_lang::{ReadFailed, lex, print_routes, routes};
use lang_core::{Copied, LONGEST_TEXT, NoMemory, Program, Routes, Same, Text};
use std::alloc::Global;
use std::marker::Model;

/// A program, kept as the text that is printed of it and seen as the program itself. Rows keep programs so: a text is one
/// block of memory, where a tree is thousands, and it is what is shown of a program.
pub struct ProgramText {
    text: Text,
    // The tree itself, where the text has more tokens than one has from which a program is read. No program that was read from a
    // text is so long.
    tree: Option<Program>,
}

impl Drop for ProgramText {
    fn drop(self) {
        let Self { text: _, tree: _ } = self;
    }
}

impl Model for ProgramText {
    ghost use Rattle.std.specs.Prelude.{List};
    ghost use Rattle.std.specs.Coded.{coded_list};
    ghost use Rattle.lang_tree.specs.contracts.program.Route as route;
    ghost use Rattle.lang_tree.specs.declared.program.Route.{Route};
    ghost use Rattle.lang_programs.specs.Printed.{IsKept, kept_program};

    ghost Value = { List Route };

    ghost coded = { coded_list route.the_row.coded };

    ghost view = { λ kept. kept_program kept.tree kept.text };

    ghost invariant = { λ kept. IsKept kept.tree kept.text (kept_program kept.tree kept.text) };
}

fn is_long(alloc: Global, text: &Text) -> Result<bool, NoMemory>
    ensures { IfOk result (λ long. long ≡ is_long text.now) }
{
    let found = lex(alloc, text.as_bytes())?;
    Ok(found.tokens.len() > LONGEST_TEXT)
}

// The tree that is kept beside the text.
fn tree_beside(alloc: Global, text: &Text, program: &Program) -> Result<Option<Program>, NoMemory>
    ensures { IfOk result (λ tree. tree ≡ (if is_long text.now then Some program.now else None)) }
{
    if is_long(alloc, text)? {
        Ok(Some(program.copied(alloc)?))
    } else {
        Ok(None)
    }
}

fn program_from(routes: Routes) -> Program
    requires { routes_fit routes ≡ true }
    ensures { result ≡ routes }
{
    match Program::new(routes) {
        Ok(program) => program,
        Err(_) => unreachable!(),
    }
}

fn fitting(routes: Routes) -> Option<Program>
    ensures { result ≡ (if routes_fit routes then Some routes else None) }
{
    Program::new(routes).ok()
}

// The program of a text that is kept alone.
#[tactic(auto, using(crate::proofs::KeptLemmas::read_back))]
fn read_again(alloc: Global, text: &Text) -> Result<Program, NoMemory>
    requires { IsKept None text.now (kept_program None text.now) }
    ensures { IfOk result (λ program. program ≡ kept_program None text.now) }
{
    let found = lex(alloc, text.as_bytes())?;
    match routes(alloc, found.tokens.as_slice()) {
        Ok(routes) => Ok(program_from(routes)),
        Err(ReadFailed::NoMemory) => Err(NoMemory),
        Err(ReadFailed::At(_)) => unreachable!(),
    }
}

impl ProgramText {
    /// The program as it is printed.
    #[tactic(auto, using(crate::proofs::KeptLemmas::kept_is, crate::proofs::KeptLemmas::kept_so))]
    pub fn of(alloc: Global, program: &Program) -> Result<ProgramText, NoMemory>
        ensures { IfOk result (λ kept. kept ≡ program.now) }
    {
        let text = print_routes(alloc, program.routes())?;
        let tree = tree_beside(alloc, &text, program)?;
        Ok(ProgramText { text, tree })
    }

    /// The program whose words stand in a text of any length, or none where they are no program: more than 65,536 words, or
    /// blocks too deep. A text that is printed of a program is read as that program, unless it has more words.
    pub fn read(alloc: Global, text: &Text) -> Result<Option<Program>, NoMemory>
        ensures { IfOk result (λ read. read ≡ program_in text.now) }
    {
        let found = lex(alloc, text.as_bytes())?;
        match routes(alloc, found.tokens.as_slice()) {
            Ok(routes) => Ok(fitting(routes)),
            Err(ReadFailed::NoMemory) => Err(NoMemory),
            Err(ReadFailed::At(_)) => Ok(None),
        }
    }

    /// The text that is printed of it.
    pub fn text(&self) -> &Text
        ensures { result.now ≡ text_of self.now }
    {
        &self.text
    }

    /// The program, read back from the text.
    pub fn program(&self, alloc: Global) -> Result<Program, NoMemory>
        ensures { IfOk result (λ program. program ≡ self.now) }
    {
        match &self.tree {
            None => read_again(alloc, &self.text),
            Some(tree) => tree.copied(alloc),
        }
    }
}

impl Copied for ProgramText {
    fn copied(&self, alloc: Global) -> Result<ProgramText, NoMemory> {
        let text = self.text.copied(alloc)?;
        let tree = Copied::copied(&self.tree, alloc)?;
        Ok(ProgramText { text, tree })
    }
}

fn same_tree(left: &Option<Program>, right: &Option<Program>) -> bool
    ensures { IsTrue result ↔ (left.now ≡ right.now) }
{
    match (left, right) {
        (None, None) => true,
        (Some(left), Some(right)) => same_routes(left.routes(), right.routes()),
        _ => false,
    }
}

impl Same for ProgramText {
    #[tactic(auto, using(crate::proofs::KeptLemmas::same_kept_text, crate::proofs::KeptLemmas::same_kept_tree))]
    fn is(&self, other: &ProgramText) -> bool {
        self.text.is(&other.text) && same_tree(&self.tree, &other.tree)
    }
}
