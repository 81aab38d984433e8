// Programs with their numbers.
ghost use Rattle.std.specs.Prelude.{◌≡◌, IfOk};
ghost use Rattle.lang_programs.specs.Numbered.{Numbered};

use crate::program_text::ProgramText;
use lang_core::{Copied, NoMemory, Program, Same, Shared};
use std::alloc::Global;
use std::marker::Model;

/// A program by its number at a service, kept as its text. This is what is left of a program that nothing runs under any more.
pub struct NumberedText {
    /// From 1.
    pub number: u64,
    pub text: Shared<ProgramText>,
}

impl Drop for NumberedText {
    fn drop(self) {
        let Self { number: _, text: _ } = self;
    }
}

impl Model for NumberedText {
    ghost use Rattle.lang_programs.specs.Numbered.{Numbered, numbered_code};

    ghost Value = { Numbered };

    ghost coded = { numbered_code };

    ghost view = { λ kept. record { number = kept.number; program = kept.text } };
}

impl Copied for NumberedText {
    fn copied(&self, alloc: Global) -> Result<NumberedText, NoMemory> {
        Ok(NumberedText {
            number: self.number,
            text: self.text.copied(alloc)?,
        })
    }
}

impl Same for NumberedText {
    fn is(&self, other: &NumberedText) -> bool {
        self.number == other.number && self.text.is(&other.text)
    }
}

/// A program by its number at a service, which requests run under: its tree, and beside it its text, which outlives it. It is
/// held by all that run under it together, and the last of them frees the tree.
pub struct Deployed {
    program: Program,
    text: Shared<NumberedText>,
}

impl Drop for Deployed {
    fn drop(self) {
        let Self {
            program: _,
            text: _,
        } = self;
    }
}

impl Model for Deployed {
    ghost use Rattle.std.specs.Prelude.{◌≡◌};
    ghost use Rattle.lang_programs.specs.Numbered.{Numbered, numbered_code};

    ghost Value = { Numbered };

    ghost coded = { numbered_code };

    ghost view = { λ deployed. deployed.text };

    ghost invariant = { λ deployed. deployed.program ≡ deployed.text.program };
}

// A text with its number, in a block of its own.
fn numbered(
    alloc: Global,
    number: u64,
    text: Shared<ProgramText>,
) -> Result<Shared<NumberedText>, NoMemory>
    ensures { IfOk result (λ kept. kept ≡ record { number = number; program = text }) }
{
    Shared::new(alloc, NumberedText { number, text })
}

fn shared_text(alloc: Global, program: &Program) -> Result<Shared<ProgramText>, NoMemory>
    ensures { IfOk result (λ text. text ≡ program.now) }
{
    Shared::new(alloc, ProgramText::of(alloc, program)?)
}

impl Deployed {
    /// A program with this number, and its text printed of it.
    pub fn of(alloc: Global, number: u64, program: Program) -> Result<Shared<Deployed>, NoMemory>
        ensures { IfOk result (λ deployed. deployed ≡ record { number = number; program = program }) }
    {
        let text = shared_text(alloc, &program)?;
        let text = numbered(alloc, number, text)?;
        Shared::new(alloc, Deployed { program, text })
    }

    /// The program of a text with this number, read back from it. The text is shared.
    pub fn from_text(
        alloc: Global,
        number: u64,
        text: &Shared<ProgramText>,
    ) -> Result<Shared<Deployed>, NoMemory>
        ensures { IfOk result (λ deployed. deployed ≡ record { number = number; program = text.now }) }
    {
        let kept = numbered(alloc, number, text.copied(alloc)?)?;
        let program = text.get().program(alloc)?;
        Shared::new(
            alloc,
            Deployed {
                program,
                text: kept,
            },
        )
    }

    /// Its number, from 1.
    pub fn number(&self) -> u64
        ensures { result ≡ self.now.number }
    {
        self.text.get().number
    }

    /// Its tree.
    pub fn program(&self) -> &Program
        ensures { result.now ≡ self.now.program }
    {
        &self.program
    }

    /// Its text, with its number.
    pub fn text(&self) -> &Shared<NumberedText>
        ensures { result.now ≡ self.now }
    {
        &self.text
    }
}
