// Rules as they were given.
ghost use Rattle.std.specs.Prelude.{◌≡◌, Ok};
ghost use Rattle.authorise_rules.specs.Given.{given_of};
ghost use Rattle.authorise_rules.specs.Reading.{Answers, read_of};

use crate::reading::read_rules;
use crate::refused::RulesRefused;
use crate::rules::Rules;
use lang_base::both;
use lang_core::{Copied, NoMemory, Same, Text};
use std::alloc::Global;
use std::marker::Model;

/// A service's rules with the text that they were read of, in which comments and empty lines are kept.
pub struct GivenRules {
    text: Text,
    rules: Rules,
}

impl Drop for GivenRules {
    fn drop(self) {
        let Self { text: _, rules: _ } = self;
    }
}

impl Model for GivenRules {
    ghost use Rattle.authorise_rules.specs.Given.{GivenRules, IsGiven, given_code};

    ghost Value = { GivenRules };

    ghost coded = { given_code };

    ghost view = { λ given. record { text = given.text; rules = given.rules } };

    ghost invariant = { λ given. IsGiven (record { text = given.text; rules = given.rules }) };
}

impl GivenRules {
    /// The text, as it was given.
    pub fn text(&self) -> &Text
        ensures { result.now ≡ self.now.text }
    {
        &self.text
    }

    /// The rules that it spells.
    pub fn rules(&self) -> &Rules
        ensures rules { result.now ≡ self.now.rules }
        ensures spelled { read_of self.now.text ≡ Ok self.now.rules }
    {
        &self.rules
    }
}

/// The rules that a text spells, with the text. Another text is refused at its first bad line.
pub fn read_given(alloc: Global, text: &str) -> Result<GivenRules, RulesRefused>
    ensures { Answers result (given_of text.now) }
{
    let rules = read_rules(alloc, text)?;
    let text = Text::of(alloc, text)?;
    Ok(GivenRules { text, rules })
}

impl Copied for GivenRules {
    fn copied(&self, alloc: Global) -> Result<GivenRules, NoMemory> {
        let (text, rules) = both(self.text.copied(alloc), self.rules.copied(alloc))?;
        Ok(GivenRules { text, rules })
    }
}

impl Same for GivenRules {
    // A text is read as one list of rules.
    #[tactic(auto, using(crate::proofs::GivenLemmas::same_given))]
    fn is(&self, other: &GivenRules) -> bool {
        self.text.is(&other.text)
    }
}
