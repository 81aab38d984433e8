// What a run is given, what its variables hold, and why it faults.
ghost use Rattle.std.specs.Prelude.{◌≡◌, map};
ghost use Rattle.lang_values.specs.Given.{given_with};

use lang_core::{Answers, Inputs, Name, Names, Request, Setting, Text, Value};
use std::marker::Model;

/// Why a handler faults. Its number stands in the response's body.
#[derive(Clone, Copy, PartialEq, Eq)]
pub enum Fault {
    /// A step would be the 10,001st.
    Steps,
    /// A sum, a difference or a product is no signed number of 64 bits.
    Range,
    /// A value of the wrong kind, an empty separator, or a status that no reply has.
    Kind,
    /// A text, a key, a prefix, a scan, the recorded reads, the calls or a call's path go over a limit.
    Limit,
    /// A ninth random word.
    Words,
}

/// A variable and its value.
pub struct Binding {
    pub name: Text,
    pub value: Value,
}

impl Drop for Binding {
    fn drop(self) {
        let Self { name: _, value: _ } = self;
    }
}

/// What a run is given beside its rows: the service's name and peers, the request, the segments of its path, its
/// clock and random words, and the answers of its first calls. All of it is lent.
#[derive(Drop)]
pub struct Given<'a> {
    setting: &'a Setting,
    request: &'a Request,
    segments: &'a [&'a str],
    inputs: &'a Inputs,
    answers: &'a Answers,
}

impl<'a> Model for Given<'a> {
    ghost use Rattle.std.specs.Prelude.{map};
    ghost use Rattle.lang_values.specs.Given.{Given, given_with};

    ghost Value = { Given };

    ghost view = { λ g. given_with g.setting.now g.request.now (map (λ x. x.now) g.segments.now) g.inputs.now g.answers.now };
}

impl<'a> Given<'a> {
    /// What a run of a request with these segments is given.
    pub fn of(
        setting: &'a Setting,
        request: &'a Request,
        segments: &'a [&'a str],
        inputs: &'a Inputs,
        answers: &'a Answers,
    ) -> Given<'a>
        ensures { result ≡ given_with setting.now request.now (map (λ x. x.now) segments.now) inputs.now answers.now }
    {
        Given {
            setting,
            request,
            segments,
            inputs,
            answers,
        }
    }

    /// The name of the service.
    pub fn me(&self) -> &Name
        ensures { result.now ≡ self.now.me }
    {
        &self.setting.me
    }

    /// The services that it may call.
    pub fn peers(&self) -> &Names
        ensures { result.now ≡ self.now.peers }
    {
        &self.setting.peers
    }

    /// The request.
    pub fn request(&self) -> &Request
        ensures { result.now ≡ self.now.request }
    {
        self.request
    }

    /// The segments of the request's path.
    pub fn segments(&self) -> &[&'a str]
        ensures { map (λ x. x.now) result.now ≡ self.now.segments }
    {
        self.segments
    }

    /// The clock and the random words.
    pub fn inputs(&self) -> &Inputs
        ensures { result.now ≡ self.now.inputs }
    {
        self.inputs
    }

    /// The answers of its first calls.
    pub fn answers(&self) -> &Answers
        ensures { result.now ≡ self.now.answers }
    {
        self.answers
    }
}
