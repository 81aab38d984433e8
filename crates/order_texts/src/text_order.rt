// What texts are given for.

/// An order that comes with a text.
#[derive(Clone, Copy, PartialEq, Eq)]
pub enum TextOrder {
    /// The text is the program of requests that come from now on.
    Deploy,
    /// The text is a program that stands in the place of the one of this number, for requests that came before too.
    Correct(u64),
    /// The text is the rules from now on.
    Rules,
}
