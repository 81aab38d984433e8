// The tokens of a program's text.
use lang_base::Text;
use lang_tree::Method;

/// A token: a literal, a word, a mark, or what is none of them.
#[derive(Drop)]
pub enum Token {
    /// An integer, from 0 to 9,223,372,036,854,775,807.
    Integer(i64),
    /// A string, by the text that it stands for.
    Str(Text),
    /// A word that the language doesn't reserve: a variable or a table.
    Word(Text),
    /// `GET`, `PUT`, `POST` or `DELETE`.
    Method(Method),
    /// `route`
    Route,
    /// `let`
    Let,
    /// `get`
    Get,
    /// `put`
    Put,
    /// `drop`
    Drop,
    /// `each`
    Each,
    /// `in`
    In,
    /// `if`
    If,
    /// `else`
    Else,
    /// `call`
    Call,
    /// `now`
    Now,
    /// `random`
    Random,
    /// `reply`
    Reply,
    /// `nothing`
    Nothing,
    /// `body`
    Body,
    /// `who`
    Who,
    /// `path`
    Path,
    /// `part`
    Part,
    /// `number`
    Number,
    /// `text`
    AsText,
    /// `{`
    Open,
    /// `}`
    Close,
    /// `(`
    Left,
    /// `)`
    Right,
    /// `,`
    Comma,
    /// `;`
    Semicolon,
    /// `=`
    Equals,
    /// `<`
    Less,
    /// `+`
    Plus,
    /// `++`
    Join,
    /// `-`
    Minus,
    /// `*`
    Star,
    /// Digits that are no integer: a 0 stands before others, or they pass the greatest one.
    BadNumber,
    /// A `"` behind which no string stands.
    BadString,
    /// What begins no token: another character, or a word of more than 32.
    Stray,
}
