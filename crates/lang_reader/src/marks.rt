// Single tokens.
ghost use Rattle.std.specs.Prelude.{◌≡◌, option_map};
ghost use Rattle.lang_reader.specs.Readers.{begins_expr, close_at, comma_at, deep_block, deep_expr, equals_at, ReadsAs, in_at, left_at, method_at, misfit, op_at, pattern_at, refused, right_at, segment_at, semicolon_at, word_at};

use crate::stop::{Cause, ReadFailed, Stop};
use lang_base::{Copied, Text};
use lang_tokens::Token;
use lang_tree::{MOST_SEGMENTS, Method, Op, is_path};
use std::alloc::Global;

/// The stop at the first of these tokens, which doesn't fit, or at the end.
pub fn refused(tokens: &[Token]) -> Stop
    ensures { result ≡ refused tokens.now }
{
    let cause = match tokens {
        [Token::BadNumber, ..] => Cause::BadNumber,
        [Token::BadString, ..] => Cause::BadString,
        _ => Cause::Unexpected,
    };
    Stop {
        cause,
        left: tokens.len() as u64,
    }
}

fn begins_expr(token: &Token) -> bool
    ensures { result ≡ begins_expr token.now }
{
    match token {
        Token::Integer(_)
        | Token::Str(_)
        | Token::Word(_)
        | Token::Nothing
        | Token::Body
        | Token::Who
        | Token::Path
        | Token::Part
        | Token::Number
        | Token::AsText
        | Token::Left => true,
        _ => false,
    }
}

/// The stop where no level is left for an expression.
pub fn deep_expr(tokens: &[Token]) -> Stop
    ensures { result ≡ deep_expr tokens.now }
{
    match tokens {
        [] => refused(tokens),
        [first, ..] => {
            if begins_expr(first) {
                Stop {
                    cause: Cause::TooDeep,
                    left: tokens.len() as u64,
                }
            } else {
                refused(tokens)
            }
        }
    }
}

/// The stop where no level is left for a block.
pub fn deep_block(tokens: &[Token]) -> Stop
    ensures { result ≡ deep_block tokens.now }
{
    match tokens {
        [Token::Open, ..] => Stop {
            cause: Cause::TooDeep,
            left: tokens.len() as u64,
        },
        _ => refused(tokens),
    }
}

/// The tokens behind a `}`.
pub fn close(tokens: &[Token]) -> Option<&[Token]>
    ensures { option_map (λ rest. rest.now) result ≡ close_at tokens.now }
{
    match tokens {
        [Token::Close, rest @ ..] => Some(rest),
        _ => None,
    }
}

/// A variable or a table, which stays with its token.
pub fn word(tokens: &[Token]) -> Result<(&Text, &[Token]), ReadFailed>
    ensures { ReadsAs (λ x. (x.0.now, x.1.now)) result (word_at tokens.now) }
{
    match tokens {
        [Token::Word(name), rest @ ..] => Ok((name, rest)),
        _ => Err(ReadFailed::At(refused(tokens))),
    }
}

/// A method.
pub fn method(tokens: &[Token]) -> Result<(Method, &[Token]), ReadFailed>
    ensures { ReadsAs (λ x. (x.0, x.1.now)) result (method_at tokens.now) }
{
    match tokens {
        [Token::Method(method), rest @ ..] => Ok((*method, rest)),
        _ => Err(ReadFailed::At(refused(tokens))),
    }
}

/// An operator.
pub fn op(tokens: &[Token]) -> Result<(Op, &[Token]), ReadFailed>
    ensures { ReadsAs (λ x. (x.0, x.1.now)) result (op_at tokens.now) }
{
    match tokens {
        [Token::Plus, rest @ ..] => Ok((Op::Add, rest)),
        [Token::Minus, rest @ ..] => Ok((Op::Sub, rest)),
        [Token::Star, rest @ ..] => Ok((Op::Mul, rest)),
        [Token::Equals, rest @ ..] => Ok((Op::Equal, rest)),
        [Token::Less, rest @ ..] => Ok((Op::Less, rest)),
        [Token::Join, rest @ ..] => Ok((Op::Join, rest)),
        _ => Err(ReadFailed::At(refused(tokens))),
    }
}

/// The integer of `path`.
pub fn segment(tokens: &[Token]) -> Result<(u64, &[Token]), ReadFailed>
    ensures { ReadsAs (λ x. (x.0, x.1.now)) result (segment_at tokens.now) }
{
    match tokens {
        [Token::Integer(n), rest @ ..] => {
            if 1 <= *n && *n <= MOST_SEGMENTS as i64 {
                return Ok((*n as u64, rest));
            }
            Err(ReadFailed::At(Stop {
                cause: Cause::BadNumber,
                left: tokens.len() as u64,
            }))
        }
        _ => Err(ReadFailed::At(refused(tokens))),
    }
}

/// A string that is a path.
pub fn pattern(alloc: Global, tokens: &[Token]) -> Result<(Text, &[Token]), ReadFailed>
    ensures { ReadsAs (λ x. (x.0, x.1.now)) result (pattern_at tokens.now) }
{
    match tokens {
        [Token::Str(text), rest @ ..] => {
            if is_path(text) {
                return Ok((text.copied(alloc)?, rest));
            }
            Err(ReadFailed::At(Stop {
                cause: Cause::BadPattern,
                left: tokens.len() as u64,
            }))
        }
        _ => Err(ReadFailed::At(refused(tokens))),
    }
}

/// The tokens behind a `=`.
pub fn equals(tokens: &[Token]) -> Result<&[Token], ReadFailed>
    ensures { ReadsAs (λ x. x.now) result (equals_at tokens.now) }
{
    match tokens {
        [Token::Equals, rest @ ..] => Ok(rest),
        _ => Err(ReadFailed::At(refused(tokens))),
    }
}

/// The tokens behind a `;`.
pub fn semicolon(tokens: &[Token]) -> Result<&[Token], ReadFailed>
    ensures { ReadsAs (λ x. x.now) result (semicolon_at tokens.now) }
{
    match tokens {
        [Token::Semicolon, rest @ ..] => Ok(rest),
        _ => Err(ReadFailed::At(refused(tokens))),
    }
}

/// The tokens behind a `,`.
pub fn comma(tokens: &[Token]) -> Result<&[Token], ReadFailed>
    ensures { ReadsAs (λ x. x.now) result (comma_at tokens.now) }
{
    match tokens {
        [Token::Comma, rest @ ..] => Ok(rest),
        _ => Err(ReadFailed::At(refused(tokens))),
    }
}

/// The tokens behind a `in`.
pub fn in_word(tokens: &[Token]) -> Result<&[Token], ReadFailed>
    ensures { ReadsAs (λ x. x.now) result (in_at tokens.now) }
{
    match tokens {
        [Token::In, rest @ ..] => Ok(rest),
        _ => Err(ReadFailed::At(refused(tokens))),
    }
}

/// The tokens behind a `(`.
pub fn left(tokens: &[Token]) -> Result<&[Token], ReadFailed>
    ensures { ReadsAs (λ x. x.now) result (left_at tokens.now) }
{
    match tokens {
        [Token::Left, rest @ ..] => Ok(rest),
        _ => Err(ReadFailed::At(refused(tokens))),
    }
}

/// The tokens behind a `)`.
pub fn right(tokens: &[Token]) -> Result<&[Token], ReadFailed>
    ensures { ReadsAs (λ x. x.now) result (right_at tokens.now) }
{
    match tokens {
        [Token::Right, rest @ ..] => Ok(rest),
        _ => Err(ReadFailed::At(refused(tokens))),
    }
}
