// Expressions.
ghost use Rattle.std.specs.Prelude.{◌≡◌};
ghost use Rattle.lang_tree.specs.declared.expr.Expr.TheVariants as expr;
ghost use Rattle.lang_reader.specs.Pieces.{in_turn, read_as, with_mark};
ghost use Rattle.lang_reader.specs.Readers.{comma_at, expr_at, expr_in, ReadsAs, number_in, op_at, pair_in, part_in, path_in, right_at, text_in};

use crate::joins::{before, beside, made};
use crate::marks::{comma, deep_expr, left, op, refused, right, segment};
use crate::stop::ReadFailed;
use lang_base::{Copied, Text};
use lang_tokens::Token;
use lang_tree::{Expr, Op};
use std::alloc::Global;

#[tactic(auto, unfolding(crate::specs::Readers::path_in))]
fn path(tokens: &[Token]) -> Result<(Expr, &[Token]), ReadFailed>
    ensures { ReadsAs (λ x. (x.0, x.1.now)) result (path_in tokens.now) }
{
    let rest = left(tokens)?;
    let (n, rest) = segment(rest)?;
    let rest = right(rest)?;
    Ok((Expr::Path(n), rest))
}

// An operand and the `,` behind it.
#[cycle(expr)]
#[tactic(auto, unfolding(crate::specs::Pieces::with_mark))]
fn before_comma(
    alloc: Global,
    tokens: &[Token],
    levels: u64,
) -> Result<(Expr, &[Token]), ReadFailed>
    ensures { ReadsAs (λ x. (x.0, x.1.now)) result (with_mark (expr_at levels) comma_at tokens.now) }
{
    let (operand, rest) = expr(alloc, tokens, levels)?;
    before(operand, comma(rest))
}

// An operand and the `)` behind it.
#[cycle(expr)]
#[tactic(auto, unfolding(crate::specs::Pieces::with_mark))]
fn before_right(
    alloc: Global,
    tokens: &[Token],
    levels: u64,
) -> Result<(Expr, &[Token]), ReadFailed>
    ensures { ReadsAs (λ x. (x.0, x.1.now)) result (with_mark (expr_at levels) right_at tokens.now) }
{
    let (operand, rest) = expr(alloc, tokens, levels)?;
    before(operand, right(rest))
}

// The text and the separator of a `part`.
#[cycle(expr)]
#[tactic(auto, unfolding(crate::specs::Pieces::in_turn))]
fn texts(
    alloc: Global,
    tokens: &[Token],
    levels: u64,
) -> Result<((Expr, Expr), &[Token]), ReadFailed>
    ensures { ReadsAs (λ x. (x.0, x.1.now)) result
        (in_turn (with_mark (expr_at levels) comma_at) (with_mark (expr_at levels) comma_at) tokens.now) }
{
    let (text, rest) = before_comma(alloc, tokens, levels)?;
    beside(text, before_comma(alloc, rest, levels))
}

#[cycle(expr)]
#[tactic(auto, using(crate::proofs::PieceLemmas::part_pieces))]
fn part(alloc: Global, tokens: &[Token], levels: u64) -> Result<(Expr, &[Token]), ReadFailed>
    ensures { ReadsAs (λ x. (x.0, x.1.now)) result (part_in (expr_at levels) tokens.now) }
{
    let rest = left(tokens)?;
    let (texts, rest) = texts(alloc, rest, levels)?;
    let ((texts, n), rest) = beside(texts, before_right(alloc, rest, levels))?;
    made(Expr::part_of(alloc, texts.0, texts.1, n), rest)
}

#[cycle(expr)]
#[tactic(auto, using(crate::proofs::PieceLemmas::number_pieces))]
fn number(alloc: Global, tokens: &[Token], levels: u64) -> Result<(Expr, &[Token]), ReadFailed>
    ensures { ReadsAs (λ x. (x.0, x.1.now)) result (number_in (expr_at levels) tokens.now) }
{
    let rest = left(tokens)?;
    let (inner, rest) = before_right(alloc, rest, levels)?;
    made(Expr::number_of(alloc, inner), rest)
}

#[cycle(expr)]
#[tactic(auto, using(crate::proofs::PieceLemmas::text_pieces))]
fn as_text(alloc: Global, tokens: &[Token], levels: u64) -> Result<(Expr, &[Token]), ReadFailed>
    ensures { ReadsAs (λ x. (x.0, x.1.now)) result (text_in (expr_at levels) tokens.now) }
{
    let rest = left(tokens)?;
    let (inner, rest) = before_right(alloc, rest, levels)?;
    made(Expr::text_of(alloc, inner), rest)
}

// The left operand of a pair, and the operator behind it.
#[cycle(expr)]
#[tactic(auto, unfolding(crate::specs::Pieces::in_turn))]
fn before_op(
    alloc: Global,
    tokens: &[Token],
    levels: u64,
) -> Result<((Expr, Op), &[Token]), ReadFailed>
    ensures { ReadsAs (λ x. (x.0, x.1.now)) result (in_turn (expr_at levels) op_at tokens.now) }
{
    let (operand, rest) = expr(alloc, tokens, levels)?;
    beside(operand, op(rest))
}

#[cycle(expr)]
#[tactic(auto, using(crate::proofs::PieceLemmas::pair_pieces))]
fn pair(alloc: Global, tokens: &[Token], levels: u64) -> Result<(Expr, &[Token]), ReadFailed>
    ensures { ReadsAs (λ x. (x.0, x.1.now)) result (pair_in (expr_at levels) tokens.now) }
{
    let (first, rest) = before_op(alloc, tokens, levels)?;
    let ((first, second), rest) = beside(first, before_right(alloc, rest, levels))?;
    made(Expr::pair_of(alloc, first.0, first.1, second), rest)
}

fn string<'a>(
    alloc: Global,
    text: &Text,
    rest: &'a [Token],
) -> Result<(Expr, &'a [Token]), ReadFailed>
    ensures { ReadsAs (λ x. (x.0, x.1.now)) result (read_as (expr.Str text.now) rest.now) }
{
    Ok((Expr::Str(text.copied(alloc)?), rest))
}

fn variable<'a>(
    alloc: Global,
    name: &Text,
    rest: &'a [Token],
) -> Result<(Expr, &'a [Token]), ReadFailed>
    ensures { ReadsAs (λ x. (x.0, x.1.now)) result (read_as (expr.Var name.now) rest.now) }
{
    Ok((Expr::Var(name.copied(alloc)?), rest))
}

#[cycle(expr)]
#[tactic(auto, unfolding(crate::specs::Readers::expr_in))]
fn any_expr(alloc: Global, tokens: &[Token], levels: u64) -> Result<(Expr, &[Token]), ReadFailed>
    ensures { ReadsAs (λ x. (x.0, x.1.now)) result (expr_in (expr_at levels) tokens.now) }
{
    match tokens {
        [Token::Integer(n), rest @ ..] => Ok((Expr::Integer(*n), rest)),
        [Token::Str(text), rest @ ..] => string(alloc, text, rest),
        [Token::Word(name), rest @ ..] => variable(alloc, name, rest),
        [Token::Nothing, rest @ ..] => Ok((Expr::Nothing, rest)),
        [Token::Body, rest @ ..] => Ok((Expr::Body, rest)),
        [Token::Who, rest @ ..] => Ok((Expr::Who, rest)),
        [Token::Path, rest @ ..] => path(rest),
        [Token::Part, rest @ ..] => part(alloc, rest, levels),
        [Token::Number, rest @ ..] => number(alloc, rest, levels),
        [Token::AsText, rest @ ..] => as_text(alloc, rest, levels),
        [Token::Left, rest @ ..] => pair(alloc, rest, levels),
        _ => Err(ReadFailed::At(refused(tokens))),
    }
}

/// An expression of at most so many levels, and the tokens behind it.
#[cycle(expr)]
#[tactic(auto, using(crate::proofs::Levels::expr_levels))]
pub fn expr(alloc: Global, tokens: &[Token], levels: u64) -> Result<(Expr, &[Token]), ReadFailed>
    ensures { ReadsAs (λ x. (x.0, x.1.now)) result (expr_at levels tokens.now) }
{
    if levels == 0 {
        return Err(ReadFailed::At(deep_expr(tokens)));
    }
    any_expr(alloc, tokens, levels - 1)
}
