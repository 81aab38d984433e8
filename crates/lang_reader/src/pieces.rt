// Pieces of statements. What is read of a piece is owned only once all of its tokens are known to fit.
ghost use Rattle.std.specs.Prelude.{◌≡◌};
ghost use Rattle.lang_reader.specs.Pieces.{in_turn, with_mark};
ghost use Rattle.lang_reader.specs.Readers.{comma_at, equals_at, expr_at, ReadsAs, in_at, method_at, semicolon_at, word_at};

use crate::exprs::expr;
use crate::joins::{before, beside, made};
use crate::marks::{comma, equals, in_word, method, semicolon, word};
use crate::stop::ReadFailed;
use lang_base::{Copied, Text, both};
use lang_tokens::Token;
use lang_tree::{Expr, MOST_DEPTH, Method};
use std::alloc::Global;

/// A variable, and the `=` behind it.
#[tactic(auto, unfolding(crate::specs::Pieces::with_mark))]
pub fn before_equals(alloc: Global, tokens: &[Token]) -> Result<(Text, &[Token]), ReadFailed>
    ensures { ReadsAs (λ x. (x.0, x.1.now)) result (with_mark word_at equals_at tokens.now) }
{
    let (var, rest) = word(tokens)?;
    let rest = equals(rest)?;
    made(var.copied(alloc), rest)
}

/// A statement's last expression, and the `;` behind it.
#[tactic(auto, unfolding(crate::specs::Pieces::with_mark))]
pub fn last(alloc: Global, tokens: &[Token]) -> Result<(Expr, &[Token]), ReadFailed>
    ensures { ReadsAs (λ x. (x.0, x.1.now)) result (with_mark (expr_at 32) semicolon_at tokens.now) }
{
    let (value, rest) = expr(alloc, tokens, MOST_DEPTH)?;
    before(value, semicolon(rest))
}

/// A statement's last two expressions, and the `;` behind them.
#[tactic(auto, unfolding(crate::specs::Pieces::in_turn))]
pub fn last_two(alloc: Global, tokens: &[Token]) -> Result<((Expr, Expr), &[Token]), ReadFailed>
    ensures { ReadsAs (λ x. (x.0, x.1.now)) result
        (in_turn (expr_at 32) (with_mark (expr_at 32) semicolon_at) tokens.now) }
{
    let (first, rest) = expr(alloc, tokens, MOST_DEPTH)?;
    beside(first, last(alloc, rest))
}

/// A table and a key.
#[tactic(auto, unfolding(crate::specs::Pieces::in_turn))]
pub fn row(alloc: Global, tokens: &[Token]) -> Result<((Text, Expr), &[Token]), ReadFailed>
    ensures { ReadsAs (λ x. (x.0, x.1.now)) result (in_turn word_at (expr_at 32) tokens.now) }
{
    let (table, rest) = word(tokens)?;
    let (key, rest) = expr(alloc, rest, MOST_DEPTH)?;
    made(both(table.copied(alloc), Ok(key)), rest)
}

/// A table and a key, and the `=` behind them.
#[tactic(auto, unfolding(crate::specs::Pieces::with_mark))]
pub fn row_before_equals(
    alloc: Global,
    tokens: &[Token],
) -> Result<((Text, Expr), &[Token]), ReadFailed>
    ensures { ReadsAs (λ x. (x.0, x.1.now)) result (with_mark (in_turn word_at (expr_at 32)) equals_at tokens.now) }
{
    let (row, rest) = row(alloc, tokens)?;
    before(row, equals(rest))
}

/// A table and a key, and the `;` behind them.
#[tactic(auto, unfolding(crate::specs::Pieces::in_turn))]
pub fn last_row(alloc: Global, tokens: &[Token]) -> Result<((Text, Expr), &[Token]), ReadFailed>
    ensures { ReadsAs (λ x. (x.0, x.1.now)) result
        (in_turn word_at (with_mark (expr_at 32) semicolon_at) tokens.now) }
{
    let (table, rest) = word(tokens)?;
    let (key, rest) = last(alloc, rest)?;
    made(both(table.copied(alloc), Ok(key)), rest)
}

// A variable, and the `,` behind it.
#[tactic(auto, unfolding(crate::specs::Pieces::with_mark))]
fn before_comma(tokens: &[Token]) -> Result<(&Text, &[Token]), ReadFailed>
    ensures { ReadsAs (λ x. (x.0.now, x.1.now)) result (with_mark word_at comma_at tokens.now) }
{
    let (var, rest) = word(tokens)?;
    let rest = comma(rest)?;
    Ok((var, rest))
}

// A variable, and the `in` behind it.
#[tactic(auto, unfolding(crate::specs::Pieces::with_mark))]
fn before_in(tokens: &[Token]) -> Result<(&Text, &[Token]), ReadFailed>
    ensures { ReadsAs (λ x. (x.0.now, x.1.now)) result (with_mark word_at in_at tokens.now) }
{
    let (var, rest) = word(tokens)?;
    let rest = in_word(rest)?;
    Ok((var, rest))
}

/// The variables of a `call`, and the `=` behind them.
#[tactic(auto, unfolding(crate::specs::Pieces::in_turn))]
pub fn call_words(alloc: Global, tokens: &[Token]) -> Result<((Text, Text), &[Token]), ReadFailed>
    ensures { ReadsAs (λ x. (x.0, x.1.now)) result
        (in_turn (with_mark word_at comma_at) (with_mark word_at equals_at) tokens.now) }
{
    let (status, rest) = before_comma(tokens)?;
    let (answer, rest) = before_equals(alloc, rest)?;
    made(both(status.copied(alloc), Ok(answer)), rest)
}

/// The destination and the method of a `call`.
#[tactic(auto, unfolding(crate::specs::Pieces::in_turn))]
pub fn call_head(alloc: Global, tokens: &[Token]) -> Result<((Expr, Method), &[Token]), ReadFailed>
    ensures { ReadsAs (λ x. (x.0, x.1.now)) result (in_turn (expr_at 32) method_at tokens.now) }
{
    let (dest, rest) = expr(alloc, tokens, MOST_DEPTH)?;
    beside(dest, method(rest))
}

// The variables of an `each`, and the `in` behind them.
#[tactic(auto, unfolding(crate::specs::Pieces::in_turn))]
fn each_words(alloc: Global, tokens: &[Token]) -> Result<((Text, Text), &[Token]), ReadFailed>
    ensures { ReadsAs (λ x. (x.0, x.1.now)) result
        (in_turn (with_mark word_at comma_at) (with_mark word_at in_at) tokens.now) }
{
    let (key, rest) = before_comma(tokens)?;
    let (text, rest) = before_in(rest)?;
    made(both(key.copied(alloc), text.copied(alloc)), rest)
}

/// What stands before the block of an `each`: its variables, its table and its prefix.
#[tactic(auto, unfolding(crate::specs::Pieces::in_turn))]
pub fn each_head(
    alloc: Global,
    tokens: &[Token],
) -> Result<(((Text, Text), (Text, Expr)), &[Token]), ReadFailed>
    ensures { ReadsAs (λ x. (x.0, x.1.now)) result
        (in_turn (in_turn (with_mark word_at comma_at) (with_mark word_at in_at)) (in_turn word_at (expr_at 32)) tokens.now) }
{
    let (words, rest) = each_words(alloc, tokens)?;
    beside(words, row(alloc, rest))
}
