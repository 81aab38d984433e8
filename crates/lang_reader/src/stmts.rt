// Statements and blocks.
ghost use Rattle.std.specs.Prelude.{◌≡◌};
ghost use Rattle.lang_reader.specs.Pieces.{in_turn};
ghost use Rattle.lang_reader.specs.Readers.{block_at, block_in, call_in, drop_in, each_in, else_in, expr_at, get_in, ReadsAs, if_in, let_in, most, now_in, put_in, random_in, reply_in, stmt_in, stmts_in};

use crate::exprs::expr;
use crate::joins::{beside, made};
use crate::marks::{close, deep_block, refused, semicolon, word};
use crate::pieces::{
    before_equals, call_head, call_words, each_head, last, last_row, last_two, row_before_equals,
};
use crate::stop::ReadFailed;
use lang_base::Copied;
use lang_tokens::Token;
use lang_tree::{Block, Items, MOST_DEPTH, Stmt};
use std::alloc::Global;

/// More statements or routes than a text of 65,536 bytes has tokens.
pub const MOST_PARTS: u64 = 65537;

#[tactic(auto, using(crate::proofs::PieceLemmas::let_pieces))]
fn let_stmt(alloc: Global, tokens: &[Token]) -> Result<(Stmt, &[Token]), ReadFailed>
    ensures { ReadsAs (λ x. (x.0, x.1.now)) result (let_in (expr_at 32) tokens.now) }
{
    let (var, rest) = before_equals(alloc, tokens)?;
    let ((var, value), rest) = beside(var, last(alloc, rest))?;
    Ok((Stmt::Let { var, value }, rest))
}

#[tactic(auto, using(crate::proofs::PieceLemmas::get_pieces))]
fn get_stmt(alloc: Global, tokens: &[Token]) -> Result<(Stmt, &[Token]), ReadFailed>
    ensures { ReadsAs (λ x. (x.0, x.1.now)) result (get_in (expr_at 32) tokens.now) }
{
    let (var, rest) = before_equals(alloc, tokens)?;
    let ((var, row), rest) = beside(var, last_row(alloc, rest))?;
    let (table, key) = row;
    Ok((Stmt::Get { var, table, key }, rest))
}

#[tactic(auto, using(crate::proofs::PieceLemmas::put_pieces))]
fn put_stmt(alloc: Global, tokens: &[Token]) -> Result<(Stmt, &[Token]), ReadFailed>
    ensures { ReadsAs (λ x. (x.0, x.1.now)) result (put_in (expr_at 32) tokens.now) }
{
    let (row, rest) = row_before_equals(alloc, tokens)?;
    let ((row, value), rest) = beside(row, last(alloc, rest))?;
    let (table, key) = row;
    Ok((Stmt::Put { table, key, value }, rest))
}

#[tactic(auto, using(crate::proofs::PieceLemmas::drop_pieces))]
fn drop_stmt(alloc: Global, tokens: &[Token]) -> Result<(Stmt, &[Token]), ReadFailed>
    ensures { ReadsAs (λ x. (x.0, x.1.now)) result (drop_in (expr_at 32) tokens.now) }
{
    let (row, rest) = last_row(alloc, tokens)?;
    let (table, key) = row;
    Ok((Stmt::Drop { table, key }, rest))
}

#[tactic(auto, using(crate::proofs::PieceLemmas::call_pieces))]
fn call_stmt(alloc: Global, tokens: &[Token]) -> Result<(Stmt, &[Token]), ReadFailed>
    ensures { ReadsAs (λ x. (x.0, x.1.now)) result (call_in (expr_at 32) tokens.now) }
{
    let (words, rest) = call_words(alloc, tokens)?;
    let (head, rest) = beside(words, call_head(alloc, rest))?;
    let (parts, rest) = beside(head, last_two(alloc, rest))?;
    let ((words, head), sent) = parts;
    let call = Stmt::Call {
        status: words.0,
        answer: words.1,
        dest: head.0,
        method: head.1,
        path: sent.0,
        body: sent.1,
    };
    Ok((call, rest))
}

#[tactic(auto, unfolding(crate::specs::Readers::now_in))]
fn now_stmt(alloc: Global, tokens: &[Token]) -> Result<(Stmt, &[Token]), ReadFailed>
    ensures { ReadsAs (λ x. (x.0, x.1.now)) result (now_in tokens.now) }
{
    let (var, rest) = word(tokens)?;
    let rest = semicolon(rest)?;
    let (var, rest) = made(var.copied(alloc), rest)?;
    Ok((Stmt::Now { var }, rest))
}

#[tactic(auto, unfolding(crate::specs::Readers::random_in))]
fn random_stmt(alloc: Global, tokens: &[Token]) -> Result<(Stmt, &[Token]), ReadFailed>
    ensures { ReadsAs (λ x. (x.0, x.1.now)) result (random_in tokens.now) }
{
    let (var, rest) = word(tokens)?;
    let rest = semicolon(rest)?;
    let (var, rest) = made(var.copied(alloc), rest)?;
    Ok((Stmt::Random { var }, rest))
}

#[tactic(auto, using(crate::proofs::PieceLemmas::reply_pieces))]
fn reply_stmt(alloc: Global, tokens: &[Token]) -> Result<(Stmt, &[Token]), ReadFailed>
    ensures { ReadsAs (λ x. (x.0, x.1.now)) result (reply_in (expr_at 32) tokens.now) }
{
    let (reply, rest) = last_two(alloc, tokens)?;
    let (status, body) = reply;
    Ok((Stmt::Reply { status, body }, rest))
}

#[cycle(block)]
#[tactic(auto, using(crate::proofs::PieceLemmas::each_pieces))]
fn each_stmt(alloc: Global, tokens: &[Token], levels: u64) -> Result<(Stmt, &[Token]), ReadFailed>
    ensures { ReadsAs (λ x. (x.0, x.1.now)) result (each_in (expr_at 32) (block_at levels) tokens.now) }
{
    let (head, rest) = each_head(alloc, tokens)?;
    let ((head, block), rest) = beside(head, block(alloc, rest, levels))?;
    let (words, row) = head;
    let each = Stmt::Each {
        key: words.0,
        text: words.1,
        table: row.0,
        prefix: row.1,
        block,
    };
    Ok((each, rest))
}

#[cycle(block)]
#[tactic(auto, unfolding(crate::specs::Readers::else_in))]
fn else_block(
    alloc: Global,
    tokens: &[Token],
    levels: u64,
) -> Result<(Option<Block>, &[Token]), ReadFailed>
    ensures { ReadsAs (λ x. (x.0, x.1.now)) result (else_in (block_at levels) tokens.now) }
{
    match tokens {
        [Token::Else, rest @ ..] => {
            let (other, rest) = block(alloc, rest, levels)?;
            Ok((Some(other), rest))
        }
        _ => Ok((None, tokens)),
    }
}

// The blocks of an `if`.
#[cycle(block)]
#[tactic(auto, unfolding(crate::specs::Pieces::in_turn))]
fn blocks(
    alloc: Global,
    tokens: &[Token],
    levels: u64,
) -> Result<((Block, Option<Block>), &[Token]), ReadFailed>
    ensures { ReadsAs (λ x. (x.0, x.1.now)) result (in_turn (block_at levels) (else_in (block_at levels)) tokens.now) }
{
    let (then, rest) = block(alloc, tokens, levels)?;
    beside(then, else_block(alloc, rest, levels))
}

#[cycle(block)]
#[tactic(auto, using(crate::proofs::PieceLemmas::if_pieces))]
fn if_stmt(alloc: Global, tokens: &[Token], levels: u64) -> Result<(Stmt, &[Token]), ReadFailed>
    ensures { ReadsAs (λ x. (x.0, x.1.now)) result (if_in (expr_at 32) (block_at levels) tokens.now) }
{
    let (test, rest) = expr(alloc, tokens, MOST_DEPTH)?;
    let ((test, blocks), rest) = beside(test, blocks(alloc, rest, levels))?;
    let (then, other) = blocks;
    Ok((Stmt::If { test, then, other }, rest))
}

#[cycle(block)]
#[tactic(auto, unfolding(crate::specs::Readers::stmt_in))]
fn stmt(alloc: Global, tokens: &[Token], levels: u64) -> Result<(Stmt, &[Token]), ReadFailed>
    ensures { ReadsAs (λ x. (x.0, x.1.now)) result (stmt_in (expr_at 32) (block_at levels) tokens.now) }
{
    match tokens {
        [Token::Let, rest @ ..] => let_stmt(alloc, rest),
        [Token::Get, rest @ ..] => get_stmt(alloc, rest),
        [Token::Put, rest @ ..] => put_stmt(alloc, rest),
        [Token::Drop, rest @ ..] => drop_stmt(alloc, rest),
        [Token::Each, rest @ ..] => each_stmt(alloc, rest, levels),
        [Token::If, rest @ ..] => if_stmt(alloc, rest, levels),
        [Token::Call, rest @ ..] => call_stmt(alloc, rest),
        [Token::Now, rest @ ..] => now_stmt(alloc, rest),
        [Token::Random, rest @ ..] => random_stmt(alloc, rest),
        [Token::Reply, rest @ ..] => reply_stmt(alloc, rest),
        _ => Err(ReadFailed::At(refused(tokens))),
    }
}

#[cycle(block)]
fn stmts(
    alloc: Global,
    tokens: &[Token],
    levels: u64,
) -> Result<(Items<Stmt>, &[Token]), ReadFailed>
    ensures { ReadsAs (λ x. (x.0, x.1.now)) result (stmts_in most (stmt_in (expr_at 32) (block_at levels)) tokens.now) }
{
    let mut stmts = Items::new(alloc);
    let mut rest = tokens;
    for _ in 0..MOST_PARTS {
        if let Some(after) = close(rest) {
            return Ok((stmts, after));
        }
        let (stmt, after) = stmt(alloc, rest, levels)?;
        stmts.push(stmt)?;
        rest = after;
    }
    Err(ReadFailed::At(refused(rest)))
}

#[cycle(block)]
#[tactic(auto, unfolding(crate::specs::Readers::block_in))]
fn any_block(alloc: Global, tokens: &[Token], levels: u64) -> Result<(Block, &[Token]), ReadFailed>
    ensures { ReadsAs (λ x. (x.0, x.1.now)) result (block_in (block_at levels) tokens.now) }
{
    match tokens {
        [Token::Open, rest @ ..] => {
            let (stmts, rest) = stmts(alloc, rest, levels)?;
            Ok((Block { stmts }, rest))
        }
        _ => Err(ReadFailed::At(refused(tokens))),
    }
}

/// A block of at most so many levels, and the tokens behind it.
#[cycle(block)]
#[tactic(auto, using(crate::proofs::Levels::block_levels))]
pub fn block(alloc: Global, tokens: &[Token], levels: u64) -> Result<(Block, &[Token]), ReadFailed>
    ensures { ReadsAs (λ x. (x.0, x.1.now)) result (block_at levels tokens.now) }
{
    if levels == 0 {
        return Err(ReadFailed::At(deep_block(tokens)));
    }
    any_block(alloc, tokens, levels - 1)
}
