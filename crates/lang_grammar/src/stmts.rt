// The tokens of statements and blocks.
ghost use Rattle.std.specs.Prelude.{◌≡◌, ◌∷◌, ◌++◌, OnOk, map};
ghost use Rattle.lang_tokens.specs.declared.token.Token.TheVariants as token;
ghost use Rattle.lang_tree.specs.declared.stmt.Stmt.TheOpen.{Stmt-F};
ghost use Rattle.lang_grammar.specs.Grammar.{block_tokens, expr_tokens, joined, other_tokens, stmt_form, stmt_tokens};

use crate::exprs::{put, put_behind, put_expr, put_last, put_word};
use lang_base::{NoMemory, Text};
use lang_tokens::Token;
use lang_tree::{Block, Expr, Method, Stmt};
use std::alloc::Global;

#[tactic(auto, using(crate::proofs::Printed::appends))]
fn put_let(alloc: Global, out: &mut Vec<Token>, var: &Text, value: &Expr) -> Result<(), NoMemory>
    ensures { OnOk result (out.new.items ≡ out.old.items ++ stmt_form (Stmt-F.Let var.now value.now)) }
{
    put_word(alloc, out, Token::Let, var)?;
    put(out, Token::Equals)?;
    put_last(alloc, out, value)
}

#[tactic(auto, using(crate::proofs::Printed::appends))]
fn put_get(
    alloc: Global,
    out: &mut Vec<Token>,
    var: &Text,
    table: &Text,
    key: &Expr,
) -> Result<(), NoMemory>
    ensures { OnOk result (out.new.items ≡ out.old.items ++ stmt_form (Stmt-F.Get var.now table.now key.now)) }
{
    put_word(alloc, out, Token::Get, var)?;
    put_word(alloc, out, Token::Equals, table)?;
    put_last(alloc, out, key)
}

#[tactic(auto, using(crate::proofs::Printed::appends))]
fn put_put(
    alloc: Global,
    out: &mut Vec<Token>,
    table: &Text,
    key: &Expr,
    value: &Expr,
) -> Result<(), NoMemory>
    ensures { OnOk result (out.new.items ≡ out.old.items ++ stmt_form (Stmt-F.Put table.now key.now value.now)) }
{
    put_word(alloc, out, Token::Put, table)?;
    put_expr(alloc, out, key)?;
    put(out, Token::Equals)?;
    put_last(alloc, out, value)
}

#[tactic(auto, using(crate::proofs::Printed::appends))]
fn put_drop(alloc: Global, out: &mut Vec<Token>, table: &Text, key: &Expr) -> Result<(), NoMemory>
    ensures { OnOk result (out.new.items ≡ out.old.items ++ stmt_form (Stmt-F.Drop table.now key.now)) }
{
    put_word(alloc, out, Token::Drop, table)?;
    put_last(alloc, out, key)
}

#[tactic(auto, using(crate::proofs::Printed::appends))]
fn put_each_head(
    alloc: Global,
    out: &mut Vec<Token>,
    key: &Text,
    text: &Text,
    table: &Text,
    prefix: &Expr,
) -> Result<(), NoMemory>
    ensures { OnOk result (out.new.items ≡ out.old.items ++ (token.Each ∷ (token.Word key.now ∷ (token.Comma ∷ (token.Word text.now
        ∷ (token.In ∷ (token.Word table.now ∷ expr_tokens prefix.now))))))) }
{
    put_word(alloc, out, Token::Each, key)?;
    put_word(alloc, out, Token::Comma, text)?;
    put_word(alloc, out, Token::In, table)?;
    put_expr(alloc, out, prefix)
}

#[tactic(auto, using(crate::proofs::Printed::appends))]
fn put_call(
    alloc: Global,
    out: &mut Vec<Token>,
    status: &Text,
    answer: &Text,
    dest: &Expr,
    method: Method,
    path: &Expr,
    body: &Expr,
) -> Result<(), NoMemory>
    ensures { OnOk result (out.new.items ≡ out.old.items ++ stmt_form (Stmt-F.Call status.now answer.now dest.now method path.now body.now)) }
{
    put_word(alloc, out, Token::Call, status)?;
    put_word(alloc, out, Token::Comma, answer)?;
    put_behind(alloc, out, Token::Equals, dest)?;
    put_behind(alloc, out, Token::Method(method), path)?;
    put_last(alloc, out, body)
}

#[tactic(auto, using(crate::proofs::Printed::appends))]
fn put_now(alloc: Global, out: &mut Vec<Token>, var: &Text) -> Result<(), NoMemory>
    ensures { OnOk result (out.new.items ≡ out.old.items ++ stmt_form (Stmt-F.Now var.now)) }
{
    put_word(alloc, out, Token::Now, var)?;
    put(out, Token::Semicolon)
}

#[tactic(auto, using(crate::proofs::Printed::appends))]
fn put_random(alloc: Global, out: &mut Vec<Token>, var: &Text) -> Result<(), NoMemory>
    ensures { OnOk result (out.new.items ≡ out.old.items ++ stmt_form (Stmt-F.Random var.now)) }
{
    put_word(alloc, out, Token::Random, var)?;
    put(out, Token::Semicolon)
}

#[tactic(auto, using(crate::proofs::Printed::appends))]
fn put_reply(
    alloc: Global,
    out: &mut Vec<Token>,
    status: &Expr,
    body: &Expr,
) -> Result<(), NoMemory>
    ensures { OnOk result (out.new.items ≡ out.old.items ++ stmt_form (Stmt-F.Reply status.now body.now)) }
{
    put_behind(alloc, out, Token::Reply, status)?;
    put_last(alloc, out, body)
}

#[cycle(put)]
#[tactic(auto, using(crate::proofs::Printed::appends))]
fn put_stmt(alloc: Global, out: &mut Vec<Token>, stmt: &Stmt) -> Result<(), NoMemory>
    ensures { OnOk result (out.new.items ≡ out.old.items ++ stmt_tokens stmt.now) }
{
    match stmt {
        Stmt::Let { var, value } => put_let(alloc, out, var, value),
        Stmt::Get { var, table, key } => put_get(alloc, out, var, table, key),
        Stmt::Put { table, key, value } => put_put(alloc, out, table, key, value),
        Stmt::Drop { table, key } => put_drop(alloc, out, table, key),
        Stmt::Each {
            key,
            text,
            table,
            prefix,
            block,
        } => {
            put_each_head(alloc, out, key, text, table, prefix)?;
            put_block(alloc, out, block)
        }
        Stmt::If { test, then, other } => {
            put_behind(alloc, out, Token::If, test)?;
            put_block(alloc, out, then)?;
            put_other(alloc, out, other)
        }
        Stmt::Call {
            status,
            answer,
            dest,
            method,
            path,
            body,
        } => put_call(alloc, out, status, answer, dest, *method, path, body),
        Stmt::Now { var } => put_now(alloc, out, var),
        Stmt::Random { var } => put_random(alloc, out, var),
        Stmt::Reply { status, body } => put_reply(alloc, out, status, body),
    }
}

#[cycle(put)]
#[tactic(auto, using(crate::proofs::Printed::appends))]
fn put_other(alloc: Global, out: &mut Vec<Token>, other: &Option<Block>) -> Result<(), NoMemory>
    ensures { OnOk result (out.new.items ≡ out.old.items ++ other_tokens other.now) }
{
    match other {
        None => Ok(()),
        Some(block) => {
            put(out, Token::Else)?;
            put_block(alloc, out, block)
        }
    }
}

#[cycle(put)]
#[tactic(auto, using(crate::proofs::Printed::appends))]
fn put_stmts(alloc: Global, out: &mut Vec<Token>, stmts: &[Stmt]) -> Result<(), NoMemory>
    ensures { OnOk result (out.new.items ≡ out.old.items ++ joined (map stmt_tokens stmts.now)) }
{
    for stmt in stmts {
        put_stmt(alloc, out, stmt)?;
    }
    Ok(())
}

#[cycle(put)]
#[tactic(auto, using(crate::proofs::Printed::appends))]
pub(crate) fn put_block(alloc: Global, out: &mut Vec<Token>, block: &Block) -> Result<(), NoMemory>
    ensures { OnOk result (out.new.items ≡ out.old.items ++ block_tokens block.now) }
{
    put(out, Token::Open)?;
    put_stmts(alloc, out, block.stmts.as_slice())?;
    put(out, Token::Close)
}
