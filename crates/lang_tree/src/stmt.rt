// Statements and blocks.
ghost use Rattle.std.specs.Prelude.{◌≡◌, IfOk, IsOkAnd};
ghost use Rattle.lang_tree.specs.declared.stmt.Stmt.TheVariants as stmt;

use crate::expr::Expr;
use crate::method::Method;
use lang_base::{Copied, NoMemory, Text, both};
use sqlite_items::Items;
use std::alloc::Global;

/// A statement.
#[cycle(tree)]
#[derive(Drop)]
pub enum Stmt {
    /// `let var = value;`
    Let {
        var: Text,
        value: Expr,
    },
    /// `get var = table key;`: the text at the key, or nothing.
    Get {
        var: Text,
        table: Text,
        key: Expr,
    },
    /// `put table key = value;`
    Put {
        table: Text,
        key: Expr,
        value: Expr,
    },
    /// `drop table key;`
    Drop {
        table: Text,
        key: Expr,
    },
    /// `each key, text in table prefix { .. }`: the block once for each row whose key begins so.
    Each {
        key: Text,
        text: Text,
        table: Text,
        prefix: Expr,
        block: Block,
    },
    /// `if test { .. } else { .. }`
    If {
        test: Expr,
        then: Block,
        other: Option<Block>,
    },
    /// `call status, answer = dest METHOD path body;`
    Call {
        status: Text,
        answer: Text,
        dest: Expr,
        method: Method,
        path: Expr,
        body: Expr,
    },
    /// `now var;`: the moment of the request.
    Now {
        var: Text,
    },
    /// `random var;`: the next random word.
    Random {
        var: Text,
    },
    /// `reply status body;`, which ends the handler.
    Reply {
        status: Expr,
        body: Expr,
    },
}

/// Statements, one after another.
#[cycle(tree)]
#[derive(Drop)]
pub struct Block {
    pub stmts: Items<Stmt>,
}

// Each form is copied by a function of its own, and no part is held while another may fail: so proofs stay small.

fn copied_let(alloc: Global, var: &Text, value: &Expr) -> Result<Stmt, NoMemory>
    ensures { IfOk result (λ copy. copy ≡ stmt.Let var.now value.now) }
{
    let (var, value) = both(var.copied(alloc), value.copied(alloc))?;
    Ok(Stmt::Let { var, value })
}

fn copied_get(alloc: Global, var: &Text, table: &Text, key: &Expr) -> Result<Stmt, NoMemory>
    ensures { IfOk result (λ copy. copy ≡ stmt.Get var.now table.now key.now) }
{
    let words = both(var.copied(alloc), table.copied(alloc));
    let (words, key) = both(words, key.copied(alloc))?;
    Ok(Stmt::Get {
        var: words.0,
        table: words.1,
        key,
    })
}

fn copied_put(alloc: Global, table: &Text, key: &Expr, value: &Expr) -> Result<Stmt, NoMemory>
    ensures { IfOk result (λ copy. copy ≡ stmt.Put table.now key.now value.now) }
{
    let row = both(key.copied(alloc), value.copied(alloc));
    let (table, row) = both(table.copied(alloc), row)?;
    Ok(Stmt::Put {
        table,
        key: row.0,
        value: row.1,
    })
}

fn copied_drop(alloc: Global, table: &Text, key: &Expr) -> Result<Stmt, NoMemory>
    ensures { IfOk result (λ copy. copy ≡ stmt.Drop table.now key.now) }
{
    let (table, key) = both(table.copied(alloc), key.copied(alloc))?;
    Ok(Stmt::Drop { table, key })
}

fn copied_call(
    alloc: Global,
    status: &Text,
    answer: &Text,
    dest: &Expr,
    method: Method,
    path: &Expr,
    body: &Expr,
) -> Result<Stmt, NoMemory>
    ensures { IfOk result (λ copy. copy ≡ stmt.Call status.now answer.now dest.now method path.now body.now) }
{
    let words = both(status.copied(alloc), answer.copied(alloc));
    let sent = both(path.copied(alloc), body.copied(alloc));
    let (head, sent) = both(both(words, dest.copied(alloc)), sent)?;
    let (words, dest) = head;
    Ok(Stmt::Call {
        status: words.0,
        answer: words.1,
        dest,
        method,
        path: sent.0,
        body: sent.1,
    })
}

fn copied_now(alloc: Global, var: &Text) -> Result<Stmt, NoMemory>
    ensures { IfOk result (λ copy. copy ≡ stmt.Now var.now) }
{
    Ok(Stmt::Now {
        var: var.copied(alloc)?,
    })
}

fn copied_random(alloc: Global, var: &Text) -> Result<Stmt, NoMemory>
    ensures { IfOk result (λ copy. copy ≡ stmt.Random var.now) }
{
    Ok(Stmt::Random {
        var: var.copied(alloc)?,
    })
}

fn copied_reply(alloc: Global, status: &Expr, body: &Expr) -> Result<Stmt, NoMemory>
    ensures { IfOk result (λ copy. copy ≡ stmt.Reply status.now body.now) }
{
    let (status, body) = both(status.copied(alloc), body.copied(alloc))?;
    Ok(Stmt::Reply { status, body })
}

// What stands before the block of an `each`.
type EachHead = ((Text, Text), (Text, Expr));

fn copied_head(
    alloc: Global,
    key: &Text,
    text: &Text,
    table: &Text,
    prefix: &Expr,
) -> Result<EachHead, NoMemory>
    ensures { IfOk result (λ copy. copy ≡ ((key.now, text.now), (table.now, prefix.now))) }
{
    let words = both(key.copied(alloc), text.copied(alloc));
    let scan = both(table.copied(alloc), prefix.copied(alloc));
    both(words, scan)
}

fn each_of(parts: Result<(EachHead, Block), NoMemory>) -> Result<Stmt, NoMemory>
    ensures { IfOk result (λ copy. IsOkAnd parts (λ p. copy ≡ stmt.Each p.0.0.0 p.0.0.1 p.0.1.0 p.0.1.1 p.1)) }
{
    let (head, block) = parts?;
    let (words, scan) = head;
    Ok(Stmt::Each {
        key: words.0,
        text: words.1,
        table: scan.0,
        prefix: scan.1,
        block,
    })
}

fn if_of(parts: Result<(Expr, (Block, Option<Block>)), NoMemory>) -> Result<Stmt, NoMemory>
    ensures { IfOk result (λ copy. IsOkAnd parts (λ p. copy ≡ stmt.If p.0 p.1.0 p.1.1)) }
{
    let (test, blocks) = parts?;
    Ok(Stmt::If {
        test,
        then: blocks.0,
        other: blocks.1,
    })
}

#[cycle(copy)]
fn copied_other(alloc: Global, other: &Option<Block>) -> Result<Option<Block>, NoMemory>
    ensures { IfOk result (λ copy. copy ≡ other.now) }
{
    match other {
        None => Ok(None),
        Some(block) => Ok(Some(block.copied(alloc)?)),
    }
}

impl Copied for Stmt {
    #[cycle(copy)]
    fn copied(&self, alloc: Global) -> Result<Stmt, NoMemory> {
        match self {
            Stmt::Let { var, value } => copied_let(alloc, var, value),
            Stmt::Get { var, table, key } => copied_get(alloc, var, table, key),
            Stmt::Put { table, key, value } => copied_put(alloc, table, key, value),
            Stmt::Drop { table, key } => copied_drop(alloc, table, key),
            Stmt::Each {
                key,
                text,
                table,
                prefix,
                block,
            } => {
                let head = copied_head(alloc, key, text, table, prefix);
                each_of(both(head, block.copied(alloc)))
            }
            Stmt::If { test, then, other } => {
                let blocks = both(then.copied(alloc), copied_other(alloc, other));
                if_of(both(test.copied(alloc), blocks))
            }
            Stmt::Call {
                status,
                answer,
                dest,
                method,
                path,
                body,
            } => copied_call(alloc, status, answer, dest, *method, path, body),
            Stmt::Now { var } => copied_now(alloc, var),
            Stmt::Random { var } => copied_random(alloc, var),
            Stmt::Reply { status, body } => copied_reply(alloc, status, body),
        }
    }
}

impl Copied for Block {
    #[cycle(copy)]
    fn copied(&self, alloc: Global) -> Result<Block, NoMemory> {
        let mut stmts = Items::new(alloc);
        for stmt in self.stmts.as_slice() {
            stmts.push(stmt.copied(alloc)?)?;
        }
        Ok(Block { stmts })
    }
}
