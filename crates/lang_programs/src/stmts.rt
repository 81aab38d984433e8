// Equality of statements, blocks and routes.
ghost use Rattle.std.specs.Prelude.{◌≡◌, ◌↔◌, IsTrue};

use crate::exprs::same_expr;
use lang_core::{Block, Route, Same, Stmt};

#[cycle(same)]
fn same_stmt(left: &Stmt, right: &Stmt) -> bool
    ensures { IsTrue result ↔ (left.now ≡ right.now) }
{
    match (left, right) {
        (
            Stmt::Let { var, value },
            Stmt::Let {
                var: other_var,
                value: other_value,
            },
        ) => var.is(other_var) && same_expr(value, other_value),
        (
            Stmt::Get { var, table, key },
            Stmt::Get {
                var: other_var,
                table: other_table,
                key: other_key,
            },
        ) => var.is(other_var) && table.is(other_table) && same_expr(key, other_key),
        (
            Stmt::Put { table, key, value },
            Stmt::Put {
                table: other_table,
                key: other_key,
                value: other_value,
            },
        ) => table.is(other_table) && same_expr(key, other_key) && same_expr(value, other_value),
        (
            Stmt::Drop { table, key },
            Stmt::Drop {
                table: other_table,
                key: other_key,
            },
        ) => table.is(other_table) && same_expr(key, other_key),
        (
            Stmt::Each {
                key,
                text,
                table,
                prefix,
                block,
            },
            Stmt::Each {
                key: other_key,
                text: other_text,
                table: other_table,
                prefix: other_prefix,
                block: other_block,
            },
        ) => {
            key.is(other_key)
                && text.is(other_text)
                && table.is(other_table)
                && same_expr(prefix, other_prefix)
                && same_block(block, other_block)
        }
        (
            Stmt::If { test, then, other },
            Stmt::If {
                test: other_test,
                then: other_then,
                other: other_other,
            },
        ) => {
            same_expr(test, other_test)
                && same_block(then, other_then)
                && same_other(other, other_other)
        }
        (
            Stmt::Call {
                status,
                answer,
                dest,
                method,
                path,
                body,
            },
            Stmt::Call {
                status: other_status,
                answer: other_answer,
                dest: other_dest,
                method: other_method,
                path: other_path,
                body: other_body,
            },
        ) => {
            status.is(other_status)
                && answer.is(other_answer)
                && same_expr(dest, other_dest)
                && *method == *other_method
                && same_expr(path, other_path)
                && same_expr(body, other_body)
        }
        (Stmt::Now { var }, Stmt::Now { var: other_var }) => var.is(other_var),
        (Stmt::Random { var }, Stmt::Random { var: other_var }) => var.is(other_var),
        (
            Stmt::Reply { status, body },
            Stmt::Reply {
                status: other_status,
                body: other_body,
            },
        ) => same_expr(status, other_status) && same_expr(body, other_body),
        _ => false,
    }
}

#[cycle(same)]
fn same_other(left: &Option<Block>, right: &Option<Block>) -> bool
    ensures { IsTrue result ↔ (left.now ≡ right.now) }
{
    match (left, right) {
        (None, None) => true,
        (Some(left), Some(right)) => same_block(left, right),
        _ => false,
    }
}

/// Whether two blocks are the same, statement by statement. It takes no memory.
#[cycle(same)]
pub fn same_block(left: &Block, right: &Block) -> bool
    ensures { IsTrue result ↔ (left.now ≡ right.now) }
{
    let others = right.stmts.as_slice();
    if left.stmts.as_slice().len() != others.len() {
        return false;
    }
    for (i, stmt) in left.stmts.as_slice().iter().enumerate() {
        if !same_stmt(stmt, &others[i]) {
            return false;
        }
    }
    true
}

fn same_route(left: &Route, right: &Route) -> bool
    ensures { IsTrue result ↔ (left.now ≡ right.now) }
{
    left.method == right.method
        && left.pattern.is(&right.pattern)
        && same_block(&left.block, &right.block)
}

/// Whether two lists of routes are the same.
pub fn same_routes(left: &[Route], right: &[Route]) -> bool
    ensures { IsTrue result ↔ (left.now ≡ right.now) }
{
    if left.len() != right.len() {
        return false;
    }
    for (i, route) in left.iter().enumerate() {
        if !same_route(route, &right[i]) {
            return false;
        }
    }
    true
}
