// Trees and literals that no text of a program spells, since it would be too long, or is refused before.
use crate::given::{holds, repeated, text};
use lang_base::Copied;
use lang_tree::{Block, Boxed, Expr, Items, Method, Program, Route, Routes, Stmt, is_literal};
use std::process::Abort;

fn nested_expr(rt: &(impl Abort + AllocGlobal), depth: u64) -> Expr {
    let mut expr = Expr::Body;
    for _ in 1..depth {
        expr = Expr::Number(Boxed::new(rt.alloc(), expr).ok().expect(rt, "memory"));
    }
    expr
}

fn block_of(rt: &(impl Abort + AllocGlobal), stmt: Stmt) -> Block {
    let mut stmts = Items::new(rt.alloc());
    stmts.push(stmt).expect(rt, "memory");
    Block { stmts }
}

fn tested(rt: &(impl Abort + AllocGlobal), then: Block) -> Block {
    block_of(
        rt,
        Stmt::If {
            test: Expr::Body,
            then,
            other: None,
        },
    )
}

fn nested_block(rt: &(impl Abort + AllocGlobal), depth: u64, body: Expr) -> Block {
    let status = Expr::Integer(200);
    let mut block = block_of(rt, Stmt::Reply { status, body });
    for _ in 1..depth {
        block = tested(rt, block);
    }
    block
}

fn routes(rt: &(impl Abort + AllocGlobal), block: Block) -> Routes {
    let mut routes = Routes::new(rt.alloc());
    let pattern = text(rt, "/n/*");
    routes
        .push(Route {
            method: Method::Put,
            pattern,
            block,
        })
        .expect(rt, "memory");
    routes
}

// Whether a program may nest so deep; the copy of one that may has as many routes.
fn may_nest(rt: &(impl Abort + AllocGlobal), blocks: u64, exprs: u64) -> bool {
    let block = nested_block(rt, blocks, nested_expr(rt, exprs));
    match Program::new(routes(rt, block)) {
        Ok(program) => {
            let copy = program.copied(rt.alloc()).expect(rt, "memory");
            copy.routes().len() == 1
        }
        Err(_) => false,
    }
}

#[test]
fn literals_have_a_greatest_length(rt: HostRuntime) {
    holds(&rt, "65,536", is_literal(&repeated(&rt, '\n', 65_536)));
    holds(&rt, "65,537", !is_literal(&repeated(&rt, '\n', 65_537)));
}

#[test]
fn keeps_depths(rt: HostRuntime) {
    holds(&rt, "32 blocks, 32 expressions", may_nest(&rt, 32, 32));
    holds(&rt, "33 blocks, 1 expressions", !may_nest(&rt, 33, 1));
    holds(&rt, "1 blocks, 33 expressions", !may_nest(&rt, 1, 33));
}
