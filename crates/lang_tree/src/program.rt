// Programs, whose parts are of the language's form.
ghost use Rattle.std.specs.Prelude.{◌≡◌, IfOk, IsTrue, if◌then◌else◌};
ghost use Rattle.lang_tree.specs.Depths.{expr_within, expr_fits, stmt_fits, block_fits, other_fits, routes_fit};

use crate::expr::Expr;
use crate::forms::{is_literal, is_path, is_word};
use crate::method::Method;
use crate::stmt::{Block, Stmt};
use lang_base::{Copied, NoMemory, Seq, Text};
use std::alloc::Global;
use std::marker::Model;

/// How deep blocks may nest, and how deep expressions may.
pub const MOST_DEPTH: u64 = 32;

/// The highest segment of a path that a program can name.
pub const MOST_SEGMENTS: u64 = 32;

/// A handler, and the requests that it takes: those of the method whose path has as many segments as the pattern,
/// each equal to the pattern's or where the pattern has `*`.
pub struct Route {
    pub method: Method,
    pub pattern: Text,
    pub block: Block,
}

impl Drop for Route {
    fn drop(self) {
        let Self {
            method: _,
            pattern: _,
            block: _,
        } = self;
    }
}

/// Routes in order. Of those that match a request the first runs.
pub type Routes = Seq<Route>;

impl Copied for Route {
    fn copied(&self, alloc: Global) -> Result<Route, NoMemory> {
        Ok(Route {
            method: self.method,
            pattern: self.pattern.copied(alloc)?,
            block: self.block.copied(alloc)?,
        })
    }
}

/// A program: routes whose parts are of the language's form. Patterns are paths; variables and tables are words that
/// the language doesn't reserve; numbers are from 0; literals are within their limit; `path` names a segment from 1 to
/// 32; and blocks and expressions nest at most 32 deep.
pub struct Program {
    routes: Routes,
}

impl Drop for Program {
    fn drop(self) {
        let Self { routes: _ } = self;
    }
}

impl Model for Program {
    ghost use Rattle.std.specs.Prelude.{List, IsTrue};
    ghost use Rattle.lang_tree.specs.declared.program.Route.{Route};
    ghost use Rattle.std.specs.Coded.{coded_list};
    ghost use Rattle.lang_tree.specs.contracts.program.Route.{the_row};

    ghost Value = { List Route };

    ghost coded = { coded_list the_row.coded };

    ghost use Rattle.lang_tree.specs.Depths.{routes_fit};

    ghost view = { λ p. p.routes };

    ghost invariant = { λ p. IsTrue (routes_fit p.routes) };
}

fn expr_within(expr: &Expr, most: u64) -> bool
    ensures { result ≡ expr_within expr.now most }
{
    if most == 0 {
        return false;
    }
    match expr {
        Expr::Integer(n) => *n >= 0,
        Expr::Str(text) => is_literal(text),
        Expr::Nothing | Expr::Body | Expr::Who => true,
        Expr::Var(name) => is_word(name),
        Expr::Path(n) => 1 <= *n && *n <= MOST_SEGMENTS,
        Expr::Part { text, by, n } => {
            expr_within(text.get(), most - 1)
                && expr_within(by.get(), most - 1)
                && expr_within(n.get(), most - 1)
        }
        Expr::Number(e) => expr_within(e.get(), most - 1),
        Expr::AsText(e) => expr_within(e.get(), most - 1),
        Expr::Pair { left, op: _, right } => expr_within(left.get(), most - 1)
            && expr_within(right.get(), most - 1),
    }
}

fn expr_fits(expr: &Expr) -> bool
    ensures { result ≡ expr_fits expr.now }
{
    expr_within(expr, MOST_DEPTH)
}

#[cycle(fits)]
fn stmt_fits(stmt: &Stmt, most: u64) -> bool
    ensures { result ≡ stmt_fits stmt.now most }
{
    match stmt {
        Stmt::Let { var, value } => is_word(var) && expr_fits(value),
        Stmt::Get { var, table, key } => is_word(var) && is_word(table) && expr_fits(key),
        Stmt::Put { table, key, value } => is_word(table) && expr_fits(key) && expr_fits(value),
        Stmt::Drop { table, key } => is_word(table) && expr_fits(key),
        Stmt::Each {
            key,
            text,
            table,
            prefix,
            block,
        } => is_word(key)
            && is_word(text)
            && is_word(table)
            && expr_fits(prefix)
            && block_fits(block, most),
        Stmt::If { test, then, other } => expr_fits(test)
            && block_fits(then, most)
            && other_fits(other, most),
        Stmt::Call {
            status,
            answer,
            dest,
            method: _,
            path,
            body,
        } => is_word(status)
            && is_word(answer)
            && expr_fits(dest)
            && expr_fits(path)
            && expr_fits(body),
        Stmt::Now { var } => is_word(var),
        Stmt::Random { var } => is_word(var),
        Stmt::Reply { status, body } => expr_fits(status) && expr_fits(body),
    }
}

#[cycle(fits)]
fn other_fits(other: &Option<Block>, most: u64) -> bool
    ensures { result ≡ other_fits other.now most }
{
    match other {
        None => true,
        Some(block) => block_fits(block, most),
    }
}

#[cycle(fits)]
fn block_fits(block: &Block, most: u64) -> bool
    ensures { result ≡ block_fits block.now most }
{
    if most == 0 {
        return false;
    }
    for stmt in block.stmts.as_slice() {
        if !stmt_fits(stmt, most - 1) {
            return false;
        }
    }
    true
}

fn routes_fit(routes: &[Route]) -> bool
    ensures { result ≡ routes_fit routes.now }
{
    for route in routes {
        if !is_path(&route.pattern) || !block_fits(&route.block, MOST_DEPTH) {
            return false;
        }
    }
    true
}

impl Program {
    /// The program of these routes, which are handed back exactly where a part isn't of its form.
    pub fn new(routes: Routes) -> Result<Program, Routes>
        ensures { result ≡ (if routes_fit routes then Ok routes else Err routes) }
    {
        if routes_fit(routes.as_slice()) {
            Ok(Program { routes })
        } else {
            Err(routes)
        }
    }

    /// The routes, in order.
    pub fn routes(&self) -> &[Route]
        ensures routes { result.now ≡ self.now }
        ensures fit { IsTrue (routes_fit self.now) }
    {
        self.routes.as_slice()
    }
}

impl Copied for Program {
    fn copied(&self, alloc: Global) -> Result<Program, NoMemory> {
        let routes = self.routes.copied(alloc)?;
        Ok(Program { routes })
    }
}
