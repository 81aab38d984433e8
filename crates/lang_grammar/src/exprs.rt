// The tokens of expressions.
ghost use Rattle.std.specs.Prelude.{◌≡◌, [], ◌∷◌, ◌++◌, OnOk};
ghost use Rattle.lang_tokens.specs.declared.token.Token.TheVariants as token;
ghost use Rattle.lang_grammar.specs.Grammar.{expr_tokens, op_token, segment};

use lang_base::{Copied, NoMemory, Text};
use lang_tokens::Token;
use lang_tree::{Expr, MOST_SEGMENTS, Op};
use std::alloc::Global;

fn op_token(op: Op) -> Token
    ensures { result ≡ op_token op }
{
    match op {
        Op::Add => Token::Plus,
        Op::Sub => Token::Minus,
        Op::Mul => Token::Star,
        Op::Equal => Token::Equals,
        Op::Less => Token::Less,
        Op::Join => Token::Join,
    }
}

/// The integer of `path`; a number that no program has there has none.
fn segment(n: u64) -> i64
    ensures { result ≡ segment n }
{
    if n <= MOST_SEGMENTS { n as i64 } else { -1 }
}

/// One token.
pub(crate) fn put(out: &mut Vec<Token>, token: Token) -> Result<(), NoMemory>
    ensures { OnOk result (out.new.items ≡ out.old.items ++ (token ∷ [])) }
{
    out.push(token)?;
    Ok(())
}

fn put_string(alloc: Global, out: &mut Vec<Token>, text: &Text) -> Result<(), NoMemory>
    ensures { OnOk result (out.new.items ≡ out.old.items ++ (token.Str text.now ∷ [])) }
{
    put(out, Token::Str(text.copied(alloc)?))
}

fn put_name(alloc: Global, out: &mut Vec<Token>, name: &Text) -> Result<(), NoMemory>
    ensures { OnOk result (out.new.items ≡ out.old.items ++ (token.Word name.now ∷ [])) }
{
    put(out, Token::Word(name.copied(alloc)?))
}

#[tactic(auto, using(crate::proofs::Printed::appends))]
fn put_path(out: &mut Vec<Token>, n: u64) -> Result<(), NoMemory>
    ensures { OnOk result (out.new.items
        ≡ out.old.items ++ (token.Path ∷ (token.Left ∷ (token.Integer (segment n) ∷ (token.Right ∷ []))))) }
{
    put(out, Token::Path)?;
    put(out, Token::Left)?;
    put(out, Token::Integer(segment(n)))?;
    put(out, Token::Right)
}

/// This token, and an expression.
#[cycle(expr)]
#[tactic(auto, using(crate::proofs::Printed::appends))]
pub(crate) fn put_behind(
    alloc: Global,
    out: &mut Vec<Token>,
    first: Token,
    expr: &Expr,
) -> Result<(), NoMemory>
    ensures { OnOk result (out.new.items ≡ out.old.items ++ (first ∷ expr_tokens expr.now)) }
{
    put(out, first)?;
    put_expr(alloc, out, expr)
}

// This token, and an expression in brackets.
#[cycle(expr)]
#[tactic(auto, using(crate::proofs::Printed::appends))]
fn put_inner(
    alloc: Global,
    out: &mut Vec<Token>,
    first: Token,
    inner: &Expr,
) -> Result<(), NoMemory>
    ensures { OnOk result (out.new.items
        ≡ out.old.items ++ (first ∷ (token.Left ∷ (expr_tokens inner.now ++ (token.Right ∷ []))))) }
{
    put(out, first)?;
    put_behind(alloc, out, Token::Left, inner)?;
    put(out, Token::Right)
}

#[cycle(expr)]
#[tactic(auto, using(crate::proofs::Printed::appends))]
pub(crate) fn put_expr(alloc: Global, out: &mut Vec<Token>, expr: &Expr) -> Result<(), NoMemory>
    ensures { OnOk result (out.new.items ≡ out.old.items ++ expr_tokens expr.now) }
{
    match expr {
        Expr::Integer(n) => put(out, Token::Integer(*n)),
        Expr::Str(text) => put_string(alloc, out, text),
        Expr::Nothing => put(out, Token::Nothing),
        Expr::Body => put(out, Token::Body),
        Expr::Who => put(out, Token::Who),
        Expr::Var(name) => put_name(alloc, out, name),
        Expr::Path(n) => put_path(out, *n),
        Expr::Part { text, by, n } => {
            put(out, Token::Part)?;
            put_behind(alloc, out, Token::Left, text.get())?;
            put_behind(alloc, out, Token::Comma, by.get())?;
            put_behind(alloc, out, Token::Comma, n.get())?;
            put(out, Token::Right)
        }
        Expr::Number(inner) => put_inner(alloc, out, Token::Number, inner.get()),
        Expr::AsText(inner) => put_inner(alloc, out, Token::AsText, inner.get()),
        Expr::Pair { left, op, right } => {
            put_behind(alloc, out, Token::Left, left.get())?;
            put_behind(alloc, out, op_token(*op), right.get())?;
            put(out, Token::Right)
        }
    }
}

/// This token, and a variable or a table.
#[tactic(auto, using(crate::proofs::Printed::appends))]
pub(crate) fn put_word(
    alloc: Global,
    out: &mut Vec<Token>,
    first: Token,
    name: &Text,
) -> Result<(), NoMemory>
    ensures { OnOk result (out.new.items ≡ out.old.items ++ (first ∷ (token.Word name.now ∷ []))) }
{
    put(out, first)?;
    put_name(alloc, out, name)
}

/// An expression, and the `;` behind it.
#[tactic(auto, using(crate::proofs::Printed::appends))]
pub(crate) fn put_last(alloc: Global, out: &mut Vec<Token>, expr: &Expr) -> Result<(), NoMemory>
    ensures { OnOk result (out.new.items ≡ out.old.items ++ (expr_tokens expr.now ++ (token.Semicolon ∷ []))) }
{
    put_expr(alloc, out, expr)?;
    put(out, Token::Semicolon)
}
