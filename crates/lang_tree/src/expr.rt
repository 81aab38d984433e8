// Expressions.
ghost use Rattle.std.specs.Prelude.{◌≡◌, IfOk, IsOkAnd};
ghost use Rattle.lang_tree.specs.declared.expr.Expr.TheVariants as expr;

use lang_base::{Copied, NoMemory, Text, both};
use sqlite_items::Boxed;
use std::alloc::Global;

/// An operator between two expressions.
#[derive(Clone, Copy, PartialEq, Eq)]
pub enum Op {
    /// `+`, the sum of two numbers.
    Add,
    /// `-`, their difference.
    Sub,
    /// `*`, their product.
    Mul,
    /// `=`, whether kind and value are equal.
    Equal,
    /// `<`, whether the left number or text is below the right one.
    Less,
    /// `++`, two texts joined.
    Join,
}

/// An expression.
#[derive(Drop)]
pub enum Expr {
    /// A number, from 0.
    Integer(i64),
    /// A text.
    Str(Text),
    /// `nothing`.
    Nothing,
    /// `body`, the request's body.
    Body,
    /// `who`, the user that the request came for.
    Who,
    /// A variable.
    Var(Text),
    /// `path(n)`, a segment of the request's path, from 1.
    Path(u64),
    /// `part(text, by, n)`, the piece at place n of a text that is cut at each separator.
    Part {
        text: Boxed<Expr>,
        by: Boxed<Expr>,
        n: Boxed<Expr>,
    },
    /// `number(e)`.
    Number(Boxed<Expr>),
    /// `text(e)`.
    AsText(Boxed<Expr>),
    /// `(left op right)`.
    Pair {
        left: Boxed<Expr>,
        op: Op,
        right: Boxed<Expr>,
    },
}

fn boxed(alloc: Global, expr: Expr) -> Result<Boxed<Expr>, NoMemory>
    ensures { IfOk result (λ b. b ≡ expr) }
{
    Ok(Boxed::new(alloc, expr)?)
}

impl Expr {
    /// `part(text, by, n)`.
    pub fn part_of(alloc: Global, text: Expr, by: Expr, n: Expr) -> Result<Expr, NoMemory>
        ensures { IfOk result (λ e. e ≡ expr.Part text by n) }
    {
        let texts = both(boxed(alloc, text), boxed(alloc, by));
        let (texts, n) = both(texts, boxed(alloc, n))?;
        Ok(Expr::Part {
            text: texts.0,
            by: texts.1,
            n,
        })
    }

    /// `number(inner)`.
    pub fn number_of(alloc: Global, inner: Expr) -> Result<Expr, NoMemory>
        ensures { IfOk result (λ e. e ≡ expr.Number inner) }
    {
        Ok(Expr::Number(boxed(alloc, inner)?))
    }

    /// `text(inner)`.
    pub fn text_of(alloc: Global, inner: Expr) -> Result<Expr, NoMemory>
        ensures { IfOk result (λ e. e ≡ expr.AsText inner) }
    {
        Ok(Expr::AsText(boxed(alloc, inner)?))
    }

    /// `(left op right)`.
    pub fn pair_of(alloc: Global, left: Expr, op: Op, right: Expr) -> Result<Expr, NoMemory>
        ensures { IfOk result (λ e. e ≡ expr.Pair left op right) }
    {
        let (left, right) = both(boxed(alloc, left), boxed(alloc, right))?;
        Ok(Expr::Pair { left, op, right })
    }
}

// Each form is copied by a function of its own, and no part is held while another may fail: so proofs stay small.

fn copied_str(alloc: Global, text: &Text) -> Result<Expr, NoMemory>
    ensures { IfOk result (λ copy. copy ≡ expr.Str text.now) }
{
    Ok(Expr::Str(text.copied(alloc)?))
}

fn copied_var(alloc: Global, name: &Text) -> Result<Expr, NoMemory>
    ensures { IfOk result (λ copy. copy ≡ expr.Var name.now) }
{
    Ok(Expr::Var(name.copied(alloc)?))
}

#[cycle(copy)]
fn copied_number(alloc: Global, inner: &Expr) -> Result<Expr, NoMemory>
    ensures { IfOk result (λ copy. copy ≡ expr.Number inner.now) }
{
    Expr::number_of(alloc, inner.copied(alloc)?)
}

#[cycle(copy)]
fn copied_text(alloc: Global, inner: &Expr) -> Result<Expr, NoMemory>
    ensures { IfOk result (λ copy. copy ≡ expr.AsText inner.now) }
{
    Expr::text_of(alloc, inner.copied(alloc)?)
}

fn part_from(alloc: Global, parts: Result<((Expr, Expr), Expr), NoMemory>) -> Result<Expr, NoMemory>
    ensures { IfOk result (λ copy. IsOkAnd parts (λ p. copy ≡ expr.Part p.0.0 p.0.1 p.1)) }
{
    let (texts, n) = parts?;
    Expr::part_of(alloc, texts.0, texts.1, n)
}

fn pair_from(alloc: Global, op: Op, parts: Result<(Expr, Expr), NoMemory>) -> Result<Expr, NoMemory>
    ensures { IfOk result (λ copy. IsOkAnd parts (λ p. copy ≡ expr.Pair p.0 op p.1)) }
{
    let (left, right) = parts?;
    Expr::pair_of(alloc, left, op, right)
}

impl Copied for Expr {
    #[cycle(copy)]
    fn copied(&self, alloc: Global) -> Result<Expr, NoMemory> {
        match self {
            Expr::Integer(n) => Ok(Expr::Integer(*n)),
            Expr::Str(text) => copied_str(alloc, text),
            Expr::Nothing => Ok(Expr::Nothing),
            Expr::Body => Ok(Expr::Body),
            Expr::Who => Ok(Expr::Who),
            Expr::Var(name) => copied_var(alloc, name),
            Expr::Path(n) => Ok(Expr::Path(*n)),
            Expr::Part { text, by, n } => {
                let texts = both(text.get().copied(alloc), by.get().copied(alloc));
                part_from(alloc, both(texts, n.get().copied(alloc)))
            }
            Expr::Number(e) => copied_number(alloc, e.get()),
            Expr::AsText(e) => copied_text(alloc, e.get()),
            Expr::Pair { left, op, right } => {
                let sides = both(left.get().copied(alloc), right.get().copied(alloc));
                pair_from(alloc, *op, sides)
            }
        }
    }
}
