// Equality of expressions.
ghost use Rattle.std.specs.Prelude.{◌≡◌, ◌↔◌, IsTrue};

use lang_core::{Expr, Same};

/// Whether two expressions are the same, part by part.
pub fn same_expr(left: &Expr, right: &Expr) -> bool
    ensures { IsTrue result ↔ (left.now ≡ right.now) }
{
    match (left, right) {
        (Expr::Integer(a), Expr::Integer(b)) => *a == *b,
        (Expr::Str(a), Expr::Str(b)) => a.is(b),
        (Expr::Nothing, Expr::Nothing) => true,
        (Expr::Body, Expr::Body) => true,
        (Expr::Who, Expr::Who) => true,
        (Expr::Var(a), Expr::Var(b)) => a.is(b),
        (Expr::Path(a), Expr::Path(b)) => *a == *b,
        (
            Expr::Part { text, by, n },
            Expr::Part {
                text: other_text,
                by: other_by,
                n: other_n,
            },
        ) => {
            same_expr(text.get(), other_text.get())
                && same_expr(by.get(), other_by.get())
                && same_expr(n.get(), other_n.get())
        }
        (Expr::Number(a), Expr::Number(b)) => same_expr(a.get(), b.get()),
        (Expr::AsText(a), Expr::AsText(b)) => same_expr(a.get(), b.get()),
        (
            Expr::Pair { left, op, right },
            Expr::Pair {
                left: other_left,
                op: other_op,
                right: other_right,
            },
        ) => {
            same_expr(left.get(), other_left.get())
                && *op == *other_op
                && same_expr(right.get(), other_right.get())
        }
        _ => false,
    }
}
