// The size of programs.
ghost use Rattle.std.specs.Prelude.{◌≡◌, ◌≤◌, ◌^◌};
ghost use Rattle.qc_nnrs.specs.Sizes.{expr_size, size, stmt_size};

use crate::tree::{Nnrs, NnrsExpr, NnrsStmt};

/// How many nodes the program has, of which there are at most 2^100.
pub fn nodes(t: &Nnrs) -> u128
    requires small { size t.now ≤ 2 ^ 100 }
    ensures { result ≡ size t.now }
{
    1 + stmt_nodes(&t.body)
}

// How many nodes an expression has.
fn expr_nodes(e: &NnrsExpr) -> u128
    requires small { expr_size e.now ≤ 2 ^ 100 }
    ensures { result ≡ expr_size e.now }
{
    match e {
        NnrsExpr::Var(_) | NnrsExpr::Const(_) | NnrsExpr::Global(_) => 1,
        NnrsExpr::Unary(_, a) => 1 + expr_nodes(a.get()),
        NnrsExpr::Binary(_, a, b) => 1 + expr_nodes(a.get()) + expr_nodes(b.get()),
    }
}

// How many nodes a statement has.
fn stmt_nodes(s: &NnrsStmt) -> u128
    requires small { stmt_size s.now ≤ 2 ^ 100 }
    ensures { result ≡ stmt_size s.now }
{
    match s {
        NnrsStmt::Set(_, e) | NnrsStmt::Push(_, e) => 1 + expr_nodes(e.get()),
        NnrsStmt::Let(_, e, b) | NnrsStmt::For(_, e, b) => {
            1 + expr_nodes(e.get()) + stmt_nodes(b.get())
        }
        NnrsStmt::Seq(a, b) | NnrsStmt::LetMut(_, a, b) | NnrsStmt::LetColl(_, a, b) => {
            1 + stmt_nodes(a.get()) + stmt_nodes(b.get())
        }
        NnrsStmt::If(e, a, b) | NnrsStmt::Either(e, _, a, _, b) => {
            1 + expr_nodes(e.get()) + stmt_nodes(a.get()) + stmt_nodes(b.get())
        }
    }
}
