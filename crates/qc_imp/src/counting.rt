// The size of programs.
ghost use Rattle.std.specs.Prelude.{◌≡◌, ◌≤◌, ◌^◌, map, sum};
ghost use Rattle.qc_imp.specs.Sizes.{expr_size, size, stmt_size};

use crate::tree::{Imp, ImpExpr, ImpStmt};

/// How many nodes the program has, of which there are at most 2^100.
pub fn nodes(t: &Imp) -> u128
    requires small { size t.now ≤ 2 ^ 100 }
    ensures { result ≡ size t.now }
{
    1 + statement_nodes(&t.body)
}

// How many nodes an expression has.
fn expression_nodes(e: &ImpExpr) -> u128
    requires small { expr_size e.now ≤ 2 ^ 100 }
    ensures { result ≡ expr_size e.now }
{
    match e {
        ImpExpr::Var(_) | ImpExpr::Const(_) | ImpExpr::Global(_) => 1,
        ImpExpr::Unary(_, a) | ImpExpr::IsLeft(a) | ImpExpr::Payload(a) => {
            1 + expression_nodes(a.get())
        }
        ImpExpr::Binary(_, a, b) => 1 + expression_nodes(a.get()) + expression_nodes(b.get()),
    }
}

// How many nodes a statement has.
#[cycle(counting)]
fn statement_nodes(s: &ImpStmt) -> u128
    requires small { stmt_size s.now ≤ 2 ^ 100 }
    ensures { result ≡ stmt_size s.now }
{
    match s {
        ImpStmt::Block(statements) | ImpStmt::Collect(_, statements) => {
            1 + all_nodes(statements.as_slice())
        }
        ImpStmt::Var(_) => 1,
        ImpStmt::Val(_, e) | ImpStmt::Set(_, e) | ImpStmt::Push(_, e) => {
            1 + expression_nodes(e.get())
        }
        ImpStmt::For(_, e, a) => 1 + expression_nodes(e.get()) + statement_nodes(a.get()),
        ImpStmt::If(e, a, b) => {
            1 + expression_nodes(e.get()) + statement_nodes(a.get()) + statement_nodes(b.get())
        }
    }
}

// How many nodes statements have together.
#[cycle(counting)]
fn all_nodes(statements: &[ImpStmt]) -> u128
    requires small { sum (map stmt_size statements.now) ≤ 2 ^ 100 }
    ensures { result ≡ sum (map stmt_size statements.now) }
{
    let mut all = 0;
    for statement in statements {
        all += statement_nodes(statement);
    }
    all
}
