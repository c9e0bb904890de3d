// Whether each variable is bound, and used as its class says.
ghost use Rattle.std.specs.Prelude.{◌≡◌, ◌∷◌};
ghost use Rattle.qc_nnrs.specs.WellFormed.{fits_expr, fits_stmt, read_only, well_formed};
ghost use Rattle.qc_nnrs_store.specs.Chains.{frame_of};

use qc_nnrs::{Nnrs, NnrsExpr, NnrsStmt};
use qc_nnrs_store::{Chain, is_pushed, is_read, is_set};

/// Whether the program is well formed: each variable is bound, and used as its class says. It takes no memory.
pub fn well_formed(t: &Nnrs) -> bool
    ensures { result ≡ well_formed t.now }
{
    stmt_fits(&t.body, &Chain::Sets(t.result, &Chain::Empty))
}

// Whether each variable of an expression is one that is read.
fn expr_fits(e: &NnrsExpr, scope: &Chain) -> bool
    ensures { result ≡ fits_expr e.now (frame_of scope.now) }
{
    match e {
        NnrsExpr::Var(x) => is_read(scope, *x),
        NnrsExpr::Const(_) | NnrsExpr::Global(_) => true,
        NnrsExpr::Unary(_, a) => expr_fits(a.get(), scope),
        NnrsExpr::Binary(_, a, b) => expr_fits(a.get(), scope) && expr_fits(b.get(), scope),
    }
}

// Whether each variable of a statement is bound, and used as its class says.
#[cycle(fit)]
fn stmt_fits(s: &NnrsStmt, scope: &Chain) -> bool
    ensures { result ≡ fits_stmt s.now (frame_of scope.now) }
{
    match s {
        NnrsStmt::Seq(a, b) => stmt_fits(a.get(), scope) && stmt_fits(b.get(), scope),
        NnrsStmt::Let(x, e, b) | NnrsStmt::For(x, e, b) => {
            expr_fits(e.get(), scope) && fits_with(b.get(), scope, *x)
        }
        NnrsStmt::LetMut(x, a, b) => {
            stmt_fits(a.get(), &Chain::Sets(*x, &*scope)) && fits_with(b.get(), scope, *x)
        }
        NnrsStmt::LetColl(x, a, b) => {
            stmt_fits(a.get(), &Chain::Pushes(*x, &*scope)) && fits_with(b.get(), scope, *x)
        }
        NnrsStmt::Set(x, e) => is_set(scope, *x) && expr_fits(e.get(), scope),
        NnrsStmt::Push(x, e) => is_pushed(scope, *x) && expr_fits(e.get(), scope),
        NnrsStmt::If(e, a, b) => {
            expr_fits(e.get(), scope) && stmt_fits(a.get(), scope) && stmt_fits(b.get(), scope)
        }
        NnrsStmt::Either(e, x, a, y, b) => {
            expr_fits(e.get(), scope)
                && fits_with(a.get(), scope, *x)
                && fits_with(b.get(), scope, *y)
        }
    }
}

// The same of a body with a variable that is read.
#[cycle(fit)]
fn fits_with(body: &NnrsStmt, scope: &Chain, x: u128) -> bool
    ensures { result ≡ fits_stmt body.now ((x, read_only) ∷ frame_of scope.now) }
{
    stmt_fits(body, &Chain::Reads(x, None, &*scope))
}
