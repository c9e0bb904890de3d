// Which programs are well formed.
ghost use Rattle.std.specs.Prelude.{◌≡◌, is_some, map};
ghost use Rattle.qc_imp.specs.WellFormed.{all_fit, fits_expr, fits_stmt, well_formed};
ghost use Rattle.qc_imp.specs.declared.tree.ImpStmt.TheViews.{out-ImpStmt};
ghost use Rattle.qc_imp_rules.specs.inner.Scopes as spec;
ghost use Rattle.qc_imp_rules.specs.inner.Scopes.{scope_of};

use crate::scope::{Chain, Class, is_new, may_push, may_read, may_set};
use qc_imp::{Imp, ImpExpr, ImpStmt};

/// Whether the program is well formed: its statement is a block, which declares the variable that it returns; no
/// variable is declared where one of its number is in scope; each is in scope where it is used, and is read, set and
/// pushed to only as it may be. It takes no memory.
pub fn well_formed(t: &Imp) -> bool
    ensures { result ≡ well_formed t.now }
{
    match &t.body {
        ImpStmt::Block(statements) => {
            all_fit(statements.as_slice(), &Chain::Empty, Some(t.result))
        }
        _ => false,
    }
}

// Whether an expression reads what may be read.
fn expression_fits(e: &ImpExpr, chain: &Chain) -> bool
    ensures { result ≡ fits_expr e.now (scope_of chain.now) }
{
    match e {
        ImpExpr::Var(x) => may_read(chain, *x),
        ImpExpr::Const(_) | ImpExpr::Global(_) => true,
        ImpExpr::Unary(_, a) | ImpExpr::IsLeft(a) | ImpExpr::Payload(a) => {
            expression_fits(a.get(), chain)
        }
        ImpExpr::Binary(_, a, b) => {
            expression_fits(a.get(), chain) && expression_fits(b.get(), chain)
        }
    }
}

// Whether a statement is well formed, with the variables of the chain in scope.
#[cycle(fitting)]
#[tactic(auto, using(crate::proofs::FormsFit::by_form))]
fn fits(s: &ImpStmt, chain: &Chain) -> bool
    ensures { result ≡ is_some (fits_stmt s.now (scope_of chain.now)) }
{
    match s {
        ImpStmt::Block(statements) => all_fit(statements.as_slice(), chain, None),
        ImpStmt::Var(x) => is_new(chain, *x),
        ImpStmt::Val(x, e) => expression_fits(e.get(), chain) && is_new(chain, *x),
        ImpStmt::Set(x, e) => may_set(chain, *x) && expression_fits(e.get(), chain),
        ImpStmt::Collect(x, statements) => {
            is_new(chain, *x)
                && all_fit(
                    statements.as_slice(),
                    &Chain::Declare(*x, Class::Pushable, &*chain),
                    None,
                )
        }
        ImpStmt::Push(x, e) => may_push(chain, *x) && expression_fits(e.get(), chain),
        ImpStmt::For(x, e, a) => {
            expression_fits(e.get(), chain)
                && is_new(chain, *x)
                && fits(a.get(), &Chain::Declare(*x, Class::Readable, &*chain))
        }
        ImpStmt::If(e, a, b) => {
            expression_fits(e.get(), chain) && fits(a.get(), chain) && fits(b.get(), chain)
        }
    }
}

// The same of statements in order, and whether a variable may be read behind them if one is asked for.
#[cycle(fitting)]
#[tactic(auto, using(crate::proofs::FormsFit::first_fits, crate::proofs::FormsFit::first_not))]
fn all_fit(statements: &[ImpStmt], chain: &Chain, asked: Option<u128>) -> bool
    ensures { result ≡ spec.ends asked (all_fit (map fits_stmt statements.now) (scope_of chain.now)) }
{
    match statements {
        [] => ends(chain, asked),
        [first, rest @ ..] => { fits(first, chain) && rest_fit(first, rest, chain, asked) }
    }
}

// The same of those behind a statement that is well formed.
#[cycle(fitting)]
fn rest_fit(first: &ImpStmt, rest: &[ImpStmt], chain: &Chain, asked: Option<u128>) -> bool
    ensures { result ≡ spec.ends asked (all_fit (map fits_stmt rest.now)
        (spec.with_declared (spec.declared_by (out-ImpStmt first.now)) (scope_of chain.now))) }
{
    match declared_by(first) {
        Some((x, class)) => all_fit(rest, &Chain::Declare(x, class, &*chain), asked),
        None => all_fit(rest, chain, asked),
    }
}

// Whether a variable may be read, if one is asked for.
fn ends(chain: &Chain, asked: Option<u128>) -> bool
    ensures { result ≡ spec.ends asked (Some (scope_of chain.now)) }
{
    match asked {
        Some(x) => may_read(chain, x),
        None => true,
    }
}

// The variable that a statement declares, as what stands behind it sees it.
fn declared_by(s: &ImpStmt) -> Option<(u128, Class)>
    ensures { result ≡ spec.declared_by (out-ImpStmt s.now) }
{
    match s {
        ImpStmt::Var(x) => Some((*x, Class::Settable)),
        ImpStmt::Val(x, _) | ImpStmt::Collect(x, _) => Some((*x, Class::Readable)),
        _ => None,
    }
}
