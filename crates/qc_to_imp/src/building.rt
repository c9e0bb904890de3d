// Statements from their parts.
ghost use Rattle.std.specs.Prelude.{◌≡◌, ◌++◌, [], ◌∷◌, IfOk};
ghost use Rattle.qc_imp.specs.declared.tree.ImpExpr.TheVariants as expr;
ghost use Rattle.qc_imp.specs.declared.tree.ImpStmt.TheVariants as stmt;
ghost use Rattle.qc_to_imp.specs.inner.StatementTrees as trees;

use qc_containers::{Boxed, List, Memory};
use qc_imp::{ImpExpr, ImpStmt};
use std::alloc::Global;

// A statement alone.
pub(crate) fn alone(alloc: Global, a: ImpStmt) -> Result<List<ImpStmt>, Memory>
    ensures { IfOk result (λ made. made ≡ a ∷ []) }
{
    let mut statements = List::new(alloc);
    statements.add(a)?;
    Ok(statements)
}

// Statements and one behind them.
pub(crate) fn then(statements: List<ImpStmt>, a: ImpStmt) -> Result<List<ImpStmt>, Memory>
    ensures { IfOk result (λ made. made ≡ statements ++ a ∷ []) }
{
    let mut statements = statements;
    statements.add(a)?;
    Ok(statements)
}

// A block of statements and a last one.
pub(crate) fn ended(statements: List<ImpStmt>, a: ImpStmt) -> Result<ImpStmt, Memory>
    ensures { IfOk result (λ made. made ≡ stmt.Block (statements ++ a ∷ [])) }
{
    Ok(ImpStmt::Block(then(statements, a)?))
}

// Whether the value of a variable is a left one.
fn is_left(alloc: Global, x: u128) -> Result<Boxed<ImpExpr>, Memory>
    ensures { IfOk result (λ made. made ≡ expr.IsLeft (expr.Var x)) }
{
    let value = Boxed::of(alloc, ImpExpr::Var(x))?;
    Boxed::of(alloc, ImpExpr::IsLeft(value))
}

// The content of the value of a variable.
pub(crate) fn payload(alloc: Global, x: u128) -> Result<Boxed<ImpExpr>, Memory>
    ensures { IfOk result (λ made. made ≡ expr.Payload (expr.Var x)) }
{
    let value = Boxed::of(alloc, ImpExpr::Var(x))?;
    Boxed::of(alloc, ImpExpr::Payload(value))
}

// By the side of a value, which a variable stands for, one statement or the other.
pub(crate) fn by_side(
    alloc: Global,
    x: u128,
    e: Boxed<ImpExpr>,
    a: Boxed<ImpStmt>,
    b: Boxed<ImpStmt>,
) -> Result<ImpStmt, Memory>
    ensures { IfOk result
        (λ made. made ≡ trees.both (stmt.Val x e) (stmt.If (expr.IsLeft (expr.Var x)) a b)) }
{
    let test = is_left(alloc, x)?;
    let value = alone(alloc, ImpStmt::Val(x, e))?;
    ended(value, ImpStmt::If(test, a, b))
}
