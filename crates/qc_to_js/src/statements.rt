// Statements on JSON for those over data.
ghost use Rattle.std.specs.Prelude.{IfOk, map};
ghost use Rattle.qc_imp.specs.Meaning.{all_of, stmt};
ghost use Rattle.qc_imp.specs.WellFormed.{all_fit, fits_stmt};
ghost use Rattle.qc_to_js.specs.inner.Kept.{AreStmts, IsBlock, IsStmt};

use crate::expressions::expression;
use qc_containers::{List, Memory};
use qc_imp::ImpStmt;
use qc_js::Stmt;
use qc_types::Classes;
use std::alloc::Global;

// The statement for one over data, with a schema's classes.
#[cycle(stating)]
fn statement(alloc: Global, classes: &Classes, a: &ImpStmt) -> Result<Stmt, Memory>
    ensures { IfOk result (λ made. IsStmt classes.now a.now made) }
{
    match a {
        ImpStmt::Block(statements) => Ok(Stmt::Block(block(
            alloc,
            classes,
            statements.as_slice(),
        )?)),
        ImpStmt::Var(x) => Ok(Stmt::Let(*x)),
        ImpStmt::Val(x, e) => Ok(Stmt::Const(*x, expression(alloc, classes, e.get())?)),
        ImpStmt::Set(x, e) => Ok(Stmt::Set(*x, expression(alloc, classes, e.get())?)),
        ImpStmt::Collect(x, statements) => Ok(Stmt::Collect(
            *x,
            block(alloc, classes, statements.as_slice())?,
        )),
        ImpStmt::Push(x, e) => Ok(Stmt::Push(*x, expression(alloc, classes, e.get())?)),
        ImpStmt::For(x, e, a) => {
            let body = part(alloc, classes, a.get())?;
            Ok(Stmt::For(*x, expression(alloc, classes, e.get())?, body))
        }
        ImpStmt::If(e, a, b) => {
            let first = part(alloc, classes, a.get())?;
            let second = part(alloc, classes, b.get())?;
            Ok(Stmt::If(expression(alloc, classes, e.get())?, first, second))
        }
    }
}

// The statements in order.
#[cycle(stating)]
pub(crate) fn statements(
    alloc: Global,
    classes: &Classes,
    all: &[ImpStmt],
) -> Result<List<Stmt>, Memory>
    ensures { IfOk result (λ made. AreStmts classes.now all.now made) }
{
    let mut made = List::new(alloc);
    for a in all {
        made.add(statement(alloc, classes, a)?)?;
    }
    Ok(made)
}

// The statements of a block. Where its one statement is a block, they are that one's.
#[cycle(stating)]
fn block(alloc: Global, classes: &Classes, all: &[ImpStmt]) -> Result<List<Stmt>, Memory>
    ensures { IfOk result (λ made. IsBlock classes.now (λ m w. all_of (map (stmt m w) all.now))
        (all_fit (map fits_stmt all.now)) made) }
{
    match all {
        [a] => part(alloc, classes, a),
        _ => statements(alloc, classes, all),
    }
}

// The statements of the block that a statement becomes.
#[cycle(stating)]
fn part(alloc: Global, classes: &Classes, a: &ImpStmt) -> Result<List<Stmt>, Memory>
    ensures { IfOk result (λ made. IsBlock classes.now (λ m w. stmt m w a.now) (fits_stmt a.now) made) }
{
    if let ImpStmt::Block(statements) = a {
        return block(alloc, classes, statements.as_slice());
    }
    let mut made = List::new(alloc);
    made.add(statement(alloc, classes, a)?)?;
    Ok(made)
}
