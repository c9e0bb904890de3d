// The expressions of programs for those of statements.
ghost use Rattle.std.specs.Prelude.{◌≡◌, IfOk};
ghost use Rattle.qc_imp.specs.declared.tree.ImpExpr.TheVariants as expr;
ghost use Rattle.qc_to_imp.specs.inner.Numbering.{pairs_of};
ghost use Rattle.qc_to_imp.specs.inner.StatementTrees as trees;

use crate::numbering::{Numbering, number_of};
use qc_containers::{Boxed, Memory, Name};
use qc_data::copy;
use qc_imp::ImpExpr;
use qc_nnrs::NnrsExpr;
use qc_ops::Unary;
use std::alloc::Global;

// The expression for one, by the numbers of variables.
#[cycle(renaming)]
fn renamed(alloc: Global, e: &NnrsExpr, numbering: &Numbering) -> Result<ImpExpr, Memory>
    ensures { IfOk result (λ made. made ≡ trees.renamed e.now (pairs_of numbering.now)) }
{
    match e {
        NnrsExpr::Var(x) => Ok(ImpExpr::Var(number_of(numbering, *x))),
        NnrsExpr::Const(d) => Ok(ImpExpr::Const(copy(alloc, d)?)),
        NnrsExpr::Global(name) => global(alloc, name),
        NnrsExpr::Unary(op, a) => {
            let a = renamed_part(alloc, a.get(), numbering)?;
            of_one(alloc, op, a)
        }
        NnrsExpr::Binary(op, a, b) => {
            let a = renamed_part(alloc, a.get(), numbering)?;
            let b = renamed_part(alloc, b.get(), numbering)?;
            Ok(ImpExpr::Binary(*op, a, b))
        }
    }
}

// The same in a box. While others are made, trees are held in boxes.
#[cycle(renaming)]
pub(crate) fn renamed_part(
    alloc: Global,
    e: &NnrsExpr,
    numbering: &Numbering,
) -> Result<Boxed<ImpExpr>, Memory>
    ensures { IfOk result (λ made. made ≡ trees.renamed e.now (pairs_of numbering.now)) }
{
    let made = renamed(alloc, e, numbering)?;
    Boxed::of(alloc, made)
}

// A global.
fn global(alloc: Global, name: &Name) -> Result<ImpExpr, Memory>
    ensures { IfOk result (λ made. made ≡ expr.Global name.now) }
{
    Ok(ImpExpr::Global(name.copy(alloc)?))
}

// An operator of one operand.
fn of_one(alloc: Global, op: &Unary, a: Boxed<ImpExpr>) -> Result<ImpExpr, Memory>
    ensures { IfOk result (λ made. made ≡ expr.Unary op.now a) }
{
    Ok(ImpExpr::Unary(op.copy(alloc)?, a))
}
