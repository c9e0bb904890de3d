// Expressions on JSON for those over data.
ghost use Rattle.std.specs.Prelude.{◌≡◌, [], ◌∷◌, IfOk};
ghost use Rattle.qc_to_js.specs.inner.Kept.{IsExpr};
ghost use Rattle.qc_to_js.specs.inner.Written.{IsCall};
ghost use Rattle.qc_js.specs.declared.tree.Expr.TheVariants as tree;
ghost use Rattle.qc_rt.specs.Laws.{function2};

use crate::data::{call, constant, named};
use crate::functions::{function_of_one, function_of_two};
use crate::parameters::parameters;
use qc_containers::{List, Memory};
use qc_imp::ImpExpr;
use qc_js::Expr;
use qc_ops::{Binary, Unary};
use qc_rt::Rt;
use qc_types::Classes;
use std::alloc::Global;

// The expression for one over data, with a schema's classes.
#[cycle(expressing)]
pub(crate) fn expression(alloc: Global, classes: &Classes, e: &ImpExpr) -> Result<Expr, Memory>
    ensures { IfOk result (λ made. IsExpr classes.now e.now made) }
{
    match e {
        ImpExpr::Var(x) => Ok(Expr::Var(*x)),
        ImpExpr::Const(d) => constant(alloc, d),
        ImpExpr::Global(name) => call(Rt::Dot, named(alloc, name)?, Expr::World),
        ImpExpr::Unary(op, a) => {
            let a = expression(alloc, classes, a.get())?;
            of_one(alloc, classes, op, a)
        }
        ImpExpr::Binary(op, a, b) => {
            let a = expression(alloc, classes, a.get())?;
            let b = expression(alloc, classes, b.get())?;
            of_two(alloc, *op, a, b)
        }
        ImpExpr::IsLeft(a) => {
            let a = expression(alloc, classes, a.get())?;
            call(Rt::IsLeft, List::new(alloc), a)
        }
        ImpExpr::Payload(a) => {
            let a = expression(alloc, classes, a.get())?;
            call(Rt::Payload, List::new(alloc), a)
        }
    }
}

// An operator on one value.
fn of_one(alloc: Global, classes: &Classes, op: &Unary, a: Expr) -> Result<Expr, Memory>
    ensures { IfOk result (λ made. IsCall classes.now op.now a made) }
{
    let before = parameters(alloc, classes, op)?;
    call(function_of_one(op), before, a)
}

// An operator on two values.
fn of_two(alloc: Global, op: Binary, a: Expr, b: Expr) -> Result<Expr, Memory>
    ensures { IfOk result (λ made. made ≡ tree.Call (function2 op) (a ∷ b ∷ [])) }
{
    let mut arguments = List::new(alloc);
    arguments.add(a)?;
    call(function_of_two(op), arguments, b)
}
