// Trees from their parts.
ghost use Rattle.std.specs.Prelude.{◌≡◌, IfOk};
ghost use Rattle.qc_oql_tree.specs.declared.tree.Oql.TheVariants as tree;

use crate::tree::{Binary, Named, Oql, Quantifier};
use qc_containers::{Boxed, Memory};
use std::alloc::Global;

/// An operator or a function with its operands.
pub fn binary(
    alloc: Global,
    at: u32,
    operator: Binary,
    left: Oql,
    right: Oql,
) -> Result<Oql, Memory>
    ensures { IfOk result (λ made. made ≡ tree.Binary at operator left right) }
{
    let left = Boxed::of(alloc, left)?;
    Ok(Oql::Binary(at, operator, left, Boxed::of(alloc, right)?))
}

/// A condition with the values where it holds and where it fails.
pub fn conditional(
    alloc: Global,
    at: u32,
    condition: Oql,
    branches: (Oql, Oql),
) -> Result<Oql, Memory>
    ensures { IfOk result (λ made. made ≡ tree.If at condition branches.0 branches.1) }
{
    let (holds, fails) = branches;
    let condition = Boxed::of(alloc, condition)?;
    let holds = Boxed::of(alloc, holds)?;
    Ok(Oql::If(at, condition, holds, Boxed::of(alloc, fails)?))
}

/// A value with the cases for its left and its right content.
pub fn matching(alloc: Global, at: u32, of: Oql, cases: (Named, Named)) -> Result<Oql, Memory>
    ensures { IfOk result (λ made. made ≡ tree.Match at of cases.0 cases.1) }
{
    let (left, right) = cases;
    let of = Boxed::of(alloc, of)?;
    let left = Boxed::of(alloc, left)?;
    Ok(Oql::Match(at, of, left, Boxed::of(alloc, right)?))
}

/// A quantifier with its bound name and its condition.
pub fn quantified(
    alloc: Global,
    at: u32,
    quantifier: Quantifier,
    bind: Named,
    holds: Oql,
) -> Result<Oql, Memory>
    ensures { IfOk result (λ made. made ≡ tree.Quantified at quantifier bind holds) }
{
    let bind = Boxed::of(alloc, bind)?;
    Ok(Oql::Quantified(at, quantifier, bind, Boxed::of(alloc, holds)?))
}
