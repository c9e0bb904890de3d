// The programs for those of statements.
ghost use Rattle.std.specs.Prelude.{◌≡◌, ◌≤◌, ◌+◌, ◌*◌, ◌^◌, ◌<◌, [], ◌∷◌, IfOk, IsTrue};
ghost use Rattle.qc_data.specs.Outcome.{IsKept, Mode};
ghost use Rattle.qc_imp.specs.Meaning.{imp};
ghost use Rattle.qc_imp.specs.Sizes as programs;
ghost use Rattle.qc_imp.specs.WellFormed.{well_formed};
ghost use Rattle.qc_imp.specs.declared.tree.ImpStmt.TheVariants as stmt;
ghost use Rattle.qc_nnrs.specs.Meaning.{nnrs};
ghost use Rattle.qc_nnrs.specs.Sizes.{size, stmt_size};
ghost use Rattle.qc_nnrs.specs.WellFormed.{well_formed as fits};
ghost use Rattle.qc_types.specs.Schemas.{WorldOf};
ghost use Rattle.qc_to_imp.specs.inner.Numbering.{pairs_of};
ghost use Rattle.qc_to_imp.specs.inner.StatementTrees as trees;

use crate::building::{alone, by_side, ended, payload, then};
use crate::expression_trees::renamed_part;
use crate::numbering::{Numbering, number_of};
use qc_containers::{Boxed, List, Memory};
use qc_imp::{Imp, ImpStmt};
use qc_nnrs::{Nnrs, NnrsStmt};
use std::alloc::Global;

// The program for one, which keeps its value in every mode and world, is well formed where it is, and at most 32 times
// as large.
pub(crate) fn whole_program(alloc: Global, p: &Nnrs) -> Result<Imp, Memory>
    requires well_formed { IsTrue (fits p.now) }
    requires small { size p.now ≤ 2 ^ 100 }
    ensures keeps { IfOk result (λ made. (m : Mode) (w : WorldOf) → IsKept (nnrs m w p.now) (imp m w made)) }
    ensures good { IfOk result (λ made. IsTrue (well_formed made)) }
    ensures size { IfOk result (λ made. programs.size made ≤ 32 * size p.now) }
{
    whole(alloc, p)
}

// The same, by its definition.
fn whole(alloc: Global, p: &Nnrs) -> Result<Imp, Memory>
    requires { size p.now ≤ 2 ^ 100 }
    ensures { IfOk result (λ made. made ≡ trees.lowered p.now) }
{
    let declared = alone(alloc, ImpStmt::Var(0))?;
    let body = under(alloc, &p.body, p.result, &Numbering::Empty, 0)?;
    let body = ended(declared, body)?;
    Ok(Imp { body, result: 0 })
}

// The statement for one, by the numbers of variables, where `n` and above are free to use.
#[cycle(lowering)]
fn lower(alloc: Global, s: &NnrsStmt, numbering: &Numbering, n: u128) -> Result<ImpStmt, Memory>
    requires { n + 4 * stmt_size s.now < 2 ^ 128 }
    ensures { IfOk result (λ made. made ≡ trees.lower s.now (pairs_of numbering.now) n) }
{
    match s {
        NnrsStmt::Seq(a, b) => {
            let a = lower(alloc, a.get(), numbering, n)?;
            let statements = alone(alloc, a)?;
            let b = lower(alloc, b.get(), numbering, n)?;
            ended(statements, b)
        }
        NnrsStmt::Let(x, e, b) => {
            let e = renamed_part(alloc, e.get(), numbering)?;
            let statements = alone(alloc, ImpStmt::Val(n, e))?;
            let b = under(alloc, b.get(), *x, numbering, n)?;
            ended(statements, b)
        }
        NnrsStmt::LetMut(x, a, b) => {
            let statements = assigning(alloc, a.get(), *x, numbering, n)?;
            let b = under(alloc, b.get(), *x, numbering, n)?;
            ended(statements, b)
        }
        NnrsStmt::LetColl(x, a, b) => {
            let statements = collecting(alloc, a.get(), *x, numbering, n)?;
            let b = under(alloc, b.get(), *x, numbering, n)?;
            ended(statements, b)
        }
        NnrsStmt::Set(x, e) => {
            let e = renamed_part(alloc, e.get(), numbering)?;
            Ok(ImpStmt::Set(number_of(numbering, *x), e))
        }
        NnrsStmt::Push(x, e) => {
            let e = renamed_part(alloc, e.get(), numbering)?;
            Ok(ImpStmt::Push(number_of(numbering, *x), e))
        }
        NnrsStmt::For(x, e, b) => {
            let e = renamed_part(alloc, e.get(), numbering)?;
            let b = under(alloc, b.get(), *x, numbering, n)?;
            let b = Boxed::of(alloc, b)?;
            Ok(ImpStmt::For(n, e, b))
        }
        NnrsStmt::If(e, a, b) => {
            let e = renamed_part(alloc, e.get(), numbering)?;
            let a = part_of(alloc, a.get(), numbering, n)?;
            let b = part_of(alloc, b.get(), numbering, n)?;
            Ok(ImpStmt::If(e, a, b))
        }
        NnrsStmt::Either(e, x, a, y, b) => {
            let e = renamed_part(alloc, e.get(), numbering)?;
            let a = with_content(alloc, a.get(), *x, numbering, n)?;
            let b = with_content(alloc, b.get(), *y, numbering, n)?;
            by_side(alloc, n, e, a, b)
        }
    }
}

// The same in a box. While others are made, statements are held in boxes and lists.
#[cycle(lowering)]
fn part_of(
    alloc: Global,
    s: &NnrsStmt,
    numbering: &Numbering,
    n: u128,
) -> Result<Boxed<ImpStmt>, Memory>
    requires { n + 4 * stmt_size s.now < 2 ^ 128 }
    ensures { IfOk result (λ made. made ≡ trees.lower s.now (pairs_of numbering.now) n) }
{
    let made = lower(alloc, s, numbering, n)?;
    Boxed::of(alloc, made)
}

// A part under a binder, whose variable is `n`.
#[cycle(lowering)]
fn under(
    alloc: Global,
    a: &NnrsStmt,
    x: u128,
    numbering: &Numbering,
    n: u128,
) -> Result<ImpStmt, Memory>
    requires { n + 1 + 4 * stmt_size a.now < 2 ^ 128 }
    ensures { IfOk result (λ made. made ≡ trees.lower a.now ((x, n) ∷ pairs_of numbering.now) (n + 1)) }
{
    lower(alloc, a, &Numbering::Under(x, n, &*numbering), n + 1)
}

// A variable that a part sets, and the part.
#[cycle(lowering)]
fn assigning(
    alloc: Global,
    a: &NnrsStmt,
    x: u128,
    numbering: &Numbering,
    n: u128,
) -> Result<List<ImpStmt>, Memory>
    requires { n + 1 + 4 * stmt_size a.now < 2 ^ 128 }
    ensures { IfOk result
        (λ made. made ≡ stmt.Var n ∷ trees.lower a.now ((x, n) ∷ pairs_of numbering.now) (n + 1) ∷ []) }
{
    let declared = alone(alloc, ImpStmt::Var(n))?;
    let a = under(alloc, a, x, numbering, n)?;
    then(declared, a)
}

// A variable for all that a part pushes to it.
#[cycle(lowering)]
fn collecting(
    alloc: Global,
    a: &NnrsStmt,
    x: u128,
    numbering: &Numbering,
    n: u128,
) -> Result<List<ImpStmt>, Memory>
    requires { n + 1 + 4 * stmt_size a.now < 2 ^ 128 }
    ensures { IfOk result
        (λ made. made ≡ stmt.Collect n (trees.lower a.now ((x, n) ∷ pairs_of numbering.now) (n + 1) ∷ []) ∷ []) }
{
    let a = under(alloc, a, x, numbering, n)?;
    let statements = alone(alloc, a)?;
    alone(alloc, ImpStmt::Collect(n, statements))
}

// A part with the content of the value of `n` as the variable behind it.
#[cycle(lowering)]
fn with_content(
    alloc: Global,
    a: &NnrsStmt,
    x: u128,
    numbering: &Numbering,
    n: u128,
) -> Result<Boxed<ImpStmt>, Memory>
    requires { n + 2 + 4 * stmt_size a.now < 2 ^ 128 }
    ensures { IfOk result (λ made. made
        ≡ trees.with_content n (trees.lower a.now ((x, n + 1) ∷ pairs_of numbering.now) (n + 1 + 1))) }
{
    let content = payload(alloc, n)?;
    let statements = alone(alloc, ImpStmt::Val(n + 1, content))?;
    let a = under(alloc, a, x, numbering, n + 1)?;
    let made = ended(statements, a)?;
    Boxed::of(alloc, made)
}
