// The trees of the calculus for those of the algebra.
ghost use Rattle.std.specs.Prelude.{◌≡◌, ◌≤◌, ◌+◌, ◌*◌, ◌^◌, ◌<◌, [], IfOk};
ghost use Rattle.qc_data.specs.Outcome.{IsKept, Mode};
ghost use Rattle.qc_data.specs.declared.data.Datum.TheVariants.{Rec, Unit as Nothing};
ghost use Rattle.qc_nnrc.specs.Free.{IsClosed};
ghost use Rattle.qc_nnrc.specs.Meaning.{nnrc};
ghost use Rattle.qc_nnrc.specs.Sizes as calculus;
ghost use Rattle.qc_nnrc.specs.declared.tree.Nnrc.TheVariants as to;
ghost use Rattle.qc_nra.specs.Meaning.{nra};
ghost use Rattle.qc_nra.specs.Sizes.{size};
ghost use Rattle.qc_ops.specs.declared.op.Binary.TheVariants as two;
ghost use Rattle.qc_ops.specs.declared.op.Unary.TheVariants as one;
ghost use Rattle.qc_types.specs.Schemas.{WorldOf};
ghost use Rattle.qc_lower.specs.inner.AlgebraTrees as trees;

use qc_containers::{Boxed, Memory, Name};
use qc_data::{Datum, Fields, Items, copy};
use qc_nnrc::Nnrc;
use qc_nra::Nra;
use qc_ops::{Binary, Unary};
use std::alloc::Global;

// The tree for a whole one, which keeps its value in every mode and world, has no free variable and is at most 32 times
// as large.
pub(crate) fn whole_tree(alloc: Global, q: &Nra) -> Result<Nnrc, Memory>
    requires { size q.now ≤ 2 ^ 100 }
    ensures keeps { IfOk result
        (λ made. (m : Mode) (w : WorldOf) → IsKept (nra m w q.now Nothing (Rec [])) (nnrc m w made [])) }
    ensures good { IfOk result (λ made. IsClosed made) }
    ensures size { IfOk result (λ made. calculus.size made ≤ 32 * size q.now) }
{
    whole(alloc, q)
}

// The same, by its definition.
fn whole(alloc: Global, q: &Nra) -> Result<Nnrc, Memory>
    requires { size q.now ≤ 2 ^ 100 }
    ensures { IfOk result (λ made. made ≡ trees.lowered q.now) }
{
    let body = part_of(alloc, q, 0, 1, 2)?;
    let env = Boxed::of(alloc, Nnrc::Const(Datum::Rec(Fields::new(alloc))))?;
    let body = Boxed::of(alloc, Nnrc::Let(1, env, body))?;
    let input = Boxed::of(alloc, Nnrc::Const(Datum::Unit))?;
    Ok(Nnrc::Let(0, input, body))
}

// The tree for one, where `i` and `e` hold its input and its environment, and `n` and above are free to use.
#[cycle(lowering)]
fn tree_of(alloc: Global, q: &Nra, i: u128, e: u128, n: u128) -> Result<Nnrc, Memory>
    requires { n + 4 * size q.now < 2 ^ 128 }
    ensures { IfOk result (λ made. made ≡ trees.lower q.now i e n) }
{
    match q {
        Nra::Const(d) => Ok(Nnrc::Const(copy(alloc, d)?)),
        Nra::Input => Ok(Nnrc::Var(i)),
        Nra::Env => Ok(Nnrc::Var(e)),
        Nra::Global(name) => global(alloc, name),
        Nra::Unary(op, a) => {
            let a = part_of(alloc, a.get(), i, e, n)?;
            of_one(alloc, op, a)
        }
        Nra::Binary(op, a, b) => {
            let a = part_of(alloc, a.get(), i, e, n)?;
            of_two(alloc, b.get(), i, e, n, *op, a)
        }
        Nra::Comp(a, b) => {
            let b = part_of(alloc, b.get(), i, e, n)?;
            let_with(alloc, a.get(), n, e, n, b)
        }
        Nra::Map(a, b) => {
            let b = part_of(alloc, b.get(), i, e, n)?;
            for_with(alloc, a.get(), n, e, n, b)
        }
        Nra::Select(a, b) => {
            let b = part_of(alloc, b.get(), i, e, n)?;
            select_with(alloc, a.get(), e, n, b)
        }
        Nra::Product(a, b) => {
            let a = part_of(alloc, a.get(), i, e, n)?;
            product_with(alloc, b.get(), i, e, n, a)
        }
        Nra::DepJoin(a, b) => {
            let b = part_of(alloc, b.get(), i, e, n)?;
            join_with(alloc, a.get(), e, n, b)
        }
        Nra::Default(a, b) => {
            let a = part_of(alloc, a.get(), i, e, n)?;
            default_with(alloc, b.get(), i, e, n, a)
        }
        Nra::EnvComp(a, b) => {
            let b = part_of(alloc, b.get(), i, e, n)?;
            let_with(alloc, a.get(), i, n, n, b)
        }
        Nra::MapEnv(a) => {
            let env = variable(alloc, e)?;
            for_with(alloc, a.get(), i, n, n, env)
        }
        Nra::Either(a, b) => {
            let a = part_of(alloc, a.get(), n, e, n + 1)?;
            either_with(alloc, b.get(), i, e, n, a)
        }
        Nra::If(a, b, c) => {
            let a = part_of(alloc, a.get(), i, e, n)?;
            let b = part_of(alloc, b.get(), i, e, n)?;
            if_with(alloc, c.get(), i, e, n, a, b)
        }
    }
}

// The same in a box. While others are made, trees are held in boxes.
#[cycle(lowering)]
fn part_of(alloc: Global, q: &Nra, i: u128, e: u128, n: u128) -> Result<Boxed<Nnrc>, Memory>
    requires { n + 4 * size q.now < 2 ^ 128 }
    ensures { IfOk result (λ made. made ≡ trees.lower q.now i e n) }
{
    let tree = tree_of(alloc, q, i, e, n)?;
    Boxed::of(alloc, tree)
}

// An operator on two trees, of which one is made.
#[cycle(lowering)]
fn of_two(
    alloc: Global,
    b: &Nra,
    i: u128,
    e: u128,
    n: u128,
    op: Binary,
    a: Boxed<Nnrc>,
) -> Result<Nnrc, Memory>
    requires { n + 4 * size b.now < 2 ^ 128 }
    ensures { IfOk result (λ made. made ≡ to.Binary op a (trees.lower b.now i e n)) }
{
    let b = part_of(alloc, b, i, e, n)?;
    Ok(Nnrc::Binary(op, a, b))
}

// A part under a binder of `n`.
#[cycle(lowering)]
fn under(alloc: Global, a: &Nra, i: u128, e: u128, n: u128) -> Result<Boxed<Nnrc>, Memory>
    requires { n + 1 + 4 * size a.now < 2 ^ 128 }
    ensures { IfOk result (λ made. made ≡ trees.lower a.now i e (n + 1)) }
{
    part_of(alloc, a, i, e, n + 1)
}

// A part with the value of a tree that is made as `n`.
#[cycle(lowering)]
fn let_with(
    alloc: Global,
    a: &Nra,
    i: u128,
    e: u128,
    n: u128,
    b: Boxed<Nnrc>,
) -> Result<Nnrc, Memory>
    requires { n + 1 + 4 * size a.now < 2 ^ 128 }
    ensures { IfOk result (λ made. made ≡ to.Let n b (trees.lower a.now i e (n + 1))) }
{
    let a = under(alloc, a, i, e, n)?;
    Ok(Nnrc::Let(n, b, a))
}

// A part with each member of a tree that is made as `n`.
#[cycle(lowering)]
fn for_with(
    alloc: Global,
    a: &Nra,
    i: u128,
    e: u128,
    n: u128,
    b: Boxed<Nnrc>,
) -> Result<Nnrc, Memory>
    requires { n + 1 + 4 * size a.now < 2 ^ 128 }
    ensures { IfOk result (λ made. made ≡ to.For n b (trees.lower a.now i e (n + 1))) }
{
    let a = under(alloc, a, i, e, n)?;
    Ok(Nnrc::For(n, b, a))
}

// The members of a tree that is made on which a part is true.
#[cycle(lowering)]
fn select_with(alloc: Global, a: &Nra, e: u128, n: u128, b: Boxed<Nnrc>) -> Result<Nnrc, Memory>
    requires { n + 1 + 4 * size a.now < 2 ^ 128 }
    ensures { IfOk result (λ made. made
        ≡ to.Unary one.Flatten (to.For n b (trees.tested n (trees.lower a.now n e (n + 1))))) }
{
    let a = under(alloc, a, n, e, n)?;
    selected(alloc, n, b, a)
}

// Each pair of members of a tree that is made and of a part.
#[cycle(lowering)]
fn product_with(
    alloc: Global,
    b: &Nra,
    i: u128,
    e: u128,
    n: u128,
    a: Boxed<Nnrc>,
) -> Result<Nnrc, Memory>
    requires { n + 4 + 4 * size b.now < 2 ^ 128 }
    ensures { IfOk result (λ made. made
        ≡ to.Let n a (to.Let (n + 1) (trees.lower b.now i e (n + 1)) (trees.paired n))) }
{
    let b = under(alloc, b, i, e, n)?;
    product(alloc, n, a, b)
}

// Each record of a tree that is made with the members of a part.
#[cycle(lowering)]
fn join_with(alloc: Global, a: &Nra, e: u128, n: u128, b: Boxed<Nnrc>) -> Result<Nnrc, Memory>
    requires { n + 1 + 4 * size a.now < 2 ^ 128 }
    ensures { IfOk result (λ made. made
        ≡ to.Unary one.Flatten (to.For n b (trees.beside n (trees.lower a.now n e (n + 1))))) }
{
    let a = under(alloc, a, n, e, n)?;
    joined(alloc, n, b, a)
}

// The members of a tree that is made, or else those of a part.
#[cycle(lowering)]
fn default_with(
    alloc: Global,
    b: &Nra,
    i: u128,
    e: u128,
    n: u128,
    a: Boxed<Nnrc>,
) -> Result<Nnrc, Memory>
    requires { n + 1 + 4 * size b.now < 2 ^ 128 }
    ensures { IfOk result (λ made. made ≡ to.Let n a (trees.or_else n (trees.lower b.now i e (n + 1)))) }
{
    let b = under(alloc, b, i, e, n)?;
    defaulted(alloc, n, a, b)
}

// The tree that is made for a left input, and a part for a right one.
#[cycle(lowering)]
fn either_with(
    alloc: Global,
    b: &Nra,
    i: u128,
    e: u128,
    n: u128,
    a: Boxed<Nnrc>,
) -> Result<Nnrc, Memory>
    requires { n + 1 + 4 * size b.now < 2 ^ 128 }
    ensures { IfOk result (λ made. made ≡ to.Either (to.Var i) n a n (trees.lower b.now n e (n + 1))) }
{
    let b = under(alloc, b, n, e, n)?;
    let side = variable(alloc, i)?;
    Ok(Nnrc::Either(side, n, a, n, b))
}

// A choice whose condition and first branch are made.
#[cycle(lowering)]
fn if_with(
    alloc: Global,
    c: &Nra,
    i: u128,
    e: u128,
    n: u128,
    a: Boxed<Nnrc>,
    b: Boxed<Nnrc>,
) -> Result<Nnrc, Memory>
    requires { n + 4 * size c.now < 2 ^ 128 }
    ensures { IfOk result (λ made. made ≡ to.If a b (trees.lower c.now i e n)) }
{
    let c = part_of(alloc, c, i, e, n)?;
    Ok(Nnrc::If(a, b, c))
}

// A global.
fn global(alloc: Global, name: &Name) -> Result<Nnrc, Memory>
    ensures { IfOk result (λ made. made ≡ to.Global name.now) }
{
    Ok(Nnrc::Global(name.copy(alloc)?))
}

// An operator of one operand.
fn of_one(alloc: Global, op: &Unary, a: Boxed<Nnrc>) -> Result<Nnrc, Memory>
    ensures { IfOk result (λ made. made ≡ to.Unary op.now a) }
{
    Ok(Nnrc::Unary(op.copy(alloc)?, a))
}

// The members of what a body gives for each member of a collection.
fn flat_for(alloc: Global, x: u128, a: Boxed<Nnrc>, b: Boxed<Nnrc>) -> Result<Nnrc, Memory>
    ensures { IfOk result (λ made. made ≡ to.Unary one.Flatten (to.For x a b)) }
{
    let all = Boxed::of(alloc, Nnrc::For(x, a, b))?;
    Ok(Nnrc::Unary(Unary::Flatten, all))
}

// A variable.
fn variable(alloc: Global, x: u128) -> Result<Boxed<Nnrc>, Memory>
    ensures { IfOk result (λ made. made ≡ to.Var x) }
{
    Boxed::of(alloc, Nnrc::Var(x))
}

// The empty collection.
fn none(alloc: Global) -> Result<Boxed<Nnrc>, Memory>
    ensures { IfOk result (λ made. made ≡ trees.none) }
{
    Boxed::of(alloc, Nnrc::Const(Datum::Coll(Items::new(alloc))))
}

// The members of a collection on which a test is true.
fn selected(alloc: Global, n: u128, b: Boxed<Nnrc>, test: Boxed<Nnrc>) -> Result<Nnrc, Memory>
    ensures { IfOk result (λ made. made ≡ to.Unary one.Flatten (to.For n b (trees.tested n test))) }
{
    let body = tested(alloc, n, test)?;
    flat_for(alloc, n, b, body)
}

// The member at `n` alone where the test is true.
fn tested(alloc: Global, n: u128, test: Boxed<Nnrc>) -> Result<Boxed<Nnrc>, Memory>
    ensures { IfOk result (λ made. made ≡ trees.tested n test) }
{
    let member = variable(alloc, n)?;
    let one = Boxed::of(alloc, Nnrc::Unary(Unary::Single, member))?;
    let none = none(alloc)?;
    Boxed::of(alloc, Nnrc::If(test, one, none))
}

// Each record of a collection with each of the members.
fn joined(alloc: Global, n: u128, b: Boxed<Nnrc>, members: Boxed<Nnrc>) -> Result<Nnrc, Memory>
    requires { n + 1 < 2 ^ 128 }
    ensures { IfOk result (λ made. made ≡ to.Unary one.Flatten (to.For n b (trees.beside n members))) }
{
    let body = beside(alloc, n, members)?;
    flat_for(alloc, n, b, body)
}

// The record at `n` with each of the members.
fn beside(alloc: Global, n: u128, members: Boxed<Nnrc>) -> Result<Boxed<Nnrc>, Memory>
    requires { n + 1 < 2 ^ 128 }
    ensures { IfOk result (λ made. made ≡ trees.beside n members) }
{
    let first = variable(alloc, n)?;
    let member = variable(alloc, n + 1)?;
    let both = Boxed::of(alloc, Nnrc::Binary(Binary::Cat, first, member))?;
    Boxed::of(alloc, Nnrc::For(n + 1, members, both))
}

// Each pair of members of two collections.
fn product(alloc: Global, n: u128, a: Boxed<Nnrc>, b: Boxed<Nnrc>) -> Result<Nnrc, Memory>
    requires { n + 3 < 2 ^ 128 }
    ensures { IfOk result (λ made. made ≡ to.Let n a (to.Let (n + 1) b (trees.paired n))) }
{
    let pairs = paired(alloc, n)?;
    let body = Boxed::of(alloc, Nnrc::Let(n + 1, b, pairs))?;
    Ok(Nnrc::Let(n, a, body))
}

// Each pair of members of the collections at `n` and behind it.
fn paired(alloc: Global, n: u128) -> Result<Boxed<Nnrc>, Memory>
    requires { n + 3 < 2 ^ 128 }
    ensures { IfOk result (λ made. made ≡ trees.paired n) }
{
    let others = variable(alloc, n + 1)?;
    let body = beside(alloc, n + 2, others)?;
    let members = variable(alloc, n)?;
    let pairs = flat_for(alloc, n + 2, members, body)?;
    Boxed::of(alloc, pairs)
}

// A collection where it has members, or else the other one.
fn defaulted(alloc: Global, n: u128, a: Boxed<Nnrc>, other: Boxed<Nnrc>) -> Result<Nnrc, Memory>
    ensures { IfOk result (λ made. made ≡ to.Let n a (trees.or_else n other)) }
{
    let body = or_else(alloc, n, other)?;
    Ok(Nnrc::Let(n, a, body))
}

// The collection at `n` where it has members, or else the other one.
fn or_else(alloc: Global, n: u128, other: Boxed<Nnrc>) -> Result<Boxed<Nnrc>, Memory>
    ensures { IfOk result (λ made. made ≡ trees.or_else n other) }
{
    let is_empty = is_empty(alloc, n)?;
    let members = variable(alloc, n)?;
    Boxed::of(alloc, Nnrc::If(is_empty, other, members))
}

// Whether the collection at `n` has no member.
fn is_empty(alloc: Global, n: u128) -> Result<Boxed<Nnrc>, Memory>
    ensures { IfOk result (λ made. made ≡ to.Binary two.Eq (to.Var n) trees.none) }
{
    let members = variable(alloc, n)?;
    let none = none(alloc)?;
    Boxed::of(alloc, Nnrc::Binary(Binary::Eq, members, none))
}
