// The types of trees. A form with two parts takes the type of one and hands it on, with the other.
ghost use Rattle.std.specs.Prelude.{◌≡◌, option_and_then, IfOk};
ghost use Rattle.qc_nnrc_check.specs.Typing as spec;
ghost use Rattle.qc_nnrc_check.specs.Typing.{nnrc_type, IsSound};
ghost use Rattle.qc_nnrc.specs.Variables.{look};
ghost use Rattle.qc_nnrc.specs.inner.Chains.{pairs_of};
ghost use Rattle.qc_trees.specs.Infers.{Infers};
ghost use Rattle.qc_trees.specs.PartTypes as parts;
ghost use Rattle.qc_types.specs.Joins as joining;
ghost use Rattle.qc_typing.specs.Tables.{binary_type, unary_type};

use qc_containers::Memory;
use qc_nnrc::{Chain, Nnrc, Scope, binding};
use qc_ops::{Binary, Unary};
use qc_trees::{NoType, branches, constant_type, global_type, known};
use qc_types::{Schema, Ty, copy_ty, join};
use qc_typing::{bound_by, coll_of, sides_of, type1, type2};
use std::alloc::Global;

/// The type of the tree in a schema and a scope, and `None` exactly where a part has none or no rule gives one. In each
/// world of the schema, values of the scope's types give a value of it at any size, and within bounds the same value
/// or Range.
pub fn infer(alloc: Global, schema: &Schema, cx: &Scope, e: &Nnrc) -> Result<Option<Ty>, Memory>
    ensures value { IfOk result (λ t. t ≡ nnrc_type schema.now e.now cx.now) }
    ensures sound { IfOk result (λ t. IsSound schema.now e.now cx.now t) }
{
    schema.classes().hand_good();
    type_in(alloc, e, schema, cx)
}

// The type of a tree in a scope, if it has one.
fn type_in(alloc: Global, e: &Nnrc, schema: &Schema, cx: &Scope) -> Result<Option<Ty>, Memory>
    ensures { IfOk result (λ t. t ≡ nnrc_type schema.now e.now cx.now) }
{
    match type_of(alloc, e, schema, &Chain::Whole(cx)) {
        Ok(t) => Ok(Some(t)),
        Err(NoType::Untyped) => Ok(None),
        Err(NoType::Memory) => Err(Memory),
    }
}

// The type of a tree.
#[cycle(typing)]
fn type_of(alloc: Global, e: &Nnrc, schema: &Schema, chain: &Chain<Ty>) -> Result<Ty, NoType>
    ensures { Infers (nnrc_type schema.now e.now (pairs_of chain.now)) result }
{
    match e {
        Nnrc::Var(x) => variable_type(alloc, chain, *x),
        Nnrc::Const(d) => constant_type(alloc, schema.classes(), d),
        Nnrc::Global(name) => global_type(alloc, schema, name),
        Nnrc::Unary(op, a) => of_one(alloc, a.get(), schema, chain, op),
        Nnrc::Binary(op, a, b) => {
            let t = type_of(alloc, a.get(), schema, chain)?;
            of_right(alloc, b.get(), schema, chain, op, t)
        }
        Nnrc::Let(x, a, b) => {
            let t = type_of(alloc, a.get(), schema, chain)?;
            bound_type(alloc, b.get(), schema, chain, *x, &t)
        }
        Nnrc::For(x, a, b) => {
            let t = type_of(alloc, a.get(), schema, chain)?;
            for_type(alloc, b.get(), schema, chain, *x, t)
        }
        Nnrc::If(a, b, c) => {
            let t = type_of(alloc, a.get(), schema, chain)?;
            let u = type_of(alloc, b.get(), schema, chain)?;
            last_branch(alloc, c.get(), schema, chain, t, u)
        }
        Nnrc::Either(a, x, b, y, c) => {
            let t = type_of(alloc, a.get(), schema, chain)?;
            match sides_of(&t) {
                Some((left, right)) => {
                    let u = bound_type(alloc, b.get(), schema, chain, *x, left)?;
                    join_with(alloc, c.get(), schema, chain, *y, right, u)
                }
                None => Err(NoType::Untyped),
            }
        }
    }
}

// The type of a variable.
fn variable_type(alloc: Global, chain: &Chain<Ty>, x: u128) -> Result<Ty, NoType>
    ensures { Infers (look x (pairs_of chain.now)) result }
{
    match binding(chain, x) {
        Some(t) => Ok(copy_ty(alloc, t)?),
        None => Err(NoType::Untyped),
    }
}

// An operator on the type of a tree.
#[cycle(typing)]
fn of_one(
    alloc: Global,
    a: &Nnrc,
    schema: &Schema,
    chain: &Chain<Ty>,
    op: &Unary,
) -> Result<Ty, NoType>
    ensures { Infers
        (option_and_then (unary_type schema.now.classes op.now) (nnrc_type schema.now a.now (pairs_of chain.now)))
        result }
{
    let t = type_of(alloc, a, schema, chain)?;
    known(type1(alloc, schema.classes(), op, &t)?)
}

// An operator on the type of a left operand and that of a tree.
#[cycle(typing)]
fn of_right(
    alloc: Global,
    b: &Nnrc,
    schema: &Schema,
    chain: &Chain<Ty>,
    op: &Binary,
    t: Ty,
) -> Result<Ty, NoType>
    ensures { Infers
        (option_and_then (binary_type schema.now.classes op.now t) (nnrc_type schema.now b.now (pairs_of chain.now)))
        result }
{
    let u = type_of(alloc, b, schema, chain)?;
    known(type2(alloc, schema.classes(), op, &t, &u)?)
}

// A body with a variable of the type.
#[cycle(typing)]
fn bound_type(
    alloc: Global,
    body: &Nnrc,
    schema: &Schema,
    chain: &Chain<Ty>,
    x: u128,
    t: &Ty,
) -> Result<Ty, NoType>
    ensures { Infers (spec.bound_type x (nnrc_type schema.now body.now) (pairs_of chain.now) t.now) result }
{
    type_of(alloc, body, schema, &Chain::Bind(x, &*t, &*chain))
}

// Collections of what a body gives with a member as its variable.
#[cycle(typing)]
fn for_type(
    alloc: Global,
    body: &Nnrc,
    schema: &Schema,
    chain: &Chain<Ty>,
    x: u128,
    source: Ty,
) -> Result<Ty, NoType>
    ensures { Infers (spec.for_type x (nnrc_type schema.now body.now) (pairs_of chain.now) source) result }
{
    match bound_by(&source) {
        Some(member) => {
            let value = bound_type(alloc, body, schema, chain, x, member)?;
            Ok(coll_of(alloc, value)?)
        }
        None => Err(NoType::Untyped),
    }
}

// The join of a type and that of a body with a variable of a type.
#[cycle(typing)]
fn join_with(
    alloc: Global,
    body: &Nnrc,
    schema: &Schema,
    chain: &Chain<Ty>,
    x: u128,
    t: &Ty,
    first: Ty,
) -> Result<Ty, NoType>
    ensures { Infers
        (option_and_then (joining.join schema.now.classes first)
        (spec.bound_type x (nnrc_type schema.now body.now) (pairs_of chain.now) t.now)) result }
{
    let second = bound_type(alloc, body, schema, chain, x, t)?;
    known(join(alloc, schema.classes(), &first, &second)?)
}

// The join of a branch and the other one, where the condition is a truth value.
#[cycle(typing)]
fn last_branch(
    alloc: Global,
    other: &Nnrc,
    schema: &Schema,
    chain: &Chain<Ty>,
    condition: Ty,
    branch: Ty,
) -> Result<Ty, NoType>
    ensures { Infers
        (option_and_then (parts.chosen_type schema.now.classes condition branch)
        (nnrc_type schema.now other.now (pairs_of chain.now))) result }
{
    let last = type_of(alloc, other, schema, chain)?;
    branches(alloc, schema.classes(), &condition, &branch, &last)
}
