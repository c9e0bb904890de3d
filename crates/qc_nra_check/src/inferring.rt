// The types of trees. A form with two parts takes the type of one and hands it on, with the other.
ghost use Rattle.std.specs.Prelude.{◌≡◌, option_and_then, IfOk};
ghost use Rattle.qc_nra_check.specs.FormTypes as forms;
ghost use Rattle.qc_nra_check.specs.Typing.{nra_type, IsSound};
ghost use Rattle.qc_trees.specs.Infers.{Infers};
ghost use Rattle.qc_trees.specs.PartTypes.{chosen_type};
ghost use Rattle.qc_types.specs.Joins as joining;
ghost use Rattle.qc_typing.specs.Tables.{binary_type, unary_type};

use crate::parts::{default_type, product_type};
use qc_containers::Memory;
use qc_nra::Nra;
use qc_ops::{Binary, Unary};
use qc_trees::{NoType, branches, constant_type, global_type, known, member_of};
use qc_types::{Classes, Schema, Ty, copy_ty, join, subtype};
use qc_typing::{coll_of, sides_of, type1, type2};
use std::alloc::Global;

/// The types of what a tree has.
#[derive(Drop)]
pub struct Context {
    /// The type of its input.
    pub input: Ty,
    /// The type of its environment.
    pub env: Ty,
}

/// The type of the tree in a schema and a context, and `None` exactly where a part has none or no rule gives one. In
/// each world of the schema an input and an environment of the context's types give a value of it at any size, and
/// within bounds the same value or Range.
pub fn infer(alloc: Global, schema: &Schema, cx: &Context, q: &Nra) -> Result<Option<Ty>, Memory>
    ensures value { IfOk result (λ t. t ≡ nra_type schema.now q.now cx.now.input cx.now.env) }
    ensures sound { IfOk result (λ t. IsSound schema.now q.now cx.now.input cx.now.env t) }
{
    hand_classes(schema.classes());
    type_in(alloc, q, schema, cx)
}

// Hands to the proof of `sound` what is known of a schema's classes.
fn hand_classes(_classes: &Classes) {}

// The type of a tree in a context, if it has one.
fn type_in(alloc: Global, q: &Nra, schema: &Schema, cx: &Context) -> Result<Option<Ty>, Memory>
    ensures { IfOk result (λ t. t ≡ nra_type schema.now q.now cx.now.input cx.now.env) }
{
    match type_of(alloc, q, schema, &cx.input, &cx.env) {
        Ok(t) => Ok(Some(t)),
        Err(NoType::Untyped) => Ok(None),
        Err(NoType::Memory) => Err(Memory),
    }
}

// The type of a tree.
#[cycle(typing)]
fn type_of(alloc: Global, q: &Nra, schema: &Schema, input: &Ty, env: &Ty) -> Result<Ty, NoType>
    ensures { Infers (nra_type schema.now q.now input.now env.now) result }
{
    match q {
        Nra::Const(d) => constant_type(alloc, schema.classes(), d),
        Nra::Input => Ok(copy_ty(alloc, input)?),
        Nra::Env => Ok(copy_ty(alloc, env)?),
        Nra::Global(name) => global_type(alloc, schema, name),
        Nra::Unary(op, a) => of_one(alloc, a.get(), schema, input, env, op),
        Nra::Binary(op, a, b) => {
            let t = type_of(alloc, a.get(), schema, input, env)?;
            of_right(alloc, b.get(), schema, input, env, op, t)
        }
        Nra::Comp(a, b) => {
            let t = type_of(alloc, b.get(), schema, input, env)?;
            with_input(alloc, a.get(), schema, env, t)
        }
        Nra::Map(a, b) => {
            let t = type_of(alloc, b.get(), schema, input, env)?;
            map_type(alloc, a.get(), schema, env, t)
        }
        Nra::Select(a, b) => {
            let t = type_of(alloc, b.get(), schema, input, env)?;
            select_type(alloc, a.get(), schema, env, t)
        }
        Nra::Product(a, b) => {
            let t = type_of(alloc, a.get(), schema, input, env)?;
            product_with(alloc, b.get(), schema, input, env, t)
        }
        Nra::DepJoin(a, b) => {
            let t = type_of(alloc, b.get(), schema, input, env)?;
            join_type(alloc, a.get(), schema, env, t)
        }
        Nra::Default(a, b) => {
            let t = type_of(alloc, a.get(), schema, input, env)?;
            default_with(alloc, b.get(), schema, input, env, t)
        }
        Nra::EnvComp(a, b) => {
            let t = type_of(alloc, b.get(), schema, input, env)?;
            with_env(alloc, a.get(), schema, input, t)
        }
        Nra::MapEnv(a) => env_map_type(alloc, a.get(), schema, input, env),
        Nra::Either(a, b) => match sides_of(input) {
            Some((left, right)) => {
                let t = type_of(alloc, a.get(), schema, left, env)?;
                join_with(alloc, b.get(), schema, right, env, t)
            }
            None => Err(NoType::Untyped),
        },
        Nra::If(a, b, c) => {
            let t = type_of(alloc, a.get(), schema, input, env)?;
            let x = type_of(alloc, b.get(), schema, input, env)?;
            last_branch(alloc, c.get(), schema, input, env, t, x)
        }
    }
}

// An operator on the type of a tree.
#[cycle(typing)]
fn of_one(
    alloc: Global,
    a: &Nra,
    schema: &Schema,
    input: &Ty,
    env: &Ty,
    op: &Unary,
) -> Result<Ty, NoType>
    ensures { Infers
        (option_and_then (unary_type schema.now.classes op.now) (nra_type schema.now a.now input.now env.now)) result }
{
    let t = type_of(alloc, a, schema, input, env)?;
    known(type1(alloc, schema.classes(), op, &t)?)
}

// An operator on the type of a left operand and that of a tree.
#[cycle(typing)]
fn of_right(
    alloc: Global,
    b: &Nra,
    schema: &Schema,
    input: &Ty,
    env: &Ty,
    op: &Binary,
    t: Ty,
) -> Result<Ty, NoType>
    ensures { Infers
        (option_and_then (binary_type schema.now.classes op.now t) (nra_type schema.now b.now input.now env.now))
        result }
{
    let u = type_of(alloc, b, schema, input, env)?;
    known(type2(alloc, schema.classes(), op, &t, &u)?)
}

// A tree with an input of the type.
#[cycle(typing)]
fn with_input(alloc: Global, a: &Nra, schema: &Schema, env: &Ty, input: Ty) -> Result<Ty, NoType>
    ensures { Infers (nra_type schema.now a.now input env.now) result }
{
    type_of(alloc, a, schema, &input, env)
}

// A tree with an environment of the type.
#[cycle(typing)]
fn with_env(alloc: Global, a: &Nra, schema: &Schema, input: &Ty, env: Ty) -> Result<Ty, NoType>
    ensures { Infers (nra_type schema.now a.now input.now env) result }
{
    type_of(alloc, a, schema, input, &env)
}

// Collections of what a body gives with a member as its input.
#[cycle(typing)]
fn map_type(alloc: Global, body: &Nra, schema: &Schema, env: &Ty, source: Ty) -> Result<Ty, NoType>
    ensures { Infers (forms.map_type (nra_type schema.now body.now) env.now source) result }
{
    let member = member_of(alloc, &source)?;
    let value = type_of(alloc, body, schema, &member, env)?;
    Ok(coll_of(alloc, value)?)
}

// Collections of the same members, where a body is a truth value.
#[cycle(typing)]
fn select_type(
    alloc: Global,
    body: &Nra,
    schema: &Schema,
    env: &Ty,
    source: Ty,
) -> Result<Ty, NoType>
    ensures { Infers (forms.select_type schema.now.classes (nra_type schema.now body.now) env.now source) result }
{
    let member = member_of(alloc, &source)?;
    let value = type_of(alloc, body, schema, &member, env)?;
    if subtype(schema.classes(), &value, &Ty::Bool) {
        Ok(coll_of(alloc, member)?)
    } else {
        Err(NoType::Untyped)
    }
}

// Pairs of members of a collection and of the collection that a tree gives.
#[cycle(typing)]
fn product_with(
    alloc: Global,
    b: &Nra,
    schema: &Schema,
    input: &Ty,
    env: &Ty,
    first: Ty,
) -> Result<Ty, NoType>
    ensures { Infers
        (option_and_then (forms.product_type schema.now.classes first)
        (nra_type schema.now b.now input.now env.now)) result }
{
    let second = type_of(alloc, b, schema, input, env)?;
    product_type(alloc, schema.classes(), &first, &second)
}

// Records of a collection with the members that a body gives for one.
#[cycle(typing)]
fn join_type(alloc: Global, body: &Nra, schema: &Schema, env: &Ty, source: Ty) -> Result<Ty, NoType>
    ensures { Infers (forms.join_type schema.now.classes (nra_type schema.now body.now) env.now source) result }
{
    let member = member_of(alloc, &source)?;
    let value = type_of(alloc, body, schema, &member, env)?;
    product_type(alloc, schema.classes(), &source, &value)
}

// A collection, or else the one that a tree gives.
#[cycle(typing)]
fn default_with(
    alloc: Global,
    b: &Nra,
    schema: &Schema,
    input: &Ty,
    env: &Ty,
    first: Ty,
) -> Result<Ty, NoType>
    ensures { Infers
        (option_and_then (forms.default_type schema.now.classes first)
        (nra_type schema.now b.now input.now env.now)) result }
{
    let second = type_of(alloc, b, schema, input, env)?;
    default_type(alloc, schema.classes(), &first, &second)
}

// Collections of what a body gives with a member of the environment as its environment.
#[cycle(typing)]
fn env_map_type(
    alloc: Global,
    body: &Nra,
    schema: &Schema,
    input: &Ty,
    env: &Ty,
) -> Result<Ty, NoType>
    ensures { Infers (forms.env_map_type (nra_type schema.now body.now) input.now env.now) result }
{
    let member = member_of(alloc, env)?;
    let value = type_of(alloc, body, schema, input, &member)?;
    Ok(coll_of(alloc, value)?)
}

// The join of a type and that of a tree.
#[cycle(typing)]
fn join_with(
    alloc: Global,
    b: &Nra,
    schema: &Schema,
    input: &Ty,
    env: &Ty,
    first: Ty,
) -> Result<Ty, NoType>
    ensures { Infers
        (option_and_then (joining.join schema.now.classes first) (nra_type schema.now b.now input.now env.now))
        result }
{
    let second = type_of(alloc, b, schema, input, env)?;
    known(join(alloc, schema.classes(), &first, &second)?)
}

// The join of a branch and the other one, where the condition is a truth value.
#[cycle(typing)]
fn last_branch(
    alloc: Global,
    other: &Nra,
    schema: &Schema,
    input: &Ty,
    env: &Ty,
    condition: Ty,
    branch: Ty,
) -> Result<Ty, NoType>
    ensures { Infers
        (option_and_then (chosen_type schema.now.classes condition branch)
        (nra_type schema.now other.now input.now env.now)) result }
{
    let last = type_of(alloc, other, schema, input, env)?;
    branches(alloc, schema.classes(), &condition, &branch, &last)
}
