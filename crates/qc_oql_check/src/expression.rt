// The types of expressions.
ghost use Rattle.std.specs.Prelude.{◌∷◌, map, option_map};
ghost use Rattle.qc_ops.specs.declared.op.Unary.TheVariants as one;
ghost use Rattle.qc_types.specs.Joins as joining;
ghost use Rattle.qc_types.specs.Types.{sub};
ghost use Rattle.qc_types.specs.declared.ty.Ty.TheVariants as ty;
ghost use Rattle.qc_oql_tree.specs.FormTypings as form;
ghost use Rattle.qc_oql_tree.specs.OperatorTypes.{branded_type, divided_type, field_type, one_type, two_type};
ghost use Rattle.qc_typing.specs.Kinds.{sides_of};
ghost use Rattle.qc_oql_check.specs.inner.Scopes.{ChecksAs, field_types, onto, types_of};
ghost use Rattle.qc_oql_check.specs.inner.Selected.{by_parts};
ghost use Rattle.qc_oql_tree.specs.Typing as typing;
ghost use Rattle.qc_typing.specs.Checking.{and_check, each_checked, need, or_fault, Checks};
ghost use Rattle.qc_typing.specs.Kinds.{when};
ghost use Rattle.qc_typing.specs.Tables.{unary_type};

use crate::faults::{need, or_fault};
use crate::operators::{branded_type, divided_type, field_type, like_type, one_type, two_type};
use crate::parts::{bool_when, constant_type, join_all};
use crate::record::{TypedField, row_of};
use crate::scope::{Row, Scope, name_type};
use qc_containers::{Chars, List, is_name};
use qc_oql_tree::{Binary, Branding, Division, Filter, Key, Named, Oql, Order, Select, Unary};
use qc_types::{Classes, Schema, Ty, Width, copy_ty, join, subtype};
use qc_typing::{TypeFault, bound_by, coll_of, is_atom, sides_of};
use std::alloc::Global;

// The type of an expression.
#[cycle(typing)]
pub(crate) fn type_of(
    alloc: Global,
    schema: &Schema,
    scope: &Scope,
    of: &Oql,
) -> Result<Ty, TypeFault>
    ensures { Checks (typing.oql_type schema.now of.now (types_of scope.now)) result }
{
    match of {
        Oql::Name(at, name) => name_type(alloc, schema, scope, *at, name),
        Oql::Whole(_, _) => Ok(Ty::Int),
        Oql::Text(_, _) => Ok(Ty::Text),
        Oql::Constant(_, constant) => Ok(constant_type(*constant)),
        Oql::Struct(_, fields) => structured(alloc, schema, scope, fields.as_slice()),
        Oql::Bag(at, members) => collected(alloc, schema, scope, *at, members.as_slice()),
        Oql::Unary(at, operator, a) => of_one(alloc, schema, scope, *at, *operator, a.get()),
        Oql::Binary(at, operator, a, b) => {
            let left = type_of(alloc, schema, scope, a.get())?;
            of_right(alloc, schema, scope, b.get(), *at, *operator, &left)
        }
        Oql::Divide(at, division, a, k) => {
            of_division(alloc, schema, scope, *at, *division, a.get(), k)
        }
        Oql::Like(at, a, pattern) => of_like(alloc, schema, scope, *at, a.get(), pattern),
        Oql::Dot(at, a, label) => of_dot(alloc, schema, scope, *at, a.get(), label),
        Oql::Brand(at, branding, class, a) => {
            of_class(alloc, schema, scope, *at, *branding, class, a.get())
        }
        Oql::Match(at, a, left, right) => {
            let made = type_of(alloc, schema, scope, a.get())?;
            let first = left_body(alloc, schema, scope, left.get(), *at, &made)?;
            right_body(alloc, schema, scope, right.get(), *at, &made, &first)
        }
        Oql::If(at, test, yes, no) => {
            let condition = type_of(alloc, schema, scope, test.get())?;
            let first = type_of(alloc, schema, scope, yes.get())?;
            last_branch(alloc, schema, scope, no.get(), *at, &condition, &first)
        }
        Oql::Quantified(at, _, source, test) => {
            let member = source_type(alloc, schema, scope, source.get())?;
            holding(
                alloc,
                schema,
                scope,
                test.get(),
                *at,
                &source.get().name,
                &member,
            )
        }
        Oql::Select(_, select) => selected(alloc, schema, scope, select.get()),
    }
}

// An operator of one operand.
#[cycle(typing)]
fn of_one(
    alloc: Global,
    schema: &Schema,
    scope: &Scope,
    at: u32,
    operator: Unary,
    a: &Oql,
) -> Result<Ty, TypeFault>
    ensures { Checks (form.type_after at (one_type schema.now.classes operator) (typing.oql_type schema.now a.now)
        (types_of scope.now)) result }
{
    let x = type_of(alloc, schema, scope, a)?;
    or_fault(at, one_type(alloc, schema.classes(), operator, &x)?)
}

// An operator of two operands, by the type of the left one.
#[cycle(typing)]
fn of_right(
    alloc: Global,
    schema: &Schema,
    scope: &Scope,
    b: &Oql,
    at: u32,
    operator: Binary,
    left: &Ty,
) -> Result<Ty, TypeFault>
    ensures { Checks (and_check (typing.oql_type schema.now b.now (types_of scope.now))
        (λ right. or_fault at (two_type schema.now.classes operator left.now right))) result }
{
    let right = type_of(alloc, schema, scope, b)?;
    or_fault(
        at,
        two_type(alloc, schema.classes(), operator, left, &right)?,
    )
}

// A division by a literal.
#[cycle(typing)]
fn of_division(
    alloc: Global,
    schema: &Schema,
    scope: &Scope,
    at: u32,
    division: Division,
    a: &Oql,
    k: &i64,
) -> Result<Ty, TypeFault>
    ensures { Checks
        (form.type_after at (divided_type schema.now.classes division k.now) (typing.oql_type schema.now a.now)
        (types_of scope.now)) result }
{
    let x = type_of(alloc, schema, scope, a)?;
    or_fault(at, divided_type(alloc, schema.classes(), division, *k, &x)?)
}

// A text against a pattern.
#[cycle(typing)]
fn of_like(
    alloc: Global,
    schema: &Schema,
    scope: &Scope,
    at: u32,
    a: &Oql,
    pattern: &Chars,
) -> Result<Ty, TypeFault>
    ensures { Checks
        (form.type_after at (unary_type schema.now.classes (one.Like pattern.now)) (typing.oql_type schema.now a.now)
        (types_of scope.now)) result }
{
    let x = type_of(alloc, schema, scope, a)?;
    or_fault(at, like_type(alloc, schema.classes(), pattern, &x)?)
}

// A field of a record.
#[cycle(typing)]
fn of_dot(
    alloc: Global,
    schema: &Schema,
    scope: &Scope,
    at: u32,
    a: &Oql,
    label: &Chars,
) -> Result<Ty, TypeFault>
    ensures { Checks (form.type_after at (field_type schema.now.classes label.now) (typing.oql_type schema.now a.now)
        (types_of scope.now)) result }
{
    let x = type_of(alloc, schema, scope, a)?;
    or_fault(at, field_type(alloc, schema.classes(), label, &x)?)
}

// A function of a class.
#[cycle(typing)]
fn of_class(
    alloc: Global,
    schema: &Schema,
    scope: &Scope,
    at: u32,
    branding: Branding,
    class: &Chars,
    a: &Oql,
) -> Result<Ty, TypeFault>
    ensures { Checks
        (form.type_after at (branded_type schema.now.classes branding class.now) (typing.oql_type schema.now a.now)
        (types_of scope.now)) result }
{
    let x = type_of(alloc, schema, scope, a)?;
    or_fault(
        at,
        branded_type(alloc, schema.classes(), branding, class, &x)?,
    )
}

// The body for left values, by the type of the operand.
#[cycle(typing)]
fn left_body(
    alloc: Global,
    schema: &Schema,
    scope: &Scope,
    body: &Named,
    at: u32,
    made: &Ty,
) -> Result<Ty, TypeFault>
    ensures { Checks (and_check (or_fault at (sides_of made.now))
        (λ sides. (typing.named_type schema.now body.now).of
        (((typing.named_type schema.now body.now).name, sides.0) ∷ types_of scope.now))) result }
{
    match sides_of(made) {
        Some((left, _)) => bound(alloc, schema, scope, body, left),
        None => Err(TypeFault::BadType { at }),
    }
}

// The join with the body for right values, by the types of the operand and of the other body.
#[cycle(typing)]
fn right_body(
    alloc: Global,
    schema: &Schema,
    scope: &Scope,
    body: &Named,
    at: u32,
    made: &Ty,
    first: &Ty,
) -> Result<Ty, TypeFault>
    ensures { Checks (and_check (or_fault at (sides_of made.now))
        (λ sides. and_check
        ((typing.named_type schema.now body.now).of
        (((typing.named_type schema.now body.now).name, sides.1) ∷ types_of scope.now))
        (λ second. or_fault at (joining.join schema.now.classes first.now second)))) result }
{
    let Some((_, right)) = sides_of(made) else {
        return Err(TypeFault::BadType { at });
    };
    let second = bound(alloc, schema, scope, body, right)?;
    or_fault(at, join(alloc, schema.classes(), first, &second)?)
}

// The join with the second branch, by the types of the condition and of the first branch.
#[cycle(typing)]
fn last_branch(
    alloc: Global,
    schema: &Schema,
    scope: &Scope,
    no: &Oql,
    at: u32,
    condition: &Ty,
    first: &Ty,
) -> Result<Ty, TypeFault>
    ensures { Checks (and_check (typing.oql_type schema.now no.now (types_of scope.now))
        (λ second. and_check (need at (sub schema.now.classes condition.now ty.Bool))
        (λ done. or_fault at (joining.join schema.now.classes first.now second)))) result }
{
    let second = type_of(alloc, schema, scope, no)?;
    branches(alloc, schema.classes(), at, condition, first, &second)
}

// The join of the branches, where the condition is a truth value.
fn branches(
    alloc: Global,
    classes: &Classes,
    at: u32,
    condition: &Ty,
    first: &Ty,
    second: &Ty,
) -> Result<Ty, TypeFault>
    ensures { Checks (and_check (need at (sub classes.now condition.now ty.Bool))
        (λ done. or_fault at (joining.join classes.now first.now second.now))) result }
{
    need(at, subtype(classes, condition, &Ty::Bool))?;
    or_fault(at, join(alloc, classes, first, second)?)
}

// An expression beside a name, which must be a name.
#[cycle(typing)]
#[tactic(auto, using(crate::proofs::Forms::named_is))]
pub(crate) fn type_beside(
    alloc: Global,
    schema: &Schema,
    scope: &Scope,
    named: &Named,
) -> Result<Ty, TypeFault>
    ensures { Checks ((typing.named_type schema.now named.now).of (types_of scope.now)) result }
{
    need(named.at, is_name(named.name.as_str()))?;
    type_of(alloc, schema, scope, &named.of)
}

// A body with its name bound.
#[cycle(typing)]
#[tactic(auto, using(crate::proofs::Forms::named_is))]
fn bound(
    alloc: Global,
    schema: &Schema,
    scope: &Scope,
    body: &Named,
    ty: &Ty,
) -> Result<Ty, TypeFault>
    ensures { Checks ((typing.named_type schema.now body.now).of
        (((typing.named_type schema.now body.now).name, ty.now) ∷ types_of scope.now)) result }
{
    type_beside(alloc, schema, &Scope::Bind(&body.name, &*ty, &*scope), body)
}

// What a source binds.
#[cycle(typing)]
#[tactic(auto, using(crate::proofs::Forms::named_is))]
fn source_type(
    alloc: Global,
    schema: &Schema,
    scope: &Scope,
    source: &Named,
) -> Result<Ty, TypeFault>
    ensures { Checks (form.source_type (typing.named_type schema.now source.now) (types_of scope.now)) result }
{
    let made = type_beside(alloc, schema, scope, source)?;
    match bound_by(&made) {
        Some(member) => Ok(copy_ty(alloc, member)?),
        None => Err(TypeFault::BadType { at: source.at }),
    }
}

// A truth value, by a condition with a name bound.
#[cycle(typing)]
fn holding(
    alloc: Global,
    schema: &Schema,
    scope: &Scope,
    test: &Oql,
    at: u32,
    name: &Chars,
    member: &Ty,
) -> Result<Ty, TypeFault>
    ensures { Checks (and_check (typing.oql_type schema.now test.now ((name.now, member.now) ∷ types_of scope.now))
        (λ condition. or_fault at (when (sub schema.now.classes condition ty.Bool) ty.Bool))) result }
{
    let inner = Scope::Bind(&*name, &*member, &*scope);
    let condition = type_of(alloc, schema, &inner, test)?;
    let holds = subtype(schema.classes(), &condition, &Ty::Bool);
    or_fault(at, bool_when(holds))
}

// A collection of the join of its members.
#[cycle(typing)]
fn collected(
    alloc: Global,
    schema: &Schema,
    scope: &Scope,
    at: u32,
    members: &[Oql],
) -> Result<Ty, TypeFault>
    ensures { Checks
        (form.collected_type schema.now.classes at (map (typing.oql_type schema.now) members.now) (types_of scope.now))
        result }
{
    let types = member_types(alloc, schema, scope, members)?;
    match join_all(alloc, schema.classes(), types.as_slice())? {
        Some(member) => Ok(coll_of(alloc, member)?),
        None => Err(TypeFault::BadType { at }),
    }
}

// The types of expressions, in order.
#[cycle(typing)]
#[tactic(auto, using(crate::proofs::Traversals::each_checked_is))]
fn member_types(
    alloc: Global,
    schema: &Schema,
    scope: &Scope,
    members: &[Oql],
) -> Result<List<Ty>, TypeFault>
    ensures { Checks
        (each_checked (λ member. member (types_of scope.now)) (map (typing.oql_type schema.now) members.now)) result }
{
    let mut types = List::new(alloc);
    for member in members {
        types.add(type_of(alloc, schema, scope, member)?)?;
    }
    Ok(types)
}

// The record of exactly the fields.
#[cycle(typing)]
fn structured(
    alloc: Global,
    schema: &Schema,
    scope: &Scope,
    fields: &[Named],
) -> Result<Ty, TypeFault>
    ensures { Checks
        (form.structured_type (map (typing.named_type schema.now) fields.now) (types_of scope.now)) result }
{
    let typed = typed_fields(alloc, schema, scope, fields)?;
    Ok(Ty::Rec(Width::Exact, row_of(alloc, typed.as_slice())?))
}

// The fields with their types.
#[cycle(typing)]
#[tactic(auto, using(crate::proofs::Traversals::each_checked_is, crate::proofs::Forms::named_is))]
fn typed_fields<'a>(
    alloc: Global,
    schema: &Schema,
    scope: &Scope,
    fields: &'a [Named],
) -> Result<Vec<TypedField<'a>>, TypeFault>
    ensures { ChecksAs (λ made. field_types made.items)
        (each_checked (form.typed_field (types_of scope.now)) (map (typing.named_type schema.now) fields.now)) result }
{
    let mut typed = Vec::new(alloc);
    for field in fields {
        let of = type_beside(alloc, schema, scope, field)?;
        let made = TypedField {
            at: field.at,
            label: &field.name,
            of,
        };
        match typed.push(made) {
            Ok(()) => {}
            Err(_) => return Err(TypeFault::Memory),
        }
    }
    Ok(typed)
}

// A collection of the values of a select.
#[cycle(typing)]
fn selected(alloc: Global, schema: &Schema, scope: &Scope, select: &Select) -> Result<Ty, TypeFault>
    ensures { Checks (by_parts schema.now select.now (types_of scope.now)) result }
{
    let row = bound_row(alloc, schema, scope, select.sources.as_slice())?;
    let inner = Scope::Row(row.as_slice(), &*scope);
    filter_checked(alloc, schema, &inner, &select.filter)?;
    order_checked(alloc, schema, &inner, &select.order)?;
    let member = type_of(alloc, schema, &inner, &select.value)?;
    Ok(coll_of(alloc, member)?)
}

// The sources' names with their types, each bound for the later ones.
#[cycle(typing)]
fn bound_row(
    alloc: Global,
    schema: &Schema,
    scope: &Scope,
    sources: &[Named],
) -> Result<Row, TypeFault>
    ensures { ChecksAs (λ row. onto row (types_of scope.now))
        (form.sources_bound (map (typing.named_type schema.now) sources.now) (types_of scope.now)) result }
{
    let mut row = Row::new(alloc);
    for source in sources {
        let inner = Scope::Row(row.as_slice(), &*scope);
        let member = source_type(alloc, schema, &inner, source)?;
        row.add((source.name.copy(alloc)?, member))?;
    }
    Ok(row)
}

// The condition, if there is one.
#[cycle(typing)]
#[tactic(auto, using(crate::proofs::Forms::filter_is))]
fn filter_checked(
    alloc: Global,
    schema: &Schema,
    scope: &Scope,
    filter: &Option<Filter>,
) -> Result<(), TypeFault>
    ensures { Checks (form.filter_checked schema.now.classes (option_map (typing.filter_type schema.now) filter.now)
        (types_of scope.now)) result }
{
    match filter {
        None => Ok(()),
        Some(filter) => {
            let condition = type_of(alloc, schema, scope, &filter.test)?;
            need(filter.at, subtype(schema.classes(), &condition, &Ty::Bool))
        }
    }
}

// The keys, if there are any.
#[cycle(typing)]
#[tactic(auto, using(crate::proofs::Forms::order_is))]
fn order_checked(
    alloc: Global,
    schema: &Schema,
    scope: &Scope,
    order: &Option<Order>,
) -> Result<(), TypeFault>
    ensures { Checks (form.order_checked schema.now.classes (option_map (typing.order_type schema.now) order.now)
        (types_of scope.now)) result }
{
    match order {
        None => Ok(()),
        Some(order) => keys_checked(alloc, schema, scope, order.at, order.keys.as_slice()),
    }
}

// Keys are integers, texts or truth values.
#[cycle(typing)]
#[tactic(auto, using(crate::proofs::Forms::key_is))]
fn keys_checked(
    alloc: Global,
    schema: &Schema,
    scope: &Scope,
    at: u32,
    keys: &[Key],
) -> Result<(), TypeFault>
    ensures { Checks
        (form.keys_checked schema.now.classes at (map (typing.key_type schema.now) keys.now) (types_of scope.now))
        result }
{
    for key in keys {
        let ty = type_of(alloc, schema, scope, &key.of)?;
        need(at, is_atom(schema.classes(), &ty))?;
    }
    Ok(())
}
