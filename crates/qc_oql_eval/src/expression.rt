// The outcome of expressions in 64 bits.
ghost use Rattle.std.specs.Prelude.{◌≡◌, map};
ghost use Rattle.qc_data.specs.Outcome.{and_then, bits64, Gives};
ghost use Rattle.qc_ops.specs.Records.{field};
ghost use Rattle.qc_ops.specs.Texts.{likeness};
ghost use Rattle.qc_oql_eval.specs.inner.Scopes.{bindings_of};
ghost use Rattle.qc_oql_tree.specs.FormMeanings as form;
ghost use Rattle.qc_data.specs.HeldOperands.{GivesHeld};
ghost use Rattle.qc_oql_tree.specs.Meaning as meaning;
ghost use Rattle.qc_oql_tree.specs.OperatorMeanings.{after, branded, divided, one_value, or_else_of};
ghost use Rattle.qc_oql_tree.specs.inner.Pairings.{paired};

use crate::keeping::kept_rows;
use crate::operands::{bool_of, name_of};
use crate::operators::{branded, divided, field_at, likeness, one_value, paired};
use crate::quantifying::tested;
use crate::record::record_of;
use crate::scope::{Scope, value_of};
use crate::selecting::selected;
use qc_containers::Chars;
use qc_data::{Datum, Halt, Held, Items, copy};
use qc_oql_tree::{Branding, Constant, Division, Named, Oql, Pairing, Unary, pairing_of};
use qc_types::World;
use std::alloc::Global;

// The outcome of an expression.
#[cycle(eval)]
#[tactic(auto, using(qc_oql_tree::proofs::Pairings::two_is))]
pub(crate) fn outcome(alloc: Global, world: &World, scope: &Scope, of: &Oql) -> Result<Datum, Halt>
    ensures { Gives (meaning.oql bits64 world.now of.now (bindings_of scope.now)) result }
{
    match of {
        Oql::Name(_, name) => Ok(copy(alloc, value_of(world, scope, name)?)?),
        Oql::Whole(_, n) => Ok(Datum::Int(*n)),
        Oql::Text(_, text) => Ok(Datum::Text(text.copy(alloc)?)),
        Oql::Constant(_, constant) => Ok(constant_of(*constant)),
        Oql::Struct(_, fields) => structured(alloc, world, scope, fields.as_slice()),
        Oql::Bag(_, members) => collected(alloc, world, scope, members.as_slice()),
        Oql::Unary(_, operator, a) => of_one(alloc, world, scope, *operator, a.get()),
        Oql::Binary(_, operator, a, b) => {
            let left = outcome(alloc, world, scope, a.get())?;
            match pairing_of(*operator) {
                Some(pairing) => with_left(alloc, world, scope, pairing, b.get(), &left),
                None => or_else(alloc, world, scope, b.get(), &left),
            }
        }
        Oql::Divide(_, division, a, k) => of_division(alloc, world, scope, *division, a.get(), *k),
        Oql::Like(_, a, pattern) => of_like(alloc, world, scope, a.get(), pattern),
        Oql::Dot(_, a, label) => of_dot(alloc, world, scope, a.get(), label),
        Oql::Brand(_, branding, class, a) => {
            of_class(alloc, world, scope, *branding, class, a.get())
        }
        Oql::Match(_, a, left, right) => match outcome(alloc, world, scope, a.get())? {
            Datum::Left(content) => bound(alloc, world, scope, left.get(), content.get()),
            Datum::Right(content) => bound(alloc, world, scope, right.get(), content.get()),
            _ => Err(Halt::Stuck),
        },
        Oql::If(_, test, yes, no) => {
            if truth(alloc, world, scope, test.get())? {
                outcome(alloc, world, scope, yes.get())
            } else {
                outcome(alloc, world, scope, no.get())
            }
        }
        Oql::Quantified(_, quantifier, source, test) => {
            let source = source.get();
            let members = operand(alloc, &*world, &*scope, &source.of)?;
            tested(
                alloc,
                world,
                scope,
                test.get(),
                *quantifier,
                &source.name,
                members.get(),
            )
        }
        Oql::Select(_, select) => {
            let select = select.get();
            let kept = kept_rows(alloc, world, scope, select)?;
            selected(alloc, world, scope, select, kept)
        }
    }
}

// `true`, `false` or `nil`.
fn constant_of(constant: Constant) -> Datum
    ensures { result ≡ form.constant constant }
{
    match constant {
        Constant::True => Datum::Bool(true),
        Constant::False => Datum::Bool(false),
        Constant::Nil => Datum::Unit,
    }
}

// The outcome of an operand, which is lent where it is a name, or a path from one.
#[cycle(eval)]
pub(crate) fn operand<'a>(
    alloc: Global,
    world: &'a World,
    scope: &'a Scope<'a>,
    of: &Oql,
) -> Result<Held<'a>, Halt>
    ensures { GivesHeld (meaning.oql bits64 world.now of.now (bindings_of scope.now)) result }
{
    match of {
        Oql::Name(_, name) => Ok(Held::Lent(value_of(world, scope, name)?)),
        Oql::Dot(_, a, label) => match operand(alloc, world, scope, a.get())? {
            Held::Lent(owner) => Ok(Held::Lent(field_at(label, owner)?)),
            Held::Made(owner) => Ok(Held::Made(copy(alloc, field_at(label, &owner)?)?)),
        },
        _ => Ok(Held::Made(outcome(alloc, &*world, &*scope, of)?)),
    }
}

// The record of the fields.
#[cycle(eval)]
#[tactic(auto, using(qc_data::proofs::Outcomes::gather_is, qc_oql_tree::proofs::MeaningForms::named_is))]
fn structured(alloc: Global, world: &World, scope: &Scope, fields: &[Named]) -> Result<Datum, Halt>
    ensures { Gives (form.structured (map (meaning.named bits64 world.now) fields.now) (bindings_of scope.now)) result }
{
    let mut pairs = Vec::new(alloc);
    for field in fields {
        let name = name_of(alloc, &field.name)?;
        let value = outcome(alloc, world, scope, &field.of)?;
        match pairs.push((name, value)) {
            Ok(()) => {}
            Err(_) => return Err(Halt::Memory),
        }
    }
    Ok(Datum::Rec(record_of(alloc, pairs)?))
}

// The members in order.
#[cycle(eval)]
#[tactic(auto, using(qc_data::proofs::Outcomes::gather_is))]
fn collected(alloc: Global, world: &World, scope: &Scope, members: &[Oql]) -> Result<Datum, Halt>
    ensures { Gives (form.collected (map (meaning.oql bits64 world.now) members.now) (bindings_of scope.now)) result }
{
    let mut items = Items::new(alloc);
    for member in members {
        items.add(outcome(alloc, world, scope, member)?)?;
    }
    Ok(Datum::Coll(items))
}

// An operator of one operand.
#[cycle(eval)]
fn of_one(
    alloc: Global,
    world: &World,
    scope: &Scope,
    operator: Unary,
    a: &Oql,
) -> Result<Datum, Halt>
    ensures { Gives (after (one_value bits64 world.now.classes operator) (meaning.oql bits64 world.now a.now)
        (bindings_of scope.now)) result }
{
    let x = operand(alloc, &*world, &*scope, a)?;
    one_value(alloc, world.classes(), operator, x.get())
}

// The value of an operator on a left operand's value and the right operand.
#[cycle(eval)]
fn with_left(
    alloc: Global,
    world: &World,
    scope: &Scope,
    pairing: Pairing,
    right: &Oql,
    left: &Datum,
) -> Result<Datum, Halt>
    ensures { Gives (and_then (meaning.oql bits64 world.now right.now (bindings_of scope.now))
        (λ y. paired bits64 pairing left.now y)) result }
{
    let right = operand(alloc, &*world, &*scope, right)?;
    paired(alloc, world.classes(), pairing, left, right.get())
}

// The content of a left value, or else the value of the other operand.
#[cycle(eval)]
fn or_else(
    alloc: Global,
    world: &World,
    scope: &Scope,
    other: &Oql,
    first: &Datum,
) -> Result<Datum, Halt>
    ensures { Gives (or_else_of (meaning.oql bits64 world.now other.now) (bindings_of scope.now) first.now) result }
{
    match first {
        Datum::Left(content) => Ok(copy(alloc, content.get())?),
        Datum::Right(_) => outcome(alloc, world, scope, other),
        _ => Err(Halt::Stuck),
    }
}

// A division by a literal.
#[cycle(eval)]
fn of_division(
    alloc: Global,
    world: &World,
    scope: &Scope,
    division: Division,
    a: &Oql,
    k: i64,
) -> Result<Datum, Halt>
    ensures { Gives (after (divided bits64 world.now.classes division k) (meaning.oql bits64 world.now a.now)
        (bindings_of scope.now)) result }
{
    let x = operand(alloc, &*world, &*scope, a)?;
    divided(alloc, world.classes(), division, k, x.get())
}

// A text against a pattern.
#[cycle(eval)]
fn of_like(
    alloc: Global,
    world: &World,
    scope: &Scope,
    a: &Oql,
    pattern: &Chars,
) -> Result<Datum, Halt>
    ensures { Gives (after (likeness pattern.now) (meaning.oql bits64 world.now a.now) (bindings_of scope.now)) result }
{
    let x = operand(alloc, &*world, &*scope, a)?;
    likeness(pattern, x.get())
}

// A record's value at a label.
#[cycle(eval)]
fn of_dot(
    alloc: Global,
    world: &World,
    scope: &Scope,
    a: &Oql,
    label: &Chars,
) -> Result<Datum, Halt>
    ensures { Gives (after (field label.now) (meaning.oql bits64 world.now a.now) (bindings_of scope.now)) result }
{
    let x = operand(alloc, &*world, &*scope, a)?;
    Ok(copy(alloc, field_at(label, x.get())?)?)
}

// A function of a class.
#[cycle(eval)]
fn of_class(
    alloc: Global,
    world: &World,
    scope: &Scope,
    branding: Branding,
    class: &Chars,
    a: &Oql,
) -> Result<Datum, Halt>
    ensures { Gives (after (branded bits64 world.now.classes branding class.now) (meaning.oql bits64 world.now a.now)
        (bindings_of scope.now)) result }
{
    let x = operand(alloc, &*world, &*scope, a)?;
    branded(alloc, world.classes(), branding, class, x.get())
}

// A body with its name bound.
#[cycle(eval)]
#[tactic(auto, using(qc_oql_tree::proofs::MeaningForms::named_is))]
fn bound(
    alloc: Global,
    world: &World,
    scope: &Scope,
    body: &Named,
    value: &Datum,
) -> Result<Datum, Halt>
    ensures { Gives (form.bound (meaning.named bits64 world.now body.now) (bindings_of scope.now) value.now) result }
{
    outcome(
        alloc,
        world,
        &Scope::Bind(&body.name, &*value, &*scope),
        &body.of,
    )
}

// The truth value of a condition.
#[cycle(eval)]
#[tactic(auto, unfolding(qc_oql_tree::specs::FormMeanings::truth))]
pub(crate) fn truth(alloc: Global, world: &World, scope: &Scope, test: &Oql) -> Result<bool, Halt>
    ensures { Gives (form.truth (meaning.oql bits64 world.now test.now) (bindings_of scope.now)) result }
{
    let x = operand(alloc, &*world, &*scope, test)?;
    bool_of(x.get())
}
