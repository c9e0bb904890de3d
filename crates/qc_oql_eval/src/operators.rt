// How the operators of queries go back to operators on values.
ghost use Rattle.qc_data.specs.Outcome.{bits64, Gives, GivesRef, Value};
ghost use Rattle.qc_data.specs.declared.data.Datum.TheVariants.{Coll};
ghost use Rattle.qc_ops.specs.Records.{field};
ghost use Rattle.qc_ops.specs.Texts.{likeness};
ghost use Rattle.qc_oql_tree.specs.OperatorMeanings.{branded, divided, one_value};
ghost use Rattle.qc_oql_tree.specs.inner.Pairings.{paired};
ghost use Rattle.qc_oql_tree.specs.SelectMeaning.{distinct_if};

use crate::operands::{items_of, name_of};
use qc_containers::Chars;
use qc_data::{Datum, Halt, Items};
use qc_like::like;
use qc_ops::{Binary as OnTwo, Divisor, Unary as OnOne, apply1, apply2};
use qc_oql_tree::{Branding, Division, Pairing, Unary, branding, division, on_one};
use qc_types::Classes;
use std::alloc::Global;

// The value of an operator of one operand.
#[tactic(auto, using(qc_oql_tree::proofs::Pairings::one_is))]
pub(crate) fn one_value(
    alloc: Global,
    classes: &Classes,
    operator: Unary,
    a: &Datum,
) -> Result<Datum, Halt>
    ensures { Gives (one_value bits64 classes.now operator a.now) result }
{
    match on_one(operator) {
        Some(operator) => apply1(alloc, classes, &operator, a),
        None => {
            let items = items_of(a)?;
            Ok(Datum::Bool(items.len() > 0))
        }
    }
}

// The value of an operator on two operands.
pub(crate) fn paired(
    alloc: Global,
    classes: &Classes,
    pairing: Pairing,
    x: &Datum,
    y: &Datum,
) -> Result<Datum, Halt>
    ensures { Gives (paired bits64 pairing x.now y.now) result }
{
    match pairing {
        Pairing::Plain(operator) => apply2(alloc, &operator, x, y),
        Pairing::Exchanged(operator) => apply2(alloc, &operator, y, x),
        Pairing::Unequal => {
            let equal = apply2(alloc, &OnTwo::Eq, x, y)?;
            apply1(alloc, classes, &OnOne::Not, &equal)
        }
    }
}

// A division by a literal, which must not be 0.
pub(crate) fn divided(
    alloc: Global,
    classes: &Classes,
    operator: Division,
    k: i64,
    a: &Datum,
) -> Result<Datum, Halt>
    ensures { Gives (divided bits64 classes.now operator k a.now) result }
{
    match Divisor::of(k) {
        Some(divisor) => apply1(alloc, classes, &division(operator, divisor), a),
        None => Err(Halt::Stuck),
    }
}

// A function of a class, which must be a name.
pub(crate) fn branded(
    alloc: Global,
    classes: &Classes,
    operator: Branding,
    class: &Chars,
    a: &Datum,
) -> Result<Datum, Halt>
    ensures { Gives (branded bits64 classes.now operator class.now a.now) result }
{
    let class = name_of(alloc, class)?;
    apply1(alloc, classes, &branding(operator, class), a)
}

// Whether a text is like the pattern.
pub(crate) fn likeness(pattern: &Chars, a: &Datum) -> Result<Datum, Halt>
    ensures { Gives (likeness pattern.now a.now) result }
{
    match a {
        Datum::Text(text) => Ok(Datum::Bool(like(pattern.as_str(), text.as_str()))),
        _ => Err(Halt::Stuck),
    }
}

// The value of a record at the label.
pub(crate) fn field_at<'a>(label: &Chars, a: &'a Datum) -> Result<&'a Datum, Halt>
    ensures { GivesRef (field label.now a.now) result }
{
    match a {
        Datum::Rec(fields) => match fields.get(label.as_str()) {
            Some(value) => Ok(value),
            None => Err(Halt::Stuck),
        },
        _ => Err(Halt::Stuck),
    }
}

// The members, or with `distinct` the first occurrences.
pub(crate) fn distinct_if(
    alloc: Global,
    classes: &Classes,
    distinct: bool,
    members: Items,
) -> Result<Datum, Halt>
    ensures { Gives (Value (Coll (distinct_if distinct members))) result }
{
    let all = Datum::Coll(members);
    if distinct {
        apply1(alloc, classes, &OnOne::Distinct, &all)
    } else {
        Ok(all)
    }
}
