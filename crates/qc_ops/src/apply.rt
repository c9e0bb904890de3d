// The operators' values in 64 bits.
ghost use Rattle.std.specs.Prelude.{ℤ};
ghost use Rattle.qc_data.specs.declared.data.Datum.{Datum};
ghost use Rattle.qc_data.specs.Outcome.{any_size, bits64, within, Agrees, Gives};
ghost use Rattle.qc_data.specs.HeldOperands.{datum_of};
ghost use Rattle.qc_ops.specs.Operators.{binary, unary};

use crate::aggregates::{average, count, maximum, minimum, sum};
use crate::bags::{
    bag_of, distinct, equality, except, flattened, intersection, membership, only_member, union,
};
use crate::grouping::grouped;
use crate::numbers::{
    absolute, addition, greater, lesser, multiplication, negative, quotient, remainder, subtraction,
};
use crate::op::{Binary, Unary};
use crate::records::{concatenation, concatenation_taking, field, merger, projection, record_of};
use crate::sides::{cast, class_value, content, on_left, on_right};
use crate::sorting::ordered;
use crate::texts::{joined, likeness};
use crate::truths::{conjunction, disjunction, is_below, is_not_above, negation};
use qc_data::{Datum, Halt, Held};
use qc_types::Classes;
use std::alloc::Global;

/// The operator's value on one operand in 64 bits. `Range`: an integer that it makes has more; `Stuck`: an operand is
/// of another kind than it takes; `Memory`: memory was wanting. On every operand the value at any two bounds agrees
/// with that at any size.
pub fn apply1(alloc: Global, classes: &Classes, op: &Unary, a: &Datum) -> Result<Datum, Halt>
    ensures value { Gives (unary bits64 classes.now op.now a.now) result }
    ensures agrees { (operand : Datum) (low high : ℤ)
        → Agrees (unary any_size classes.now op.now operand) (unary (within low high) classes.now op.now operand) }
{
    unary_value(alloc, classes, op, a)
}

// The value by the operator.
fn unary_value(alloc: Global, classes: &Classes, op: &Unary, a: &Datum) -> Result<Datum, Halt>
    ensures { Gives (unary bits64 classes.now op.now a.now) result }
{
    match op {
        Unary::Not => negation(a),
        Unary::Neg => negative(a),
        Unary::Abs => absolute(a),
        Unary::DivBy(divisor) => quotient(*divisor, a),
        Unary::ModBy(divisor) => remainder(*divisor, a),
        Unary::Count => count(a),
        Unary::Sum => sum(a),
        Unary::Min => minimum(alloc, a),
        Unary::Max => maximum(alloc, a),
        Unary::Avg => average(alloc, a),
        Unary::Element => only_member(alloc, a),
        Unary::Flatten => flattened(alloc, a),
        Unary::Distinct => distinct(alloc, a),
        Unary::Single => bag_of(alloc, a),
        Unary::Rec(name) => record_of(alloc, name, a),
        Unary::Dot(name) => field(alloc, name, a),
        Unary::Project(names) => projection(alloc, names, a),
        Unary::Left => on_left(alloc, a),
        Unary::Right => on_right(alloc, a),
        Unary::Brand(name) => class_value(alloc, name, a),
        Unary::Unbrand => content(alloc, a),
        Unary::Cast(name) => cast(alloc, classes, name, a),
        Unary::Order(keys) => ordered(alloc, keys, a),
        Unary::Group(name, names) => grouped(alloc, name, names, a),
        Unary::Like(pattern) => likeness(pattern, a),
    }
}

/// The operator's value on two operands in 64 bits. `Range`: an integer that it makes has more; `Stuck`: an operand
/// is of another kind than it takes; `Memory`: memory was wanting. On all operands the value at any two bounds agrees
/// with that at any size.
pub fn apply2(alloc: Global, op: &Binary, a: &Datum, b: &Datum) -> Result<Datum, Halt>
    ensures value { Gives (binary bits64 op.now a.now b.now) result }
    ensures agrees { (first second : Datum) (low high : ℤ)
        → Agrees (binary any_size op.now first second) (binary (within low high) op.now first second) }
{
    binary_value(alloc, op, a, b)
}

/// The same value on a second operand that is not needed again: where the operator is `Cat`, a few fields of the first
/// are put in place into a second record that was made.
pub fn apply2_taking(alloc: Global, op: &Binary, a: &Datum, b: Held) -> Result<Datum, Halt>
    ensures { Gives (binary bits64 op.now a.now (datum_of b.entry)) result }
{
    match b {
        Held::Lent(b) => binary_value(alloc, op, a, b),
        Held::Made(b) => match op {
            Binary::Cat => concatenation_taking(alloc, a, b),
            _ => binary_value(alloc, op, a, &b),
        },
    }
}

// The value by the operator.
fn binary_value(alloc: Global, op: &Binary, a: &Datum, b: &Datum) -> Result<Datum, Halt>
    ensures { Gives (binary bits64 op.now a.now b.now) result }
{
    match op {
        Binary::Eq => equality(alloc, a, b),
        Binary::Lt => is_below(a, b),
        Binary::Le => is_not_above(a, b),
        Binary::And => conjunction(a, b),
        Binary::Or => disjunction(a, b),
        Binary::Add => addition(a, b),
        Binary::Sub => subtraction(a, b),
        Binary::Mul => multiplication(a, b),
        Binary::Least => lesser(a, b),
        Binary::Greatest => greater(a, b),
        Binary::Union => union(alloc, a, b),
        Binary::Except => except(alloc, a, b),
        Binary::Intersect => intersection(alloc, a, b),
        Binary::Member => membership(alloc, a, b),
        Binary::Cat => concatenation(alloc, a, b),
        Binary::Merge => merger(alloc, a, b),
        Binary::Glue => joined(alloc, a, b),
    }
}
