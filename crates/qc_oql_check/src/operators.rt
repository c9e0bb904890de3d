// The types that the operators of queries give.
ghost use Rattle.std.specs.Prelude.{◌≡◌, Some, None, cond, IfOk};
ghost use Rattle.qc_containers.specs.Name.{is_name};
ghost use Rattle.qc_ops.specs.declared.op.Unary.TheVariants as one;
ghost use Rattle.qc_typing.specs.Tables.{unary_type};
ghost use Rattle.qc_oql_tree.specs.OperatorTypes.{branded_type, divided_type, field_type, one_type, two_type};

use qc_containers::{Chars, Memory, Name, NameFault};
use qc_ops::{Binary as OnTwo, Divisor, Unary as OnOne};
use qc_oql_tree::{Binary, Branding, Division, Pairing, Unary, on_one, pairing_of};
use qc_types::{Classes, Ty, join};
use qc_typing::{bound_by, sides_of, type1, type2};
use std::alloc::Global;

// An operator of one operand.
#[tactic(auto, using(qc_oql_tree::proofs::Pairings::one_type_is))]
pub(crate) fn one_type(
    alloc: Global,
    classes: &Classes,
    operator: Unary,
    a: &Ty,
) -> Result<Option<Ty>, Memory>
    ensures { IfOk result (λ made. made ≡ one_type classes.now operator a.now) }
{
    match on_one(operator) {
        Some(operator) => type1(alloc, classes, &operator, a),
        None => Ok(bound_by(a).map(|_| Ty::Bool)),
    }
}

// An operator of two operands.
#[tactic(auto, using(qc_oql_tree::proofs::Pairings::two_type_is))]
pub(crate) fn two_type(
    alloc: Global,
    classes: &Classes,
    operator: Binary,
    a: &Ty,
    b: &Ty,
) -> Result<Option<Ty>, Memory>
    ensures { IfOk result (λ made. made ≡ two_type classes.now operator a.now b.now) }
{
    match pairing_of(operator) {
        Some(Pairing::Plain(operator)) => type2(alloc, classes, &operator, a, b),
        Some(Pairing::Exchanged(operator)) => type2(alloc, classes, &operator, b, a),
        Some(Pairing::Unequal) => match type2(alloc, classes, &OnTwo::Eq, a, b)? {
            Some(equal) => type1(alloc, classes, &OnOne::Not, &equal),
            None => Ok(None),
        },
        None => match sides_of(a) {
            Some((left, _)) => join(alloc, classes, left, b),
            None => Ok(None),
        },
    }
}

// A division by a literal, which must not be 0.
pub(crate) fn divided_type(
    alloc: Global,
    classes: &Classes,
    division: Division,
    k: i64,
    a: &Ty,
) -> Result<Option<Ty>, Memory>
    ensures { IfOk result (λ made. made ≡ divided_type classes.now division k a.now) }
{
    let Some(divisor) = Divisor::of(k) else {
        return Ok(None);
    };
    match division {
        Division::DivBy => type1(alloc, classes, &OnOne::DivBy(divisor), a),
        Division::ModBy => type1(alloc, classes, &OnOne::ModBy(divisor), a),
    }
}

// A text against a pattern.
pub(crate) fn like_type(
    alloc: Global,
    classes: &Classes,
    pattern: &Chars,
    a: &Ty,
) -> Result<Option<Ty>, Memory>
    ensures { IfOk result (λ made. made ≡ unary_type classes.now (one.Like pattern.now) a.now) }
{
    type1(alloc, classes, &OnOne::Like(pattern.copy(alloc)?), a)
}

// A field, whose label must be a name.
pub(crate) fn field_type(
    alloc: Global,
    classes: &Classes,
    label: &Chars,
    a: &Ty,
) -> Result<Option<Ty>, Memory>
    ensures { IfOk result (λ made. made ≡ field_type classes.now label.now a.now) }
{
    match name_of(alloc, label)? {
        Some(label) => type1(alloc, classes, &OnOne::Dot(label), a),
        None => Ok(None),
    }
}

// A function of a class, which must be a name.
pub(crate) fn branded_type(
    alloc: Global,
    classes: &Classes,
    branding: Branding,
    class: &Chars,
    a: &Ty,
) -> Result<Option<Ty>, Memory>
    ensures { IfOk result (λ made. made ≡ branded_type classes.now branding class.now a.now) }
{
    let Some(class) = name_of(alloc, class)? else {
        return Ok(None);
    };
    match branding {
        Branding::Cast => type1(alloc, classes, &OnOne::Cast(class), a),
        Branding::Brand => type1(alloc, classes, &OnOne::Brand(class), a),
    }
}

// The name that the text is, if it is one.
pub(crate) fn name_of(alloc: Global, text: &Chars) -> Result<Option<Name>, Memory>
    ensures { IfOk result (λ made. made ≡ cond (is_name text.now) (Some text.now) None) }
{
    match Name::of(alloc, text.as_str()) {
        Ok(name) => Ok(Some(name)),
        Err(NameFault::BadName) => Ok(None),
        Err(NameFault::Memory) => Err(Memory),
    }
}
