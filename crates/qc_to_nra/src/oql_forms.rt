// The trees of the algebra for the forms of queries, by the trees for their parts.
ghost use Rattle.std.specs.Prelude.{◌≡◌, codes, [], IfOk, IsTrue};
ghost use Rattle.qc_containers.specs.Name.{is_name};
ghost use Rattle.qc_data.specs.declared.data.Datum.TheVariants.{Bool as Truth, Coll, Rec};
ghost use Rattle.qc_nra.specs.declared.tree.Nra.TheVariants as nra;
ghost use Rattle.qc_ops.specs.declared.op.Binary.TheVariants as two;
ghost use Rattle.qc_ops.specs.declared.op.Unary.TheVariants as one;
ghost use Rattle.qc_oql_nra.specs.OqlForms as forms;

use crate::spelled_names::{name_of, own_name};
use qc_containers::{Boxed, Chars, Memory, Name};
use qc_data::{Datum, Fields, Items};
use qc_nra::Nra;
use qc_ops::{Binary as OnTwo, Keys, Unary as OnOne};
use qc_oql_tree::{Pairing, Quantifier};
use std::alloc::Global;

// The record of one field.
fn one_field(alloc: Global, name: &Chars, value: Boxed<Nra>) -> Result<Boxed<Nra>, Memory>
    requires { IsTrue (is_name name.now) }
    ensures { IfOk result (λ made. made ≡ nra.Unary (one.Rec name.now) value) }
{
    let name = name_of(alloc, name)?;
    Boxed::of(alloc, Nra::Unary(OnOne::Rec(name), value))
}

// The environment with the name bound to a value.
pub(crate) fn binding(alloc: Global, name: &Chars, value: Boxed<Nra>) -> Result<Boxed<Nra>, Memory>
    requires { IsTrue (is_name name.now) }
    ensures { IfOk result (λ made. made ≡ forms.binding name.now value) }
{
    let field = one_field(alloc, name, value)?;
    let env = Boxed::of(alloc, Nra::Env)?;
    Boxed::of(alloc, Nra::Binary(OnTwo::Cat, env, field))
}

// A tree with the name bound to the input.
pub(crate) fn under(alloc: Global, name: &Chars, a: Boxed<Nra>) -> Result<Boxed<Nra>, Memory>
    requires { IsTrue (is_name name.now) }
    ensures { IfOk result (λ made. made ≡ forms.under name.now a) }
{
    let input = Boxed::of(alloc, Nra::Input)?;
    let bound = binding(alloc, name, input)?;
    Boxed::of(alloc, Nra::EnvComp(a, bound))
}

// A tree with a row, which is the input, as its environment.
pub(crate) fn at_row(alloc: Global, a: Boxed<Nra>) -> Result<Boxed<Nra>, Memory>
    ensures { IfOk result (λ made. made ≡ forms.at_row a) }
{
    let row = Boxed::of(alloc, Nra::Input)?;
    Boxed::of(alloc, Nra::EnvComp(a, row))
}

// Whether two values differ.
fn unequal(alloc: Global, a: Boxed<Nra>, b: Boxed<Nra>) -> Result<Nra, Memory>
    ensures { IfOk result (λ made. made ≡ nra.Unary one.Not (nra.Binary two.Eq a b)) }
{
    let equal = Boxed::of(alloc, Nra::Binary(OnTwo::Eq, a, b))?;
    Ok(Nra::Unary(OnOne::Not, equal))
}

// An operator of one operand, where none is `exists`.
pub(crate) fn of_one(alloc: Global, operator: Option<OnOne>, a: Boxed<Nra>) -> Result<Nra, Memory>
    ensures { IfOk result (λ made. made ≡ forms.one_tree operator a) }
{
    match operator {
        Some(operator) => Ok(Nra::Unary(operator, a)),
        None => {
            let none = Boxed::of(alloc, Nra::Const(Datum::Coll(Items::new(alloc))))?;
            unequal(alloc, a, none)
        }
    }
}

// The value on the left, or else another one.
fn left_or(alloc: Global, a: Boxed<Nra>, b: Boxed<Nra>) -> Result<Nra, Memory>
    ensures { IfOk result (λ made. made ≡ nra.Comp (nra.Either nra.Input b) a) }
{
    let content = Boxed::of(alloc, Nra::Input)?;
    let sides = Boxed::of(alloc, Nra::Either(content, b))?;
    Ok(Nra::Comp(sides, a))
}

// An operator of two operands, where no pairing is `orelse`.
pub(crate) fn of_two(
    alloc: Global,
    pairing: Option<Pairing>,
    a: Boxed<Nra>,
    b: Boxed<Nra>,
) -> Result<Nra, Memory>
    ensures { IfOk result (λ made. made ≡ forms.two_tree pairing a b) }
{
    match pairing {
        Some(Pairing::Plain(operator)) => Ok(Nra::Binary(operator, a, b)),
        Some(Pairing::Exchanged(operator)) => Ok(Nra::Binary(operator, b, a)),
        Some(Pairing::Unequal) => unequal(alloc, a, b),
        None => left_or(alloc, a, b),
    }
}

// A field before the record of the later ones.
fn with_field(alloc: Global, label: Name, value: Boxed<Nra>, rest: Nra) -> Result<Nra, Memory>
    ensures { IfOk result (λ made. made ≡ forms.field_before (label, value) rest) }
{
    let rest = Boxed::of(alloc, rest)?;
    let field = Boxed::of(alloc, Nra::Unary(OnOne::Rec(label), value))?;
    Ok(Nra::Binary(OnTwo::Cat, field, rest))
}

// The fields in order before a record, which goes before them where they share a label.
#[tactic(auto, using(crate::proofs::Folding::folded_last))]
fn fields_before(alloc: Global, fields: Vec<(Name, Boxed<Nra>)>, rest: Nra) -> Result<Nra, Memory>
    ensures { IfOk result (λ made. made ≡ forms.folded forms.field_before fields.items rest) }
{
    let mut fields = fields;
    let mut made = rest;
    while let Some((label, value)) = fields.pop() {
        made = with_field(alloc, label, value, made)?;
    }
    Ok(made)
}

// The record of the fields in order, of equal labels the last.
pub(crate) fn record_of(alloc: Global, fields: Vec<(Name, Boxed<Nra>)>) -> Result<Nra, Memory>
    ensures { IfOk result (λ made. made ≡ forms.folded forms.field_before fields.items (nra.Const (Rec []))) }
{
    fields_before(alloc, fields, Nra::Const(Datum::Rec(Fields::new(alloc))))
}

// A member before the collection of the later ones.
fn with_member(alloc: Global, member: Boxed<Nra>, rest: Nra) -> Result<Nra, Memory>
    ensures { IfOk result (λ made. made ≡ forms.member_before member rest) }
{
    let rest = Boxed::of(alloc, rest)?;
    let single = Boxed::of(alloc, Nra::Unary(OnOne::Single, member))?;
    Ok(Nra::Binary(OnTwo::Union, single, rest))
}

// The collection of the members in order.
#[tactic(auto, using(crate::proofs::Folding::folded_last))]
pub(crate) fn bag_of(alloc: Global, members: Vec<Boxed<Nra>>) -> Result<Nra, Memory>
    ensures { IfOk result (λ made. made ≡ forms.folded forms.member_before members.items (nra.Const (Coll []))) }
{
    let mut members = members;
    let mut made = Nra::Const(Datum::Coll(Items::new(alloc)));
    while let Some(member) = members.pop() {
        made = with_member(alloc, member, made)?;
    }
    Ok(made)
}

// A truth value among those of a collection.
fn has(alloc: Global, truth: bool, a: Boxed<Nra>) -> Result<Nra, Memory>
    ensures { IfOk result (λ made. made ≡ nra.Binary two.Member (nra.Const (Truth truth)) a) }
{
    let truth = Boxed::of(alloc, Nra::Const(Datum::Bool(truth)))?;
    Ok(Nra::Binary(OnTwo::Member, truth, a))
}

// Whether some, or each, of a collection of truth values is true.
pub(crate) fn decided(alloc: Global, quantifier: Quantifier, a: Boxed<Nra>) -> Result<Nra, Memory>
    ensures { IfOk result (λ made. made ≡ forms.decided_tree quantifier a) }
{
    match quantifier {
        Quantifier::Exists => has(alloc, true, a),
        Quantifier::ForAll => {
            let some = has(alloc, false, a)?;
            let some = Boxed::of(alloc, some)?;
            Ok(Nra::Unary(OnOne::Not, some))
        }
    }
}

// The records of each member of a source under its name, on a row.
fn member_fields(alloc: Global, name: &Chars, source: Boxed<Nra>) -> Result<Boxed<Nra>, Memory>
    requires { IsTrue (is_name name.now) }
    ensures { IfOk result
        (λ made. made ≡ nra.Map (nra.Unary (one.Rec name.now) nra.Input) (forms.at_row source)) }
{
    let members = at_row(alloc, source)?;
    let input = Boxed::of(alloc, Nra::Input)?;
    let field = one_field(alloc, name, input)?;
    Boxed::of(alloc, Nra::Map(field, members))
}

// Each row with the name bound to each member of the source.
pub(crate) fn joined(
    alloc: Global,
    name: &Chars,
    source: Boxed<Nra>,
    rows: Boxed<Nra>,
) -> Result<Boxed<Nra>, Memory>
    requires { IsTrue (is_name name.now) }
    ensures { IfOk result (λ made. made ≡ forms.joined_tree (name.now, λ s. source) [] rows) }
{
    let members = member_fields(alloc, name, source)?;
    Boxed::of(alloc, Nra::DepJoin(members, rows))
}

// The row at a name of its own.
fn row_field(alloc: Global) -> Result<Nra, Memory>
    ensures { IfOk result (λ made. made ≡ forms.row_field) }
{
    let name = own_name(alloc, "row")?;
    let row = Boxed::of(alloc, Nra::Input)?;
    Ok(Nra::Unary(OnOne::Rec(name), row))
}

// The rows that stand in a collection at their name.
fn rows_in(alloc: Global, a: Boxed<Nra>) -> Result<Boxed<Nra>, Memory>
    ensures { IfOk result (λ made. made ≡ nra.Map (nra.Unary (one.Dot (codes "row")) nra.Input) a) }
{
    let name = own_name(alloc, "row")?;
    let owner = Boxed::of(alloc, Nra::Input)?;
    let row = Boxed::of(alloc, Nra::Unary(OnOne::Dot(name), owner))?;
    Boxed::of(alloc, Nra::Map(row, a))
}

// The rows, each beside the fields.
fn keyed_rows(
    alloc: Global,
    fields: Vec<(Name, Boxed<Nra>)>,
    rows: Boxed<Nra>,
) -> Result<Boxed<Nra>, Memory>
    ensures { IfOk result (λ made. made
        ≡ nra.Map (forms.folded forms.field_before fields.items forms.row_field) rows) }
{
    let row = row_field(alloc)?;
    let keyed = fields_before(alloc, fields, row)?;
    let keyed = Boxed::of(alloc, keyed)?;
    Boxed::of(alloc, Nra::Map(keyed, rows))
}

// The rows in the order of the fields.
pub(crate) fn sorted_by(
    alloc: Global,
    fields: Vec<(Name, Boxed<Nra>)>,
    names: Keys,
    rows: Boxed<Nra>,
) -> Result<Boxed<Nra>, Memory>
    ensures { IfOk result (λ made. made ≡ forms.sorted_tree fields.items names rows) }
{
    let keyed = keyed_rows(alloc, fields, rows)?;
    let sorted = Boxed::of(alloc, Nra::Unary(OnOne::Order(names), keyed))?;
    rows_in(alloc, sorted)
}

// The first occurrences, if they alone are wanted.
pub(crate) fn distinct_if(alloc: Global, distinct: bool, a: Nra) -> Result<Nra, Memory>
    ensures { IfOk result (λ made. made ≡ forms.distinct_tree distinct a) }
{
    if distinct {
        let a = Boxed::of(alloc, a)?;
        Ok(Nra::Unary(OnOne::Distinct, a))
    } else {
        Ok(a)
    }
}
