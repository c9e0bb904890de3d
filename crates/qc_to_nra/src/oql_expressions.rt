// The trees of the algebra for expressions. The scope has the names that the environment has as its fields.
ghost use Rattle.std.specs.Prelude.{◌≡◌, map, option_map, IfOk, IsTrue};
ghost use Rattle.qc_containers.specs.Name.{is_name};
ghost use Rattle.qc_data.specs.Facts.{all_true};
ghost use Rattle.qc_nra.specs.declared.tree.Nra.TheVariants as nra;
ghost use Rattle.qc_oql_tree.specs.FormMeanings as meanings;
ghost use Rattle.qc_oql_tree.specs.OperatorMeanings.{branding, division, is_divisor};
ghost use Rattle.qc_oql_tree.specs.inner.Pairings.{on_one, pairing_of};
ghost use Rattle.qc_ops.specs.declared.op.Unary.TheVariants as one;
ghost use Rattle.qc_oql_nra.specs.HasNames.{filter_has_names, has_names, key_has_names, named_has_names};
ghost use Rattle.qc_oql_nra.specs.HasNames.{order_has_names, part_names, select_has_names};
ghost use Rattle.qc_oql_nra.specs.OqlForms as forms;
ghost use Rattle.qc_oql_nra.specs.OqlTrees as trees;
ghost use Rattle.qc_to_nra.specs.inner.Scopes.{names_of};

use crate::key_names::{names_of_keys, numeral};
use crate::oql_forms::{
    at_row, bag_of, decided, distinct_if, joined, of_one, of_two, record_of, sorted_by, under,
};
use crate::scope::{Scope, is_bound};
use crate::spelled_names::name_of;
use qc_containers::{Boxed, Chars, Memory, Name};
use qc_data::Datum;
use qc_nra::Nra;
use qc_ops::{Divisor, Unary as OnOne};
use qc_oql_tree::{
    Binary, Branding, Constant, Division, Filter, Key, Named, Oql, Order, Quantifier, Select,
    Unary, branding, division, on_one, pairing_of,
};
use std::alloc::Global;

// An expression.
#[cycle(lowering)]
#[tactic(auto, using(qc_oql_nra::proofs::NameForms::by_names, qc_oql_nra::proofs::OqlTreeForms::by_form))]
pub(crate) fn tree_of(alloc: Global, scope: &Scope, of: &Oql) -> Result<Nra, Memory>
    requires { IsTrue (has_names of.now) }
    ensures { IfOk result (λ made. made ≡ trees.oql_tree of.now (names_of scope.now)) }
{
    match of {
        Oql::Name(_, name) => name_tree(alloc, scope, name),
        Oql::Whole(_, n) => Ok(Nra::Const(Datum::Int(*n))),
        Oql::Text(_, text) => Ok(Nra::Const(Datum::Text(text.copy(alloc)?))),
        Oql::Constant(_, constant) => Ok(Nra::Const(constant_of(*constant))),
        Oql::Struct(_, fields) => structured(alloc, scope, fields.as_slice()),
        Oql::Bag(_, members) => collected(alloc, scope, members.as_slice()),
        Oql::Unary(_, operator, a) => of_operand(alloc, scope, *operator, a.get()),
        Oql::Binary(_, operator, a, b) => {
            let left = part_of(alloc, scope, a.get())?;
            with_left(alloc, scope, b.get(), *operator, left)
        }
        Oql::Divide(_, operator, a, k) => of_division(alloc, scope, *operator, a.get(), *k),
        Oql::Like(_, a, pattern) => of_like(alloc, scope, a.get(), pattern),
        Oql::Dot(_, a, label) => of_dot(alloc, scope, a.get(), label),
        Oql::Brand(_, operator, class, a) => of_class(alloc, scope, *operator, class, a.get()),
        Oql::Match(_, a, left, right) => {
            let left = bound(alloc, scope, left.get())?;
            let sides = with_right(alloc, scope, right.get(), left)?;
            matched(alloc, scope, a.get(), sides)
        }
        Oql::If(_, test, yes, no) => {
            let test = part_of(alloc, scope, test.get())?;
            let yes = part_of(alloc, scope, yes.get())?;
            last_branch(alloc, scope, no.get(), test, yes)
        }
        Oql::Quantified(_, quantifier, source, test) => {
            let holds = tested(alloc, scope, test.get(), &source.get().name)?;
            quantified(alloc, scope, source.get(), *quantifier, holds)
        }
        Oql::Select(_, select) => selected(alloc, scope, select.get()),
    }
}

// The same in a box. While others are made, trees are held in boxes.
#[cycle(lowering)]
fn part_of(alloc: Global, scope: &Scope, of: &Oql) -> Result<Boxed<Nra>, Memory>
    requires { IsTrue (has_names of.now) }
    ensures { IfOk result (λ made. made ≡ trees.oql_tree of.now (names_of scope.now)) }
{
    let tree = tree_of(alloc, scope, of)?;
    Boxed::of(alloc, tree)
}

// An operator of one operand.
#[cycle(lowering)]
fn of_operand(alloc: Global, scope: &Scope, operator: Unary, a: &Oql) -> Result<Nra, Memory>
    requires { IsTrue (has_names a.now) }
    ensures { IfOk result
        (λ made. made ≡ forms.one_tree (on_one operator) (trees.oql_tree a.now (names_of scope.now))) }
{
    let a = part_of(alloc, scope, a)?;
    of_one(alloc, on_one(operator), a)
}

// An operator of two operands, by the tree for the left one.
#[cycle(lowering)]
fn with_left(
    alloc: Global,
    scope: &Scope,
    b: &Oql,
    operator: Binary,
    left: Boxed<Nra>,
) -> Result<Nra, Memory>
    requires { IsTrue (has_names b.now) }
    ensures { IfOk result
        (λ made. made ≡ forms.two_tree (pairing_of operator) left (trees.oql_tree b.now (names_of scope.now))) }
{
    let right = part_of(alloc, scope, b)?;
    of_two(alloc, pairing_of(operator), left, right)
}

// A division by a literal.
#[cycle(lowering)]
#[tactic(auto, using(qc_oql_nra::proofs::NameForms::no_divisor))]
fn of_division(
    alloc: Global,
    scope: &Scope,
    operator: Division,
    a: &Oql,
    k: i64,
) -> Result<Nra, Memory>
    requires operand { IsTrue (has_names a.now) }
    requires divisor { IsTrue (is_divisor k) }
    ensures { IfOk result
        (λ made. made ≡ nra.Unary (division operator k) (trees.oql_tree a.now (names_of scope.now))) }
{
    let Some(divisor) = Divisor::of(k) else {
        unreachable!();
    };
    let a = part_of(alloc, scope, a)?;
    Ok(Nra::Unary(division(operator, divisor), a))
}

// A text against a pattern.
#[cycle(lowering)]
fn of_like(alloc: Global, scope: &Scope, a: &Oql, pattern: &Chars) -> Result<Nra, Memory>
    requires { IsTrue (has_names a.now) }
    ensures { IfOk result
        (λ made. made ≡ nra.Unary (one.Like pattern.now) (trees.oql_tree a.now (names_of scope.now))) }
{
    let pattern = pattern.copy(alloc)?;
    let a = part_of(alloc, scope, a)?;
    Ok(Nra::Unary(OnOne::Like(pattern), a))
}

// A field of a record.
#[cycle(lowering)]
fn of_dot(alloc: Global, scope: &Scope, a: &Oql, label: &Chars) -> Result<Nra, Memory>
    requires operand { IsTrue (has_names a.now) }
    requires label { IsTrue (is_name label.now) }
    ensures { IfOk result
        (λ made. made ≡ nra.Unary (one.Dot label.now) (trees.oql_tree a.now (names_of scope.now))) }
{
    let label = name_of(alloc, label)?;
    let a = part_of(alloc, scope, a)?;
    Ok(Nra::Unary(OnOne::Dot(label), a))
}

// A function of a class.
#[cycle(lowering)]
fn of_class(
    alloc: Global,
    scope: &Scope,
    operator: Branding,
    class: &Chars,
    a: &Oql,
) -> Result<Nra, Memory>
    requires operand { IsTrue (has_names a.now) }
    requires class { IsTrue (is_name class.now) }
    ensures { IfOk result
        (λ made. made ≡ nra.Unary (branding operator class.now) (trees.oql_tree a.now (names_of scope.now))) }
{
    let class = name_of(alloc, class)?;
    let a = part_of(alloc, scope, a)?;
    Ok(Nra::Unary(branding(operator, class), a))
}

// A choice by the side of the input, with the body for right values.
#[cycle(lowering)]
fn with_right(
    alloc: Global,
    scope: &Scope,
    body: &Named,
    left: Boxed<Nra>,
) -> Result<Boxed<Nra>, Memory>
    requires { IsTrue (named_has_names body.now) }
    ensures { IfOk result
        (λ made. made ≡ nra.Either left (forms.bound_tree (trees.named_tree body.now) (names_of scope.now))) }
{
    let right = bound(alloc, scope, body)?;
    Boxed::of(alloc, Nra::Either(left, right))
}

// A choice by the side of an operand.
#[cycle(lowering)]
fn matched(alloc: Global, scope: &Scope, a: &Oql, sides: Boxed<Nra>) -> Result<Nra, Memory>
    requires { IsTrue (has_names a.now) }
    ensures { IfOk result (λ made. made ≡ nra.Comp sides (trees.oql_tree a.now (names_of scope.now))) }
{
    let a = part_of(alloc, scope, a)?;
    Ok(Nra::Comp(sides, a))
}

// A condition with its branches, of which the first is there.
#[cycle(lowering)]
fn last_branch(
    alloc: Global,
    scope: &Scope,
    no: &Oql,
    test: Boxed<Nra>,
    yes: Boxed<Nra>,
) -> Result<Nra, Memory>
    requires { IsTrue (has_names no.now) }
    ensures { IfOk result (λ made. made ≡ nra.If test yes (trees.oql_tree no.now (names_of scope.now))) }
{
    let no = part_of(alloc, scope, no)?;
    Ok(Nra::If(test, yes, no))
}

// A quantifier, by the tree for its condition on a member.
#[cycle(lowering)]
fn quantified(
    alloc: Global,
    scope: &Scope,
    source: &Named,
    quantifier: Quantifier,
    holds: Boxed<Nra>,
) -> Result<Nra, Memory>
    requires { IsTrue (named_has_names source.now) }
    ensures { IfOk result (λ made. made
        ≡ forms.decided_tree quantifier (nra.Map holds ((trees.named_tree source.now).1 (names_of scope.now)))) }
{
    let members = named_part(alloc, scope, source)?;
    let truths = Boxed::of(alloc, Nra::Map(holds, members))?;
    decided(alloc, quantifier, truths)
}

// A name: a field of the environment, where it is bound, or else a global.
fn name_tree(alloc: Global, scope: &Scope, name: &Chars) -> Result<Nra, Memory>
    requires { IsTrue (is_name name.now) }
    ensures { IfOk result (λ made. made ≡ forms.name_tree name.now (names_of scope.now)) }
{
    let bound = is_bound(scope, name);
    let name = name_of(alloc, name)?;
    if bound {
        let env = Boxed::of(alloc, Nra::Env)?;
        Ok(Nra::Unary(OnOne::Dot(name), env))
    } else {
        Ok(Nra::Global(name))
    }
}

// `true`, `false` or `nil`.
fn constant_of(constant: Constant) -> Datum
    ensures { result ≡ meanings.constant constant }
{
    match constant {
        Constant::True => Datum::Bool(true),
        Constant::False => Datum::Bool(false),
        Constant::Nil => Datum::Unit,
    }
}

// The expression beside a name.
#[cycle(lowering)]
#[tactic(auto, using(qc_oql_nra::proofs::NameForms::by_names, qc_oql_nra::proofs::OqlTreeForms::named_is))]
pub(crate) fn named_part(alloc: Global, scope: &Scope, named: &Named) -> Result<Boxed<Nra>, Memory>
    requires { IsTrue (named_has_names named.now) }
    ensures { IfOk result (λ made. made ≡ (trees.named_tree named.now).1 (names_of scope.now)) }
{
    part_of(alloc, scope, &named.of)
}

// A body with its name bound to the input.
#[cycle(lowering)]
#[tactic(auto, using(qc_oql_nra::proofs::NameForms::by_names, qc_oql_nra::proofs::OqlTreeForms::named_is))]
fn bound(alloc: Global, scope: &Scope, body: &Named) -> Result<Boxed<Nra>, Memory>
    requires { IsTrue (named_has_names body.now) }
    ensures { IfOk result (λ made. made ≡ forms.bound_tree (trees.named_tree body.now) (names_of scope.now)) }
{
    let inner = Scope::Bind(&body.name, &*scope);
    let a = part_of(alloc, &inner, &body.of)?;
    under(alloc, &body.name, a)
}

// A condition with a name bound to the input.
#[cycle(lowering)]
fn tested(alloc: Global, scope: &Scope, test: &Oql, name: &Chars) -> Result<Boxed<Nra>, Memory>
    requires test { IsTrue (has_names test.now) }
    requires name { IsTrue (is_name name.now) }
    ensures { IfOk result (λ made. made ≡ forms.bound_tree (name.now, trees.oql_tree test.now) (names_of scope.now)) }
{
    let inner = Scope::Bind(&*name, &*scope);
    let a = part_of(alloc, &inner, test)?;
    under(alloc, name, a)
}

// The record of the fields.
#[cycle(lowering)]
#[tactic(auto, using(qc_oql_nra::proofs::NameForms::by_names, qc_oql_nra::proofs::OqlTreeForms::named_is))]
fn structured(alloc: Global, scope: &Scope, fields: &[Named]) -> Result<Nra, Memory>
    requires { IsTrue (all_true (map named_has_names fields.now)) }
    ensures { IfOk result (λ made. made ≡ forms.struct_tree (map trees.named_tree fields.now) (names_of scope.now)) }
{
    let mut made = Vec::new(alloc);
    for field in fields {
        let label = name_of(alloc, &field.name)?;
        let value = part_of(alloc, scope, &field.of)?;
        match made.push((label, value)) {
            Ok(()) => {}
            Err(_) => return Err(Memory),
        }
    }
    record_of(alloc, made)
}

// The collection of the members.
#[cycle(lowering)]
#[tactic(auto, using(qc_oql_nra::proofs::NameForms::by_names))]
fn collected(alloc: Global, scope: &Scope, members: &[Oql]) -> Result<Nra, Memory>
    requires { IsTrue (all_true (map has_names members.now)) }
    ensures { IfOk result (λ made. made ≡ forms.bag_tree (map trees.oql_tree members.now) (names_of scope.now)) }
{
    let mut made = Vec::new(alloc);
    for member in members {
        let value = part_of(alloc, scope, member)?;
        match made.push(value) {
            Ok(()) => {}
            Err(_) => return Err(Memory),
        }
    }
    bag_of(alloc, made)
}

// What stands behind `select`.
#[cycle(lowering)]
#[tactic(auto, using(qc_oql_nra::proofs::NameForms::by_names, qc_oql_nra::proofs::OqlTreeForms::select_is))]
fn selected(alloc: Global, scope: &Scope, select: &Select) -> Result<Nra, Memory>
    requires { IsTrue (select_has_names select.now) }
    ensures { IfOk result (λ made. made ≡ trees.part_tree select.now (names_of scope.now)) }
{
    let sources = select.sources.as_slice();
    let rows = rows_of(alloc, scope, sources)?;
    let inner = Scope::Sources(sources, &*scope);
    let rows = filtered(alloc, &inner, &select.filter, rows)?;
    let rows = ordered(alloc, &inner, &select.order, rows)?;
    let values = values_of(alloc, &inner, &select.value, rows)?;
    distinct_if(alloc, select.distinct, values)
}

// The value on each row.
#[cycle(lowering)]
fn values_of(alloc: Global, scope: &Scope, value: &Oql, rows: Boxed<Nra>) -> Result<Nra, Memory>
    requires { IsTrue (has_names value.now) }
    ensures { IfOk result
        (λ made. made ≡ nra.Map (forms.at_row (trees.oql_tree value.now (names_of scope.now))) rows) }
{
    let value = part_of(alloc, scope, value)?;
    let value = at_row(alloc, value)?;
    Ok(Nra::Map(value, rows))
}

// The rows that the sources make, of the one row that is the environment.
#[cycle(lowering)]
#[tactic(auto, using(qc_oql_nra::proofs::NameForms::by_names, qc_oql_nra::proofs::OqlTreeForms::named_is))]
fn rows_of(alloc: Global, scope: &Scope, sources: &[Named]) -> Result<Boxed<Nra>, Memory>
    requires { IsTrue (all_true (map named_has_names sources.now)) }
    ensures { IfOk result (λ made. made ≡ forms.rows_tree (map trees.named_tree sources.now) (names_of scope.now)
        (nra.Unary one.Single nra.Env)) }
{
    let env = Boxed::of(alloc, Nra::Env)?;
    let mut rows = Boxed::of(alloc, Nra::Unary(OnOne::Single, env))?;
    for (at, source) in sources.iter().enumerate() {
        let inner = Scope::Sources(&sources[..at], &*scope);
        let members = part_of(alloc, &inner, &source.of)?;
        rows = joined(alloc, &source.name, members, rows)?;
    }
    Ok(rows)
}

// The rows that the condition keeps, if there is one.
#[cycle(lowering)]
#[tactic(auto, using(qc_oql_nra::proofs::NameForms::by_names, qc_oql_nra::proofs::OqlTreeForms::filter_is))]
fn filtered(
    alloc: Global,
    scope: &Scope,
    filter: &Option<Filter>,
    rows: Boxed<Nra>,
) -> Result<Boxed<Nra>, Memory>
    requires { IsTrue (part_names (option_map filter_has_names filter.now)) }
    ensures { IfOk result
        (λ made. made ≡ forms.filtered_tree (option_map trees.filter_tree filter.now) (names_of scope.now) rows) }
{
    match filter {
        None => Ok(rows),
        Some(filter) => {
            let test = part_of(alloc, scope, &filter.test)?;
            let test = at_row(alloc, test)?;
            Boxed::of(alloc, Nra::Select(test, rows))
        }
    }
}

// The rows in order, if there are keys.
#[cycle(lowering)]
#[tactic(auto, using(qc_oql_nra::proofs::NameForms::by_names, qc_oql_nra::proofs::OqlTreeForms::order_is))]
fn ordered(
    alloc: Global,
    scope: &Scope,
    order: &Option<Order>,
    rows: Boxed<Nra>,
) -> Result<Boxed<Nra>, Memory>
    requires { IsTrue (part_names (option_map order_has_names order.now)) }
    ensures { IfOk result
        (λ made. made ≡ forms.ordered_tree (option_map trees.order_tree order.now) (names_of scope.now) rows) }
{
    match order {
        None => Ok(rows),
        Some(order) => {
            let keys = order.keys.as_slice();
            let names = names_of_keys(alloc, keys)?;
            let fields = fields_of_keys(alloc, scope, keys)?;
            sorted_by(alloc, fields, names, rows)
        }
    }
}

// The values of the keys on a row, each at its name.
#[cycle(lowering)]
#[tactic(auto, using(qc_oql_nra::proofs::NameForms::by_names, qc_oql_nra::proofs::OqlTreeForms::key_is))]
fn fields_of_keys(
    alloc: Global,
    scope: &Scope,
    keys: &[Key],
) -> Result<Vec<(Name, Boxed<Nra>)>, Memory>
    requires { IsTrue (all_true (map key_has_names keys.now)) }
    ensures { IfOk result
        (λ made. made.items ≡ forms.key_fields 0 (map trees.key_tree keys.now) (names_of scope.now)) }
{
    let mut made = Vec::new(alloc);
    for (at, key) in keys.iter().enumerate() {
        let name = numeral(alloc, at + 1)?;
        let value = part_of(alloc, scope, &key.of)?;
        let value = at_row(alloc, value)?;
        match made.push((name, value)) {
            Ok(()) => {}
            Err(_) => return Err(Memory),
        }
    }
    Ok(made)
}
