// What the calls on a tree of the calculus give.
ghost use Rattle.std.specs.Prelude.{◌≤◌, ◌^◌};
ghost use Rattle.qc_nnrc.specs.Sizes.{size};

use crate::bindings::{frame, scope};
use crate::calculus_tree::tree;
use qc_data::{Json, Jsons};
use qc_nnrc::{Nnrc, eval_at, nodes, spell};
use qc_nnrc_check::infer;
use qc_nnrc_free::free_in;
use qc_rows::{
    Answers, Compared, Form, MOST_NODES, Odd, Texts, counted, integer, items, outcome_tree, schema,
    spelled, type_tree, variable, world,
};
use qc_types::Schema;
use std::alloc::Global;

/// The row's tree, of which each call that the row names is made.
pub fn tried(alloc: Global, texts: &Texts, row: &mut Form) -> Result<Compared, Odd> {
    let mut room = MOST_NODES;
    let tree = tree(alloc, row.member("tree")?, &mut room)?;
    let schema = schema(alloc, texts, row)?;
    answered(alloc, &schema, row, &tree)
}

// What the row wants of the calls, and what they give.
fn answered(alloc: Global, schema: &Schema, row: &mut Form, tree: &Nnrc) -> Result<Compared, Odd>
    requires { size tree.now ≤ 2 ^ 100 }
{
    let mut answers = Answers::of(alloc, row)?;
    counted(alloc, &mut answers, nodes(tree))?;
    spelled(alloc, &mut answers, "spell", spell(alloc, tree)?.as_str())?;
    by_variables(alloc, schema, row, tree, &mut answers)?;
    answers.compared(alloc)
}

// The calls that speak of variables.
fn by_variables(
    alloc: Global,
    schema: &Schema,
    row: &mut Form,
    tree: &Nnrc,
    answers: &mut Answers,
) -> Result<(), Odd> {
    if answers.asks("eval_at") {
        let answer = evaluated(alloc, schema, tree, row)?;
        answers.add(alloc, "eval_at", answer)?;
    }
    if answers.asks("infer") {
        let answer = inferred(alloc, schema, tree, row)?;
        answers.add(alloc, "infer", answer)?;
    }
    if answers.asks("free_in") {
        let answer = free(alloc, tree, row)?;
        answers.add(alloc, "free_in", answer)?;
    }
    Ok(())
}

// The outcome by the row's frame, in its world.
fn evaluated(alloc: Global, schema: &Schema, tree: &Nnrc, row: &mut Form) -> Result<Json, Odd> {
    let world = world(alloc, schema, row.maybe("world"))?;
    let frame = frame(alloc, row.maybe("frame"))?;
    outcome_tree(alloc, eval_at(alloc, tree, &world, &frame))
}

// The type in the row's scope.
fn inferred(alloc: Global, schema: &Schema, tree: &Nnrc, row: &mut Form) -> Result<Json, Odd> {
    let scope = scope(alloc, row.maybe("scope"))?;
    type_tree(alloc, infer(alloc, schema, &scope, tree)?)
}

// Those of the row's variables that are free, in their order.
fn free(alloc: Global, tree: &Nnrc, row: &mut Form) -> Result<Json, Odd> {
    let mut free = Jsons::new(alloc);
    for json in items(row.member("variables")?)? {
        if free_in(variable(json)?, tree) {
            free.add(Json::Int(integer(json)?))?;
        }
    }
    Ok(Json::Array(free))
}
