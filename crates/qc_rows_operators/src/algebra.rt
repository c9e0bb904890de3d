// What the calls on a tree of the algebra give, and those on its tree of the calculus.
ghost use Rattle.std.specs.Prelude.{◌≤◌, ◌^◌};
ghost use Rattle.qc_nra.specs.Sizes.{size};

use crate::algebra_tree::tree;
use qc_data::{Datum, Json};
use qc_lang::{Lang, Pass};
use qc_lower::NraToNnrc;
use qc_nnrc::Nnrc;
use qc_nra::{Nra, eval_at, nodes, spell};
use qc_nra_check::{Context, infer};
use qc_rows::{
    Answers, Compared, Form, MOST_NODES, Odd, Texts, counted, datum, datum_or_none, outcome_tree,
    schema, spelled, ty, type_tree, world,
};
use qc_types::{Row, Schema, Ty, Width};
use std::alloc::Global;

/// The row's tree, of which each call that the row names is made.
pub fn tried(alloc: Global, texts: &Texts, row: &mut Form) -> Result<Compared, Odd> {
    let mut room = MOST_NODES;
    let tree = tree(alloc, row.member("tree")?, &mut room)?;
    let schema = schema(alloc, texts, row)?;
    answered(alloc, &schema, row, tree)
}

// What the row wants of the calls, and what they give.
fn answered(alloc: Global, schema: &Schema, row: &mut Form, tree: Nra) -> Result<Compared, Odd>
    requires { size tree ≤ 2 ^ 100 }
{
    let mut answers = Answers::of(alloc, row)?;
    let globals = globals(&answers, row);
    on_tree(alloc, schema, globals, row, &tree, &mut answers)?;
    on_image(alloc, schema, globals, tree, &mut answers)?;
    answers.compared(alloc)
}

// The globals' values, which a row has where a call wants a world.
fn globals<'a>(answers: &Answers, row: &mut Form<'a>) -> Option<&'a Json> {
    if answers.asks("eval_at") || answers.asks("lowered") {
        row.maybe("world")
    } else {
        None
    }
}

// The calls on the tree.
fn on_tree(
    alloc: Global,
    schema: &Schema,
    globals: Option<&Json>,
    row: &mut Form,
    tree: &Nra,
    answers: &mut Answers,
) -> Result<(), Odd>
    requires { size tree.now ≤ 2 ^ 100 }
{
    counted(alloc, answers, nodes(tree))?;
    spelled(alloc, answers, "spell", spell(alloc, tree)?.as_str())?;
    if answers.asks("eval_at") {
        let answer = evaluated(alloc, schema, globals, tree, row)?;
        answers.add(alloc, "eval_at", answer)?;
    }
    if answers.asks("infer") {
        let answer = inferred(alloc, schema, tree, row)?;
        answers.add(alloc, "infer", answer)?;
    }
    Ok(())
}

// The outcome on the row's input and environment, in its world.
fn evaluated(
    alloc: Global,
    schema: &Schema,
    globals: Option<&Json>,
    tree: &Nra,
    row: &mut Form,
) -> Result<Json, Odd> {
    let world = world(alloc, schema, globals)?;
    let input = input(alloc, row)?;
    let env = datum_or_none(alloc, row.maybe("env"))?;
    outcome_tree(alloc, eval_at(alloc, tree, &world, &input, &env))
}

fn input(alloc: Global, row: &mut Form) -> Result<Datum, Odd> {
    match row.maybe("input") {
        Some(json) => datum(alloc, json),
        None => Ok(Datum::Unit),
    }
}

// The type on inputs and environments of the row's types.
fn inferred(alloc: Global, schema: &Schema, tree: &Nra, row: &mut Form) -> Result<Json, Odd> {
    let cx = context(alloc, row)?;
    type_tree(alloc, infer(alloc, schema, &cx, tree)?)
}

fn context(alloc: Global, row: &mut Form) -> Result<Context, Odd> {
    let input = match row.maybe("input_type") {
        Some(json) => ty(alloc, json)?,
        None => Ty::Unit,
    };
    let env = match row.maybe("env_type") {
        Some(json) => ty(alloc, json)?,
        None => Ty::Rec(Width::Exact, Row::new(alloc)),
    };
    Ok(Context { input, env })
}

// The calls on the tree of the calculus for a whole one.
fn on_image(
    alloc: Global,
    schema: &Schema,
    globals: Option<&Json>,
    tree: Nra,
    answers: &mut Answers,
) -> Result<(), Odd>
    requires { size tree ≤ 2 ^ 100 }
{
    if !answers.asks("lowered") && !answers.asks("lowered_spell") {
        return Ok(());
    }
    let image = NraToNnrc.pass(alloc, schema, tree)?;
    let text = qc_nnrc::spell(alloc, &image)?;
    spelled(alloc, answers, "lowered_spell", text.as_str())?;
    evaluated_image(alloc, schema, globals, &image, answers)
}

// The outcome of the tree of the calculus, in the row's world.
fn evaluated_image(
    alloc: Global,
    schema: &Schema,
    globals: Option<&Json>,
    image: &Nnrc,
    answers: &mut Answers,
) -> Result<(), Odd> {
    if !answers.asks("lowered") {
        return Ok(());
    }
    let world = world(alloc, schema, globals)?;
    let answer = outcome_tree(alloc, image.eval(alloc, &world))?;
    answers.add(alloc, "lowered", answer)
}
