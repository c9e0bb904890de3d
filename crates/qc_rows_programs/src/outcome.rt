// The calls that are alike on programs of both languages.
use qc_data::Json;
use qc_lang::Lang;
use qc_rows::{Answers, Form, Odd, Texts, outcome_tree, schema, world};
use std::alloc::Global;

/// Adds whether the program is well formed, where the row asks for it.
pub fn judged(alloc: Global, answers: &mut Answers, is_well_formed: bool) -> Result<(), Odd> {
    if !answers.asks("well_formed") {
        return Ok(());
    }
    answers.add(alloc, "well_formed", Json::Bool(is_well_formed))
}

/// Adds the outcome in the row's schema and input, where the row asks for it.
pub fn evaluated<T: Lang>(
    alloc: Global,
    texts: &Texts,
    row: &mut Form,
    tree: &T,
    answers: &mut Answers,
) -> Result<(), Odd> {
    if !answers.asks("eval") {
        return Ok(());
    }
    let schema = schema(alloc, texts, row)?;
    let world = world(alloc, &schema, row.maybe("input"))?;
    let outcome = outcome_tree(alloc, tree.eval(alloc, &world))?;
    answers.add(alloc, "eval", outcome)
}
