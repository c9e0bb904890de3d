// The calls that are alike on trees of all languages.
use crate::answers::{Answers, word_tree};
use crate::odd::Odd;
use qc_data::Json;
use std::alloc::Global;

/// Adds the written form, where the row asks for it by the call's name.
pub fn spelled(alloc: Global, answers: &mut Answers, call: &str, text: &str) -> Result<(), Odd> {
    if !answers.asks(call) {
        return Ok(());
    }
    answers.add(alloc, call, word_tree(alloc, text)?)
}

/// Adds the number of nodes, where the row asks for it.
pub fn counted(alloc: Global, answers: &mut Answers, nodes: u128) -> Result<(), Odd> {
    if !answers.asks("nodes") {
        return Ok(());
    }
    match i64::try_from(nodes) {
        Ok(count) => answers.add(alloc, "nodes", Json::Int(count)),
        Err(_) => Err(Odd::Form),
    }
}
