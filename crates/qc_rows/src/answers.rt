// What several calls on one thing give, beside what a row wants of each.
use crate::compared::{Compared, tree_text};
use crate::form::Form;
use crate::odd::Odd;
use qc_containers::Chars;
use qc_data::{Datum, Halt, Json, Members, enc};
use qc_schema::{read_json, type_text};
use qc_types::Ty;
use std::alloc::Global;

/// What a row wants of each call that it names, and what came of those that were made.
#[derive(Drop)]
pub struct Answers<'a> {
    wanted: &'a Json,
    came: Members,
}

impl<'a> Answers<'a> {
    /// What the row wants, which it takes, and no answer.
    pub fn of(alloc: Global, row: &mut Form<'a>) -> Result<Answers<'a>, Odd> {
        let wanted = row.member("gives")?;
        Ok(Answers {
            wanted,
            came: Members::new(alloc),
        })
    }

    /// Whether the row wants something of the call.
    pub fn asks(&self, call: &str) -> bool {
        match self.wanted {
            Json::Object(members) => members.get(call).is_some(),
            _ => false,
        }
    }

    /// Adds the answer of a call, which has none so far.
    pub fn add(&mut self, alloc: Global, call: &str, answer: Json) -> Result<(), Odd> {
        let call = Chars::of(alloc, call)?;
        if self.came.get(call.as_str()).is_some() {
            return Err(Odd::Form);
        }
        match self.came.put(call, answer) {
            Ok(()) => Ok(()),
            Err(_) => Err(Odd::Memory),
        }
    }

    /// What is wanted of all calls, and what came.
    pub fn compared(self, alloc: Global) -> Result<Compared, Odd> {
        let wanted = tree_text(alloc, self.wanted)?;
        let came = tree_text(alloc, &Json::Object(self.came))?;
        Ok(Compared {
            wanted: Vec::from_slice(alloc, wanted.as_bytes())?,
            came: Vec::from_slice(alloc, came.as_bytes())?,
        })
    }
}

/// A text, as a tree.
pub fn word_tree(alloc: Global, text: &str) -> Result<Json, Odd> {
    Ok(Json::Text(Chars::of(alloc, text)?))
}

/// An outcome, as a tree: an object with the value, or the text that tells why there is none.
pub fn outcome_tree(alloc: Global, outcome: Result<Datum, Halt>) -> Result<Json, Odd> {
    match outcome {
        Ok(value) => tree_outcome(alloc, Ok(enc(alloc, &value)?)),
        Err(halt) => tree_outcome(alloc, Err(halt)),
    }
}

/// The same of an outcome that is a tree.
pub fn tree_outcome(alloc: Global, outcome: Result<Json, Halt>) -> Result<Json, Odd> {
    match outcome {
        Ok(value) => value_tree(alloc, value),
        Err(Halt::Range) => word_tree(alloc, "Range"),
        Err(Halt::Stuck) => word_tree(alloc, "Stuck"),
        Err(Halt::Memory) => Err(Odd::Memory),
    }
}

fn value_tree(alloc: Global, value: Json) -> Result<Json, Odd> {
    let mut members = Members::new(alloc);
    match members.put(Chars::of(alloc, "value")?, value) {
        Ok(()) => Ok(Json::Object(members)),
        Err(_) => Err(Odd::Memory),
    }
}

/// A type as a tree, or the text that tells that there is none.
pub fn type_tree(alloc: Global, found: Option<Ty>) -> Result<Json, Odd> {
    let Some(found) = found else {
        return word_tree(alloc, "none");
    };
    match read_json(alloc, type_text(alloc, &found)?.as_str().as_bytes()) {
        Ok(tree) => Ok(tree),
        Err(_) => Err(Odd::Memory),
    }
}
