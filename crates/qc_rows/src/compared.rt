// What a row wants and what came, as bytes that are equal exactly where both are the same.
use crate::form::{self, Form};
use crate::odd::Odd;
use crate::texts::Texts;
use qc_data::Json;
use qc_schema::{json_text, type_text};
use qc_types::Ty;
use std::alloc::Global;

/// What a row wants, and what came.
#[derive(Drop)]
pub struct Compared {
    pub wanted: Vec<u8>,
    pub came: Vec<u8>,
}

impl Compared {
    /// What came beside what the row wants, which it takes: that a tree's compact text came, which it gives as the
    /// tree (`gives`) or as the text (`writes`); or a fault.
    pub fn of(alloc: Global, texts: &Texts, row: &mut Form, came: &str) -> Result<Compared, Odd> {
        let came = Vec::from_slice(alloc, came.as_bytes())?;
        if let Some(text) = row.maybe("writes") {
            let wanted = texts.bytes(alloc, text)?;
            return Ok(Compared { wanted, came });
        }
        let wanted = match row.maybe("fault") {
            Some(text) => fault_text(alloc, form::word(text)?)?,
            None => tree_text(alloc, row.member("gives")?)?,
        };
        Ok(Compared {
            wanted: Vec::from_slice(alloc, wanted.as_bytes())?,
            came,
        })
    }

    /// Whether what is wanted came.
    pub fn holds(&self) -> bool {
        self.wanted.as_slice() == self.came.as_slice()
    }
}

/// A tree, by its compact text.
pub fn tree_text(alloc: Global, json: &Json) -> Result<String, Odd> {
    Ok(String::from_str(alloc, json_text(alloc, json)?.as_str())?)
}

/// A type, by its text, or that there is none.
pub fn type_or_none(alloc: Global, found: Option<Ty>) -> Result<String, Odd> {
    match found {
        Some(found) => Ok(String::from_str(alloc, type_text(alloc, &found)?.as_str())?),
        None => fault_text(alloc, "none"),
    }
}

/// A truth value.
pub fn truth_text(alloc: Global, truth: bool) -> Result<String, Odd> {
    tree_text(alloc, &Json::Bool(truth))
}

/// A fault, by the text that tells it.
pub fn fault_text(alloc: Global, text: &str) -> Result<String, Odd> {
    Ok(format!(in alloc; "fault {text}")?)
}
