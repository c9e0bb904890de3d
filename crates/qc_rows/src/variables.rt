// The variables that a row speaks of.
use crate::form::count;
use crate::odd::Odd;
use qc_data::Json;

/// The variable that the tree is: a number, or the decimal text of one.
pub fn variable(json: &Json) -> Result<u128, Odd> {
    match json {
        Json::Text(text) => numbered(text.as_str()),
        _ => Ok(u128::from(count(json)?)),
    }
}

/// The variable of the number that the decimal text is.
pub fn numbered(text: &str) -> Result<u128, Odd> {
    match text.parse::<u128>() {
        Ok(variable) => Ok(variable),
        Err(_) => Err(Odd::Form),
    }
}
