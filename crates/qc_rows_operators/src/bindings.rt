// The variables of a row, and what they stand for.
use qc_data::Json;
use qc_nnrc::{Bindings, Frame, Scope};
use qc_rows::{Odd, datum, members, numbered, ty};
use std::alloc::Global;

/// The values of the variables that the members are, and without any none.
pub fn frame(alloc: Global, json: Option<&Json>) -> Result<Frame, Odd> {
    let mut frame = Frame::new(alloc);
    if let Some(json) = json {
        for pair in members(json)? {
            bind(&mut frame, pair.0.as_str(), datum(alloc, &pair.1)?)?;
        }
    }
    Ok(frame)
}

/// The types of the variables that the members are, and without any none.
pub fn scope(alloc: Global, json: Option<&Json>) -> Result<Scope, Odd> {
    let mut scope = Scope::new(alloc);
    if let Some(json) = json {
        for pair in members(json)? {
            bind(&mut scope, pair.0.as_str(), ty(alloc, &pair.1)?)?;
        }
    }
    Ok(scope)
}

// Binds the variable of the text, which is bound to nothing so far.
fn bind<T: Drop>(bindings: &mut Bindings<T>, text: &str, value: T) -> Result<(), Odd> {
    let variable = numbered(text)?;
    if bindings.get(variable).is_some() {
        return Err(Odd::Form);
    }
    match bindings.put(variable, value) {
        Ok(()) => Ok(()),
        Err(_) => Err(Odd::Memory),
    }
}
