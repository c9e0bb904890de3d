// What the functions of the runtime give.
use qc_data::Halt;
use qc_rows::{Form, Odd, fault_text, items, tree_text};
use qc_rt::Rt;
use qc_runtime::apply;
use std::alloc::Global;

/// The value of a function on trees.
pub fn applied(alloc: Global, row: &mut Form) -> Result<String, Odd> {
    let word = row.word("function")?;
    let args = items(row.member("args")?)?;
    let Some(function) = Rt::of_word(word) else {
        return Err(Odd::Form);
    };
    match apply(alloc, function, args) {
        Ok(value) => tree_text(alloc, &value),
        Err(Halt::Range) => fault_text(alloc, "Range"),
        Err(Halt::Stuck) => fault_text(alloc, "Stuck"),
        Err(Halt::Memory) => Err(Odd::Memory),
    }
}
