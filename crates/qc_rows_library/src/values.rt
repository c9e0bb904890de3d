// What the functions on data and on types give.
use qc_data::{canon, cmp, dec, enc, same};
use qc_rows::{
    Form, Odd, classes, datum, fault_text, good_classes, pair, tree_text, truth_text, ty,
    type_or_none,
};
use qc_types::{conforms, join, subtype};
use std::alloc::Global;
use std::cmp::Ordering;

/// Whether a datum fits a type.
pub fn fits(alloc: Global, row: &mut Form) -> Result<String, Odd> {
    let classes = good_classes(alloc, row)?;
    let datum = datum(alloc, row.member("datum")?)?;
    let ty = ty(alloc, row.member("type")?)?;
    truth_text(alloc, conforms(&classes, &datum, &ty))
}

/// Whether a type is below another.
pub fn is_below(alloc: Global, row: &mut Form) -> Result<String, Odd> {
    let classes = good_classes(alloc, row)?;
    let below = ty(alloc, row.member("below")?)?;
    let above = ty(alloc, row.member("above")?)?;
    truth_text(alloc, subtype(&classes, &below, &above))
}

/// The join of two types.
pub fn join_of(alloc: Global, row: &mut Form) -> Result<String, Odd> {
    let classes = good_classes(alloc, row)?;
    let (first, second) = pair(row.member("types")?)?;
    let first = ty(alloc, first)?;
    let second = ty(alloc, second)?;
    type_or_none(alloc, join(alloc, &classes, &first, &second)?)
}

/// Whether a list of classes is a good one.
pub fn are_good(alloc: Global, row: &mut Form) -> Result<String, Odd> {
    match classes(alloc, row)? {
        Ok(_) => truth_text(alloc, true),
        Err(_) => fault_text(alloc, "BadClasses"),
    }
}

/// How one datum compares to another.
pub fn order(alloc: Global, row: &mut Form) -> Result<String, Odd> {
    let (first, second) = pair(row.member("data")?)?;
    let order = match cmp(&datum(alloc, first)?, &datum(alloc, second)?) {
        Ordering::Less => "\"less\"",
        Ordering::Equal => "\"equal\"",
        Ordering::Greater => "\"greater\"",
    };
    Ok(String::from_str(alloc, order)?)
}

/// Whether two data are the same.
pub fn are_same(alloc: Global, row: &mut Form) -> Result<String, Odd> {
    let (first, second) = pair(row.member("data")?)?;
    let first = datum(alloc, first)?;
    let second = datum(alloc, second)?;
    truth_text(alloc, same(alloc, &first, &second)?)
}

/// A datum's canon.
pub fn canon_of(alloc: Global, row: &mut Form) -> Result<String, Odd> {
    let given = datum(alloc, row.member("datum")?)?;
    tree_text(alloc, &enc(alloc, &canon(alloc, &given)?)?)
}

/// Whether a tree encodes a datum.
pub fn encodes(alloc: Global, row: &mut Form) -> Result<String, Odd> {
    let found = dec(alloc, row.member("json")?)?;
    truth_text(alloc, found.is_some())
}
