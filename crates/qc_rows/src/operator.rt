// The operator that a row names, with its parameters.
use crate::form::{integer, items, pair, word as word_of};
use crate::odd::Odd;
use crate::values::name;
use qc_containers::{Chars, Name};
use qc_data::Json;
use qc_ops::{Binary, Divisor, Keys, Names, Unary};
use std::alloc::Global;

/// The names of the parameters of an operator on one value, in order.
pub fn parameters(word: &str) -> &'static [&'static str] {
    match word {
        "divby" | "modby" => &["divisor"],
        "rec" | "dot" | "brand" | "cast" => &["name"],
        "project" => &["names"],
        "group" => &["name", "names"],
        "order" => &["keys"],
        "like" => &["pattern"],
        _ => &[],
    }
}

/// The operator on one value that the word names, with its parameters.
pub fn unary(alloc: Global, word: &str, parameters: &[&Json]) -> Result<Unary, Odd> {
    match parameters {
        [] => plain_unary(word),
        [parameter] => unary_with(alloc, word, parameter),
        [name, names] => group(alloc, word, name, names),
        _ => Err(Odd::Form),
    }
}

fn plain_unary(word: &str) -> Result<Unary, Odd> {
    match word {
        "not" => Ok(Unary::Not),
        "neg" => Ok(Unary::Neg),
        "abs" => Ok(Unary::Abs),
        "count" => Ok(Unary::Count),
        "sum" => Ok(Unary::Sum),
        "min" => Ok(Unary::Min),
        "max" => Ok(Unary::Max),
        "avg" => Ok(Unary::Avg),
        "element" => Ok(Unary::Element),
        "flatten" => Ok(Unary::Flatten),
        "distinct" => Ok(Unary::Distinct),
        "single" => Ok(Unary::Single),
        "left" => Ok(Unary::Left),
        "right" => Ok(Unary::Right),
        "unbrand" => Ok(Unary::Unbrand),
        _ => Err(Odd::Form),
    }
}

fn unary_with(alloc: Global, word: &str, parameter: &Json) -> Result<Unary, Odd> {
    match word {
        "divby" => Ok(Unary::DivBy(divisor(parameter)?)),
        "modby" => Ok(Unary::ModBy(divisor(parameter)?)),
        "rec" => Ok(Unary::Rec(named(alloc, parameter)?)),
        "dot" => Ok(Unary::Dot(named(alloc, parameter)?)),
        "brand" => Ok(Unary::Brand(named(alloc, parameter)?)),
        "cast" => Ok(Unary::Cast(named(alloc, parameter)?)),
        "project" => Ok(Unary::Project(names_of(alloc, parameter)?)),
        "order" => Ok(Unary::Order(keys(alloc, parameter)?)),
        "like" => Ok(Unary::Like(Chars::of(alloc, word_of(parameter)?)?)),
        _ => Err(Odd::Form),
    }
}

fn group(alloc: Global, word: &str, name: &Json, names: &Json) -> Result<Unary, Odd> {
    if word != "group" {
        return Err(Odd::Form);
    }
    Ok(Unary::Group(named(alloc, name)?, names_of(alloc, names)?))
}

/// The operator on two values that the word names.
pub fn binary(word: &str) -> Option<Binary> {
    match word {
        "eq" => Some(Binary::Eq),
        "lt" => Some(Binary::Lt),
        "le" => Some(Binary::Le),
        "and" => Some(Binary::And),
        "or" => Some(Binary::Or),
        "add" => Some(Binary::Add),
        "sub" => Some(Binary::Sub),
        "mul" => Some(Binary::Mul),
        "least" => Some(Binary::Least),
        "greatest" => Some(Binary::Greatest),
        "union" => Some(Binary::Union),
        "except" => Some(Binary::Except),
        "intersect" => Some(Binary::Intersect),
        "member" => Some(Binary::Member),
        "cat" => Some(Binary::Cat),
        "merge" => Some(Binary::Merge),
        "glue" => Some(Binary::Glue),
        _ => None,
    }
}

fn divisor(json: &Json) -> Result<Divisor, Odd> {
    match Divisor::of(integer(json)?) {
        Some(divisor) => Ok(divisor),
        None => Err(Odd::Form),
    }
}

/// The name that the tree is.
pub fn named(alloc: Global, json: &Json) -> Result<Name, Odd> {
    name(alloc, word_of(json)?)
}

fn names_of(alloc: Global, json: &Json) -> Result<Names, Odd> {
    let mut names = Names::new(alloc);
    for json in items(json)? {
        names.add(named(alloc, json)?)?;
    }
    Ok(names)
}

fn keys(alloc: Global, json: &Json) -> Result<Keys, Odd> {
    let mut keys = Keys::new(alloc);
    for json in items(json)? {
        let (key, direction) = pair(json)?;
        let key = named(alloc, key)?;
        match word_of(direction)? {
            "asc" => keys.add((key, true))?,
            "desc" => keys.add((key, false))?,
            _ => return Err(Odd::Form),
        }
    }
    Ok(keys)
}
