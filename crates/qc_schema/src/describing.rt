// The texts of types.
ghost use Rattle.std.specs.Prelude.{◌≡◌, [], ◌∷◌, IfOk, map};
ghost use Rattle.qc_containers.specs.Rising.{on_value};
ghost use Rattle.qc_data.specs.declared.data.Json.TheVariants.{Text, Array, Object};
ghost use Rattle.qc_schema.specs.TypeText.{one, tree_of, width_name};
ghost use Rattle.qc_schema.specs.Writing.{text_of};

use crate::writing::json_text;
use qc_containers::{Chars, Memory};
use qc_data::{Json, Jsons, Members};
use qc_types::{Row, Ty, Width};
use std::alloc::Global;

/// The compact text of a type, as a schema file has it: `"int"` or `{"bag":"int"}`. `"bottom"`, the text of `Bottom`,
/// is in no schema file.
pub fn type_text(alloc: Global, t: &Ty) -> Result<Chars, Memory>
    ensures { IfOk result (λ text. text ≡ text_of (tree_of t.now)) }
{
    let tree = type_tree(alloc, t)?;
    json_text(alloc, &tree)
}

// The tree of the type.
#[cycle(described)]
fn type_tree(alloc: Global, t: &Ty) -> Result<Json, Memory>
    ensures { IfOk result (λ made. made ≡ tree_of t.now) }
{
    match t {
        Ty::Bottom => word(alloc, "bottom"),
        Ty::Unit => word(alloc, "unit"),
        Ty::Bool => word(alloc, "bool"),
        Ty::Int => word(alloc, "int"),
        Ty::Text => word(alloc, "text"),
        Ty::Coll(item) => single(alloc, "bag", type_tree(alloc, item.get())?),
        Ty::Rec(width, row) => {
            let fields = row_tree(alloc, row)?;
            record_tree(alloc, *width, fields)
        }
        Ty::Either(left, right) => {
            let left = type_tree(alloc, left.get())?;
            let right = type_tree(alloc, right.get())?;
            let both = pair(alloc, left, right)?;
            single(alloc, "either", both)
        }
        Ty::Brand(name) => {
            let class = word(alloc, name.as_str())?;
            single(alloc, "class", class)
        }
    }
}

// The trees of the fields' types at their names.
#[cycle(described)]
fn row_tree(alloc: Global, row: &Row) -> Result<Members, Memory>
    ensures { IfOk result (λ made. made ≡ map (on_value tree_of) row.now) }
{
    let mut all = Members::new(alloc);
    for pair in row.as_slice() {
        let name = Chars::of(alloc, pair.0.as_str())?;
        all.add(name, type_tree(alloc, &pair.1)?)?;
    }
    Ok(all)
}

// The tree of a record's type.
fn record_tree(alloc: Global, width: Width, fields: Members) -> Result<Json, Memory>
    ensures { IfOk result (λ made. made ≡ one (width_name width) (Object fields)) }
{
    match width {
        Width::Exact => single(alloc, "record", Json::Object(fields)),
        Width::Wide => single(alloc, "open", Json::Object(fields)),
    }
}

// A text.
fn word(alloc: Global, text: &str) -> Result<Json, Memory>
    ensures { IfOk result (λ made. made ≡ Text text.now) }
{
    Ok(Json::Text(Chars::of(alloc, text)?))
}

// An array of two items.
fn pair(alloc: Global, first: Json, second: Json) -> Result<Json, Memory>
    ensures { IfOk result (λ made. made ≡ Array (first ∷ second ∷ [])) }
{
    let mut all = Jsons::new(alloc);
    all.add(first)?;
    all.add(second)?;
    Ok(Json::Array(all))
}

// An object of one member.
fn single(alloc: Global, name: &str, j: Json) -> Result<Json, Memory>
    ensures { IfOk result (λ made. made ≡ one name.now j) }
{
    let mut all = Members::new(alloc);
    all.add(Chars::of(alloc, name)?, j)?;
    Ok(Json::Object(all))
}
