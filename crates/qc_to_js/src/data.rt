// Data written out as expressions.
ghost use Rattle.std.specs.Prelude.{◌≡◌, ◌++◌, false, [], ◌∷◌, IfOk, map};
ghost use Rattle.qc_containers.specs.Name.{is_marker};
ghost use Rattle.qc_containers.specs.Rising.{on_value};
ghost use Rattle.qc_rt.specs.declared.function.Rt.TheVariants as rt;
ghost use Rattle.qc_js.specs.declared.tree.Expr.TheVariants as tree;
ghost use Rattle.qc_to_js.specs.inner.Written.{WritesDatum, array, constant, field, record_from, record_of, truth};

use qc_containers::{Chars, List, Memory, Name};
use qc_data::{Datum, Fields, Items, held};
use qc_js::Expr;
use qc_rt::Rt;
use std::alloc::Global;

// The datum.
pub(crate) fn constant(alloc: Global, d: &Datum) -> Result<Expr, Memory>
    ensures { IfOk result (λ made. WritesDatum d.now made) }
{
    held(d);
    written(alloc, d)
}

// The same, by its definition.
#[cycle(writing)]
fn written(alloc: Global, d: &Datum) -> Result<Expr, Memory>
    ensures { IfOk result (λ made. made ≡ constant d.now) }
{
    match d {
        Datum::Unit => Ok(Expr::Null),
        Datum::Bool(b) => Ok(truth(*b)),
        Datum::Int(n) => Ok(Expr::Int(*n)),
        Datum::Text(text) => Ok(Expr::Text(text.copy(alloc)?)),
        Datum::Coll(items) => array(alloc, items),
        Datum::Rec(fields) => record(alloc, fields),
        Datum::Left(inner) => {
            let content = written(alloc, inner.get())?;
            call(Rt::Left, List::new(alloc), content)
        }
        Datum::Right(inner) => {
            let content = written(alloc, inner.get())?;
            call(Rt::Right, List::new(alloc), content)
        }
        Datum::Brand(name, inner) => {
            let content = written(alloc, inner.get())?;
            call(Rt::Brand, named(alloc, name)?, content)
        }
    }
}

// A truth value.
pub(crate) fn truth(b: bool) -> Expr
    ensures { result ≡ truth b }
{
    if b { Expr::True } else { Expr::False }
}

// A text alone.
pub(crate) fn named(alloc: Global, name: &Name) -> Result<List<Expr>, Memory>
    ensures made { IfOk result (λ made. made ≡ tree.Text name.now ∷ []) }
    ensures name { is_marker name.now ≡ false }
{
    let mut all = List::new(alloc);
    all.add(Expr::Text(Chars::of(alloc, name.as_str())?))?;
    Ok(all)
}

// A call of the arguments and a last one.
pub(crate) fn call(f: Rt, before: List<Expr>, last: Expr) -> Result<Expr, Memory>
    ensures { IfOk result (λ made. made ≡ tree.Call f (before ++ last ∷ [])) }
{
    let mut arguments = before;
    arguments.add(last)?;
    Ok(Expr::Call(f, arguments))
}

// The array of the items.
#[cycle(writing)]
fn array(alloc: Global, items: &Items) -> Result<Expr, Memory>
    ensures { IfOk result (λ made. made ≡ array (map constant items.now)) }
{
    let mut all = List::new(alloc);
    for item in items.as_slice() {
        all.add(written(alloc, item)?)?;
    }
    array_of(alloc, all)
}

// The array of the expressions, which is written as a call where it is empty.
fn array_of(alloc: Global, all: List<Expr>) -> Result<Expr, Memory>
    ensures { IfOk result (λ made. made ≡ array all) }
{
    if all.len() > 0 {
        return Ok(Expr::Array(all));
    }
    call(Rt::Flatten, List::new(alloc), Expr::Array(all))
}

// The record of the fields.
#[cycle(writing)]
fn record(alloc: Global, fields: &Fields) -> Result<Expr, Memory>
    ensures { IfOk result (λ made. made ≡ record_of (map (on_value constant) fields.now)) }
{
    let mut all = Expr::Call(Rt::Nothing, List::new(alloc));
    for pair in fields.as_slice() {
        let value = written(alloc, &pair.1)?;
        all = with_field(alloc, all, &pair.0, value)?;
    }
    Ok(all)
}

// A record and a field.
fn with_field(alloc: Global, before: Expr, name: &Name, value: Expr) -> Result<Expr, Memory>
    ensures { IfOk result (λ made. made ≡ tree.Call rt.Cat (before ∷ field (name.now, value) ∷ [])) }
{
    let mut arguments = List::new(alloc);
    arguments.add(before)?;
    call(
        Rt::Cat,
        arguments,
        call(Rt::Rec, named(alloc, name)?, value)?,
    )
}
