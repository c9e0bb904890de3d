// The parameters of operators written out as expressions.
ghost use Rattle.std.specs.Prelude.{◌≡◌, ◌≢◌, cond, false, pos, [], ◌∷◌, ◌++◌, IfOk, OnOk, map, reverse};
ghost use Rattle.qc_containers.specs.Name.{is_marker};
ghost use Rattle.qc_js.specs.declared.tree.Expr.TheVariants as tree;
ghost use Rattle.qc_rt.specs.Laws.{NoMarkers};
ghost use Rattle.qc_to_js.specs.inner.Written.{AreParameters, classes_under, is_other, truth};

use crate::data::{named, truth};
use qc_containers::{Chars, List, Memory, Name};
use qc_js::Expr;
use qc_ops::{Divisor, Keys, Names, Unary};
use qc_types::Classes;
use std::alloc::Global;

// The parameters of the operator, over a schema's classes.
pub(crate) fn parameters(alloc: Global, classes: &Classes, op: &Unary) -> Result<List<Expr>, Memory>
    ensures { IfOk result (λ made. AreParameters classes.now op.now made) }
{
    match op {
        Unary::DivBy(k) => divisor(alloc, k),
        Unary::ModBy(k) => divisor(alloc, k),
        Unary::Rec(name) => named(alloc, name),
        Unary::Dot(name) => named(alloc, name),
        Unary::Project(names) => some_names(alloc, names),
        Unary::Brand(name) => named(alloc, name),
        Unary::Cast(name) => classes_for(alloc, classes, name),
        Unary::Order(keys) => ordering(alloc, keys),
        Unary::Group(name, names) => grouping(alloc, name, names),
        Unary::Like(pattern) => alone(alloc, Expr::Text(pattern.copy(alloc)?)),
        _ => Ok(List::new(alloc)),
    }
}

// An expression alone.
fn alone(alloc: Global, e: Expr) -> Result<List<Expr>, Memory>
    ensures { IfOk result (λ made. made ≡ e ∷ []) }
{
    let mut all = List::new(alloc);
    all.add(e)?;
    Ok(all)
}

// An integer other than 0.
fn divisor(alloc: Global, k: &Divisor) -> Result<List<Expr>, Memory>
    ensures made { IfOk result (λ made. made ≡ tree.Int k.now ∷ []) }
    ensures nonzero { k.now ≢ pos 0 }
{
    alone(alloc, Expr::Int(k.get()))
}

// A list of names.
fn some_names(alloc: Global, names: &Names) -> Result<List<Expr>, Memory>
    ensures made { IfOk result (λ made. made ≡ tree.Array (map tree.Text names.now) ∷ []) }
    ensures names { IfOk result (λ _. NoMarkers names.now) }
{
    let all = texts(alloc, names)?;
    alone(alloc, Expr::Array(all))
}

// The texts of names.
fn texts(alloc: Global, names: &Names) -> Result<List<Expr>, Memory>
    ensures made { IfOk result (λ made. made ≡ map tree.Text names.now) }
    ensures names { IfOk result (λ _. NoMarkers names.now) }
{
    let mut all = List::new(alloc);
    for name in names.as_slice() {
        add_text(alloc, &mut all, name)?;
    }
    Ok(all)
}

// One text more.
fn add_text(alloc: Global, all: &mut List<Expr>, name: &Name) -> Result<(), Memory>
    ensures made { OnOk result (all.new ≡ all.old ++ tree.Text name.now ∷ []) }
    ensures name { is_marker name.now ≡ false }
{
    let text = Chars::of(alloc, name.as_str())?;
    all.add(Expr::Text(text))
}

// Keys as two lists: their names, and which are ascending.
fn ordering(alloc: Global, keys: &Keys) -> Result<List<Expr>, Memory>
    ensures made { IfOk result (λ made. made
        ≡ tree.Array (map (λ key. tree.Text key.0) keys.now) ∷ tree.Array (map (λ key. truth key.1) keys.now) ∷ []) }
    ensures names { IfOk result (λ _. NoMarkers (map (λ key. key.0) keys.now)) }
{
    let names = key_names(alloc, keys)?;
    let mut all = alone(alloc, Expr::Array(names))?;
    all.add(Expr::Array(directions(alloc, keys)?))?;
    Ok(all)
}

// The names of keys.
fn key_names(alloc: Global, keys: &Keys) -> Result<List<Expr>, Memory>
    ensures made { IfOk result (λ made. made ≡ map (λ key. tree.Text key.0) keys.now) }
    ensures names { IfOk result (λ _. NoMarkers (map (λ key. key.0) keys.now)) }
{
    let mut all = List::new(alloc);
    for key in keys.as_slice() {
        add_text(alloc, &mut all, &key.0)?;
    }
    Ok(all)
}

// Whether each key is ascending.
fn directions(alloc: Global, keys: &Keys) -> Result<List<Expr>, Memory>
    ensures { IfOk result (λ made. made ≡ map (λ key. truth key.1) keys.now) }
{
    let mut all = List::new(alloc);
    for key in keys.as_slice() {
        all.add(truth(key.1))?;
    }
    Ok(all)
}

// A name and a list of names.
fn grouping(alloc: Global, name: &Name, names: &Names) -> Result<List<Expr>, Memory>
    ensures made { IfOk result
        (λ made. made ≡ tree.Text name.now ∷ tree.Array (map tree.Text names.now) ∷ []) }
    ensures name { is_marker name.now ≡ false }
    ensures names { IfOk result (λ _. NoMarkers names.now) }
{
    let mut all = named(alloc, name)?;
    all.add(Expr::Array(texts(alloc, names)?))?;
    Ok(all)
}

// The list of a class and of those below it.
fn classes_for(alloc: Global, classes: &Classes, name: &Name) -> Result<List<Expr>, Memory>
    ensures made { IfOk result
        (λ made. made ≡ tree.Array (map tree.Text (classes_under classes.now name.now (reverse classes.now))) ∷ []) }
    ensures names { IfOk result (λ _. NoMarkers (classes_under classes.now name.now (reverse classes.now))) }
{
    let mut all = named(alloc, name)?;
    for at in 0..classes.len() {
        if let Some(class) = classes.at(at) {
            add_class(alloc, &mut all, classes, &class.name, name)?;
        }
    }
    alone(alloc, Expr::Array(all))
}

// The text of a class more, if it is another than a second, and below it.
fn add_class(
    alloc: Global,
    all: &mut List<Expr>,
    classes: &Classes,
    class: &Name,
    name: &Name,
) -> Result<(), Memory>
    ensures made { OnOk result (all.new ≡ all.old
        ++ cond (is_other classes.now class.now name.now) (tree.Text class.now ∷ []) []) }
    ensures name { is_marker class.now ≡ false }
{
    let _text = class.as_str();
    if class.as_str() != name.as_str() && classes.below(class, name) {
        add_text(alloc, all, class)?;
    }
    Ok(())
}
