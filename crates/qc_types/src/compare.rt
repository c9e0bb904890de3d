// Subtyping.
ghost use Rattle.std.specs.Prelude.{◌≡◌};
ghost use Rattle.qc_types.specs.Rows.{has_fields};
ghost use Rattle.qc_types.specs.Types.{sub};

use crate::classes::Classes;
use crate::index::ClassIndex;
use crate::rows::{is_same_names, value_of};
use crate::ty::{Row, Ty, Width};

/// Whether `a` is below `b`. Takes no memory.
pub fn subtype(classes: &Classes, a: &Ty, b: &Ty) -> bool
    ensures { result ≡ sub classes.now a.now b.now }
{
    is_above(classes.index(), b, a)
}

// Whether `b` is above `a`, by the parts of `b`.
#[cycle(above)]
#[tactic(auto, using(crate::proofs::Above::by_layer))]
pub(crate) fn is_above(index: &ClassIndex, b: &Ty, a: &Ty) -> bool
    ensures { result ≡ sub index.now a.now b.now }
{
    match (b, a) {
        (_, Ty::Bottom) => true,
        (Ty::Unit, Ty::Unit) => true,
        (Ty::Bool, Ty::Bool) => true,
        (Ty::Int, Ty::Int) => true,
        (Ty::Text, Ty::Text) => true,
        (Ty::Coll(u), Ty::Coll(t)) => is_above(index, u.get(), t.get()),
        (Ty::Rec(v, us), Ty::Rec(w, ts)) => match (v, w) {
            (Width::Exact, Width::Exact) => {
                if !is_same_names(ts, us) {
                    return false;
                }
                has_above(index, us, ts)
            }
            (Width::Exact, Width::Wide) => false,
            (Width::Wide, _) => has_above(index, us, ts),
        },
        (Ty::Either(v, w), Ty::Either(t, u)) => is_above(index, v.get(), t.get())
            && is_above(index, w.get(), u.get()),
        (Ty::Brand(m), Ty::Brand(n)) => n.as_str() == m.as_str() || index.is_below(n, m),
        _ => false,
    }
}

// Each name of `us` is in `ts`, with a type below.
#[cycle(above)]
fn has_above(index: &ClassIndex, us: &Row, ts: &Row) -> bool
    ensures { result ≡ has_fields (sub index.now) ts.now us.now }
{
    for pair in us.as_slice() {
        match value_of(ts, pair.0.as_str()) {
            Some(t) => {
                if !is_above(index, &pair.1, t) {
                    return false;
                }
            }
            None => return false,
        }
    }
    true
}
