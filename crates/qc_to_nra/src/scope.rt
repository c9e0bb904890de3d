// Scopes: the names that are bound.
ghost use Rattle.std.specs.Prelude.{◌≡◌};
ghost use Rattle.qc_oql_nra.specs.OqlForms.{is_bound};
ghost use Rattle.qc_to_nra.specs.inner.Scopes.{is_source, names_of};

use qc_containers::Chars;
use qc_oql_tree::Named;

// Names, and those of the scope around them.
#[derive(Drop)]
pub(crate) enum Scope<'a> {
    // No name.
    Empty,
    // A name.
    Bind(&'a Chars, &'a Scope<'a>),
    // The names of sources, the last the newest.
    Sources(&'a [Named], &'a Scope<'a>),
}

// Whether a name is bound.
#[tactic(auto, using(crate::proofs::Names::bound_behind))]
pub(crate) fn is_bound(scope: &Scope, name: &Chars) -> bool
    ensures { result ≡ is_bound name.now (names_of scope.now) }
{
    match scope {
        Scope::Empty => false,
        Scope::Bind(bound, outer) => bound.as_str() == name.as_str() || is_bound(outer, name),
        Scope::Sources(sources, outer) => is_source(sources, name) || is_bound(outer, name),
    }
}

// Whether a source has the name.
fn is_source(sources: &[Named], name: &Chars) -> bool
    ensures { result ≡ is_source name.now sources.now }
{
    for source in sources {
        if source.name.as_str() == name.as_str() {
            return true;
        }
    }
    false
}
