// The variables in scope, with how each may be used.
ghost use Rattle.std.specs.Prelude.{◌≡◌, option_map};
ghost use Rattle.qc_imp.specs.WellFormed as spec;
ghost use Rattle.qc_imp.specs.WellFormed.{class_of};
ghost use Rattle.qc_imp_rules.specs.inner.Scopes.{is_new, scope_of, seen};

// How a variable may be used.
#[derive(Clone, Copy)]
pub(crate) enum Class {
    // Read and set.
    Settable,
    // Read alone.
    Readable,
    // Pushed to alone.
    Pushable,
}

// The variables in scope, the newest first.
#[derive(Drop)]
pub(crate) enum Chain<'a> {
    // No variable.
    Empty,
    // A variable and its class.
    Declare(u128, Class, &'a Chain<'a>),
}

// The class of a variable.
pub(crate) fn class_in(chain: &Chain, variable: u128) -> Option<Class>
    ensures { option_map seen result ≡ class_of variable (scope_of chain.now) }
{
    match chain {
        Chain::Empty => None,
        Chain::Declare(declared, class, outer) => {
            if *declared == variable {
                Some(*class)
            } else {
                class_in(outer, variable)
            }
        }
    }
}

// Whether none of the number is in scope.
pub(crate) fn is_new(chain: &Chain, variable: u128) -> bool
    ensures { result ≡ is_new variable (scope_of chain.now) }
{
    match class_in(chain, variable) {
        Some(_) => false,
        None => true,
    }
}

// Whether a variable may be read.
pub(crate) fn may_read(chain: &Chain, variable: u128) -> bool
    ensures { result ≡ spec.may_read (class_of variable (scope_of chain.now)) }
{
    match class_in(chain, variable) {
        Some(Class::Settable) | Some(Class::Readable) => true,
        _ => false,
    }
}

// Whether a variable may be set.
pub(crate) fn may_set(chain: &Chain, variable: u128) -> bool
    ensures { result ≡ spec.may_set (class_of variable (scope_of chain.now)) }
{
    match class_in(chain, variable) {
        Some(Class::Settable) => true,
        _ => false,
    }
}

// Whether a variable may be pushed to.
pub(crate) fn may_push(chain: &Chain, variable: u128) -> bool
    ensures { result ≡ spec.may_push (class_of variable (scope_of chain.now)) }
{
    match class_in(chain, variable) {
        Some(Class::Pushable) => true,
        _ => false,
    }
}
