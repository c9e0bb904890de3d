// The variables in scope.
ghost use Rattle.std.specs.Prelude.{◌≡◌, IfOk};
ghost use Rattle.qc_js.specs.WellFormed as spec;
ghost use Rattle.qc_js.specs.WellFormed.{declared};
ghost use Rattle.qc_js.specs.inner.Steps.{Steps};

use qc_containers::Memory;

/// How a variable may be used.
#[derive(Clone, Copy, Debug, PartialEq, Eq)]
pub enum Class {
    /// Read and set.
    Settable,
    /// Read alone.
    Readable,
    /// Pushed to alone.
    Pushable,
}

/// The class of a variable.
pub(crate) fn class_of(scope: &[(u128, Class)], x: u128) -> Option<Class>
    ensures { result ≡ spec.class_of x scope.now }
{
    for variable in scope {
        if variable.0 == x {
            return Some(variable.1);
        }
    }
    None
}

/// Whether a variable may be read.
pub(crate) fn may_read(class: Option<Class>) -> bool
    ensures { result ≡ spec.may_read class }
{
    match class {
        Some(Class::Settable) | Some(Class::Readable) => true,
        _ => false,
    }
}

/// Whether it may be set.
pub(crate) fn may_set(class: Option<Class>) -> bool
    ensures { result ≡ spec.may_set class }
{
    match class {
        Some(Class::Settable) => true,
        _ => false,
    }
}

/// Whether it may be pushed to.
pub(crate) fn may_push(class: Option<Class>) -> bool
    ensures { result ≡ spec.may_push class }
{
    match class {
        Some(Class::Pushable) => true,
        _ => false,
    }
}

/// Declares a variable, if none of its number is in scope.
pub(crate) fn declare(scope: &mut Vec<(u128, Class)>, x: u128, class: Class) -> Result<bool, Memory>
    ensures { IfOk result (λ good. Steps good (declared x class scope.old.items) scope.old.items scope.new.items) }
{
    match class_of(scope.as_slice(), x) {
        Some(_) => Ok(false),
        None => {
            scope.push((x, class))?;
            Ok(true)
        }
    }
}
